//! Bodies of the JetStream API on streams as JSON values: stream configurations and states, the
//! answer to a deletion, and pages of lists. Their form is that of js_json.
#![tactic(auto)]

pub mod stream;

pub use stream::DeleteStatus;
