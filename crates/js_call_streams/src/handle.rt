//! A stream on the server.
use crate::received_config::ReceivedConfig;
use js_base::Text;
use js_call::ApiScope;

/// A stream on the server: where its calls go, its name, and what is known of it.
#[derive(Debug, PartialEq, Eq, Drop)]
pub struct StreamHandle<T> {
    /// The prefix and the timeout of its calls.
    pub scope: ApiScope,
    /// The stream's name.
    pub name: Text,
    /// What the server reported about the stream when the handle was made, or `()` if it was not
    /// asked.
    pub info: T,
    /// The configuration as `get_stream` read it. `update_stream_keeping` uses it. Handles of other
    /// calls have none.
    pub kept: Option<ReceivedConfig>,
}
