//! A live table of the keys of a bucket, read from the bucket's stream.
//!
//! A [`Table`] owns what reads the stream in order (an [`OrderedReader`]: an ordered consumer, by
//! pull or by push) and its [`Rows`]: the last entries of each key, as many as the bucket keeps. A
//! poll reads one message, returns it as an [`Entry`], and adds it to the rows. Contracts see the
//! rows as the table of the changes that were returned: `history_of` says which entries of a key
//! are kept. If memory runs out for a message, the table keeps the message and returns it at the
//! next poll.
#![tactic(auto)]

mod key_history;
mod key_rows;
mod laws;
mod message_entry;
mod table;
mod table_error;
mod table_rows;

pub use js_readers::ordered::OrderedReader;
pub use js_store_keys::Entry;
pub use laws::{limits_keep_the_last, rows_are_those_of_the_log, worked_limits, worked_logs};
pub use table::Table;
pub use table_error::TableError;
pub use table_rows::Rows;
