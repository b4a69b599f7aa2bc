//! The API calls on streams: they create, look up, update or delete a stream, and two of them first
//! check whether it exists. The crate also lists the names of streams and what the server reports
//! about each of them, page by page. It finds the stream that stores a subject. What an account uses
//! and may use is asked here too, because a server counts it by streams.
//!
//! Each call sends the requests that its contract states and nothing else. If the server's pages
//! belong to one list, you get the whole list.
#![tactic(auto)]

mod account;
mod account_error;
mod create;
mod create_or_update;
mod delete;
mod error;
mod find;
mod get;
mod get_or_create;
mod handle;
mod list_error;
mod list_item;
mod listing;
mod named_call;
mod overlay;
mod page;
mod page_rest;
mod progress;
mod received_config;
mod received_config_update;
mod refusal;
mod request_body;
mod source_domains;
mod update;

pub use account::{QueryAccount, QueryingAccount, query_account};
pub use account_error::{AccountError, AccountErrorKind};
pub use create::{CreateStream, CreatingStream, create_stream};
pub use create_or_update::{
    CreateOrUpdateStream, CreatingInfo, IfNotFound, create_or_update_stream,
};
pub use delete::{DeleteStream, DeletingStream, delete_stream};
pub use error::{
    CreateStreamError, CreateStreamErrorKind, DeleteStreamError, DeleteStreamErrorKind,
    GetStreamError, GetStreamErrorKind, UpdateStreamError, UpdateStreamErrorKind,
};
pub use find::{SearchingStream, StreamBySubject, stream_by_subject};
pub use get::{GetStream, GettingStream, get_stream, get_stream_no_info};
pub use get_or_create::{GetOrCreateStream, StreamLookup, get_or_create_stream};
pub use handle::StreamHandle;
pub use list_error::{
    GetStreamByNameError, GetStreamByNameErrorKind, StreamsError, StreamsErrorKind,
};
pub use list_item::ListItem;
pub use listing::{Listing, StreamNames, Streams, stream_names, streams};
pub use page::AskingPage;
pub use page_rest::Rest;
pub use progress::Progress;
pub use received_config::{ReceivedConfig, ReceivedInfo};
pub use received_config_update::update_stream_keeping;
pub use source_domains::domain_prefix;
pub use update::{UpdateStream, UpdatingStream, update_stream};
