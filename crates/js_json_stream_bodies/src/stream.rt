//! Streams: configuration, what the server reports about them, and lists.

pub(crate) mod config;
mod delete_status;
mod info;
mod page;
mod placement;
mod policies;
mod republish;
mod source;

pub use config::{Config, there_and_back};
pub use delete_status::DeleteStatus;
pub use info::{Info, State};
pub use page::{ListRequest, NamesRequest, Page};
pub use placement::Placement;
pub use policies::{Compression, DiscardPolicy, RetentionPolicy, StorageType};
pub use republish::Republish;
pub use source::{External, Source};
