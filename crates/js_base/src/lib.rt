//! The values that every layer of the client uses.
//!
//! They are texts, lists, headers, subjects, messages, times, errors and the results of polls.
//! Contracts see a text as its bytes, a list as its items, and a boxed value as the value. If a
//! method that changes one of these values runs out of memory, it leaves the value as it was.
//!
//! [`subject_matches`] and [`is_valid_subject`] compute the definitions of the same names. [`both`]
//! and [`all_3`] to [`all_7`] turn several results into one, which has all values or the first
//! error. You then pass the error on with a single `?`.
#![tactic(auto)]

mod api_subject;
mod boxed;
mod clock;
mod error;
mod headers;
mod items;
mod memory;
mod message;
mod results;
mod subject;
mod subject_tokens;
mod text;
mod text_map;
mod turn;

pub use api_subject::{consumer_api_subject, named_subject, with_word};
pub use boxed::Boxed;
pub use clock::{Moment, Nanos, Timer, any_ends_at, due, earlier, end_of, is_any_due};
pub use error::{ApiError, Error, Source};
pub use headers::{Header, HeaderIter, HeaderMap};
pub use items::Items;
pub use memory::{OutOfMemory, TryClone, replace_with};
pub use message::{Entry, Message, State, StatusCode};
pub use results::{all_3, all_4, all_5, all_6, all_7, both, each_copied};
pub use subject::{Subject, is_valid_subject, subject_matches};
pub use subject_tokens::Tokens;
pub use text::Text;
pub use text_map::{ByName, TextMap};
pub use turn::{Next, Turn};
