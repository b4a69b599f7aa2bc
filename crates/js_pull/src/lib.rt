//! The pull reader, which reads a consumer by sending pull requests: the [`Reader`], a value that
//! is told what happened, and the [`Stream`], which runs it over any link.
//!
//! A [`Reader`] records what it asked for and counts what has come: messages still wanted, bytes,
//! missing heartbeats. It works in small steps, the rows of a table in `specs/`. No row knows a
//! link: a row says what it wishes of a link, the link is asked, and the row is passed with what it
//! met there. A row borrows what it met, so nothing is copied. A step that runs out of memory
//! leaves the reader unchanged. An ordered consumer (js_ordered_table) and its replay use the same
//! rows.
//!
//! A [`Stream`] passes rows until one has something to report. It may stop between any two rows and
//! continues there at the next poll. It returns `Pending` only after an event in which nothing
//! came. `wakes_at` returns when it has something to do even if nothing comes.
#![tactic(auto)]

mod arrivals;
mod connection_change;
mod error_text;
mod kind;
mod limits;
mod needs;
mod passed_row;
mod reader;
mod remaining_rows;
mod replies;
mod requests;
mod resilience;
mod rows;
mod stream;
mod timers;

pub use connection_change::same_state;
pub use kind::{HeaderNumber, Kind, header_number, pull_kind};
pub use limits::{clamp_batch, clamp_expires, clamp_heartbeat, ordered_batch_config};
pub use needs::{finding_of, informed_of};
pub use passed_row::PassedRow;
pub use reader::{
    InfoRequest, MessagesErrorKind, PullSource, Reader, ReaderOutput, Reason, Row, armed_silence,
    is_any_due, is_asking, retry_wait, timeout_from,
};
pub use replies::{Finding, InfoReply, info_of_reply, info_reply};
pub use resilience::Resilience;
pub use rows::{Due, DueRows, Notice, Spare, check_inquiry};
pub use stream::{Advance, Consumer, MessagesError, Stream, description_of};
pub use timers::wakes_at;
