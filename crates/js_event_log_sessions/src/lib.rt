//! Sessions of an ordered consumer: a program stops, starts again and goes on from the bookmark
//! that it saved.
//!
//! You pass the lines to [`Sessions`] and [`SessionReplay`] one after another; they keep none of
//! them. A session takes ownership of the sessions before it and gives them back when it ends, so
//! no session begins before the previous one has ended. If a session fails, the sessions are
//! dropped. [`run_sessions`] runs a whole list. Over one log with honest servers, if removed
//! messages stay removed, the sequences of the committed messages rise from session to session, and
//! nothing is missing between the first bookmark and the last of these messages except removed
//! messages.
#![tactic(auto)]

mod error;
mod mark;
mod runs;
mod scope;
mod session;
mod session_replay;

pub use error::SessionsError;
pub use runs::run_sessions;
pub use session::{Line, Session, SessionRun};
pub use session_replay::{SessionEnd, SessionReplay, Sessions};
