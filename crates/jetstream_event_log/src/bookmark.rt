//! Sessions of an ordered consumer. Each starts at the bookmark that the one before it saved.
pub use js_event_log_sessions::{
    Line, Session, SessionEnd, SessionReplay, SessionRun, Sessions, SessionsError, run_sessions,
};
