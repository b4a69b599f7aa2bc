//! Mirrors: random ones of one log, joined both ways and brought back by a replay; then each call of a mirror, of the table of a run
//! and of sessions.

mod calls;
mod draw;
mod round;
mod runs;
mod sessions;
mod tally;
