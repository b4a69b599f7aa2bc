//! Workers that take permits of one publish window and give them back, each in its own thread if
//! threads can be made. The program's word `window` runs them.
//!
//! The returned counts are those of the workers' own calls. Each worker passes a gate once, after
//! its first take and before it gives a permit back. Whoever runs the workers can hold them there.
#![tactic(auto)]

mod gate;
mod worker;
mod workers;

pub use gate::{Gate, GatePassage, Open};
pub use worker::{Ended, take_calls, take_calls_through};
pub use workers::{WindowCounts, run_window};
