//! What a program over two files is made of: a [`Session`], which is a connection to a server over
//! these files, the threads that bring what comes, and why the program ends.
//!
//! A program makes a channel of [`Came`], starts a thread that brings the server's bytes
//! ([`bring_bytes`]), and one that brings the lines of standard input if it reads them
//! ([`bring_lines`]). Its own thread polls over [`Session::link`], and sleeps in [`Session::turn`].
#![tactic(auto)]

mod failure;
mod lines;
mod options;
mod page;
mod session;

pub use failure::{Failure, exit_code, tell, told};
pub use lines::{Came, bring_bytes, bring_lines};
pub use options::{Options, Task};
pub use page::{add_message_line, add_outcome_line, write_page};
pub use session::{Happened, Session};
