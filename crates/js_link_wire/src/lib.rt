//! The NATS client protocol as values: it reads what a server writes as frames, and writes the
//! frames of a client as bytes.
//!
//! [`read_frame`] reads the first frame of some bytes, or says that it needs more bytes or what is
//! damaged. A [`FrameReader`] keeps the bytes that come until their frames are read. [`write_frame`]
//! appends a client's frame to some bytes. [`read_headers`] reads the headers of a message, and
//! [`message_of_frame`] makes the message of a frame. Nothing in this crate reads or writes a
//! connection.
//!
//! The frames are those of the page "NATS client protocol" of docs.nats.io
//! (<https://docs.nats.io/reference/reference-protocols/nats-protocol>): a line that ends with a
//! carriage return and a line feed, and after the line of a message its body, which ends in the same
//! way.
#![tactic(auto)]

mod client_lines;
mod damage;
mod first_frame;
mod frame;
mod frame_reader;
mod frame_writer;
mod headers;
mod incoming;
mod laws;
mod line;
mod message;
mod number;
mod refusals;
mod words;

pub use damage::Damage;
pub use first_frame::{Reading, read_frame};
pub use frame::{ClientFrame, ServerFrame};
pub use frame_reader::{FrameError, FrameReader};
pub use frame_writer::write_frame;
pub use headers::{HeaderBlock, HeadersDamage, HeadersError, read_headers};
pub use incoming::{Incoming, message_of_frame};
pub use laws::{
    cuts_do_not_matter, frames_are_read_again, headers_are_read_again, lines_stay_whole,
    pieces_are_read_as_one,
};
pub use line::{LONGEST_INFO, LONGEST_LINE};
pub use refusals::WriteError;
