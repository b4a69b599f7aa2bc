//! Why a call of a connection can fail.

ghost use Rattle.std.specs.Prelude.{◌≡◌, Some};
ghost use Rattle.js_link_connection.specs.Errors.{connection_text, error_of};

use js_base::{OutOfMemory, Text};
use js_link_wire::{Damage, HeadersDamage, WriteError};
use std::{error, fmt};

/// Why a call of a connection did not do all of its work.
///
/// It prints what is wrong, and at which byte if bytes are damaged; a refusal in the server's words.
#[derive(Debug, Drop)]
pub enum ConnectionError {
    /// The server's bytes at `place` do not begin with a frame, whatever follows. `place` counts the
    /// bytes before, since the connection was made. Nothing from there on is delivered, and each
    /// further call fails in the same way. Close the connection, and call `lost`.
    Damaged { damage: Damage, place: u64 },
    /// The headers of the message at `place` cannot be read. As for `Damaged`, nothing from there on
    /// is delivered.
    BadHeaders { damage: HeadersDamage, place: u64 },
    /// The INFO at `place` is not a JSON object, or has no `max_payload` that is a number. As for
    /// `Damaged`, nothing from there on is delivered.
    BadInfo { place: u64 },
    /// The server refused something, in these words (-ERR). What came before was delivered, and what
    /// came after it is kept. Call `received` again, with the next bytes or with none.
    Refused { text: Text },
    /// No answer came to two PINGs, or no INFO came at all. Close the connection, and call `lost`.
    Silent,
    /// The next frame to write is refused for this reason. It stays where it is, and each further
    /// call fails in the same way.
    Unwritable(WriteError),
    /// Memory ran out. `received` took none of the bytes: call it again with the same ones. `write`
    /// lost nothing: call it again.
    OutOfMemory,
    /// Memory ran out while reading what had come. The bytes are kept, and none is lost. Call
    /// `received` again, with the next bytes or with none, and never with the same ones.
    Unread,
}

impl fmt::Display for ConnectionError {
    ghost output = { λ error. Some (connection_text error) };

    fn fmt<W: fmt::Write>(&self, f: &mut fmt::Formatter<W>) -> fmt::Result {
        match self {
            ConnectionError::Damaged { place, .. } => write!(f, "damaged bytes at byte {place}"),
            ConnectionError::BadHeaders { place, .. } => write!(
                f,
                "damaged headers at byte {place}"
            ),
            ConnectionError::BadInfo { place } => write!(f, "bad INFO at byte {place}"),
            ConnectionError::Refused { text } => write!(f, "{text}"),
            ConnectionError::Silent => f.write_str("no answer to PING"),
            ConnectionError::Unwritable(_) => f.write_str("a frame cannot be written"),
            ConnectionError::OutOfMemory => f.write_str("out of memory"),
            ConnectionError::Unread => f.write_str("out of memory"),
        }
    }
}

impl error::Error for ConnectionError {}

impl From<OutOfMemory> for ConnectionError {
    ghost use Rattle.js_link_connection.specs.declared.error.ConnectionError.TheVariants as failed;

    ghost from_gives = { λ _ error. error ≡ failed.OutOfMemory };

    fn from(_error: OutOfMemory) -> ConnectionError {
        ConnectionError::OutOfMemory
    }
}

// What a connection fails by where a frame is not written.
pub(crate) fn error_of(error: WriteError) -> ConnectionError
    ensures { result ≡ error_of error }
{
    match error {
        WriteError::OutOfMemory => ConnectionError::OutOfMemory,
        WriteError::BadConnect => ConnectionError::Unwritable(WriteError::BadConnect),
        WriteError::BadSubject => ConnectionError::Unwritable(WriteError::BadSubject),
        WriteError::BadQueueGroup => ConnectionError::Unwritable(WriteError::BadQueueGroup),
        WriteError::BadReply => ConnectionError::Unwritable(WriteError::BadReply),
        WriteError::BadHeaders => ConnectionError::Unwritable(WriteError::BadHeaders),
    }
}
