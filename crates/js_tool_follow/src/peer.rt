//! The other side of a conversation: it sends lines and waits for their text.

ghost use Rattle.std.specs.Prelude.{◌≡◌};
ghost use Rattle.js_tool_follow.specs.Peer.{Dialogue, Reads, Writes, Flushes};

use js_base::Items;
use js_tool_io::Failed;

/// One call of a [`Peer`].
#[derive(Drop)]
pub enum PeerCall {
    /// These bytes were read.
    Read(Items<u8>),
    /// These bytes were taken.
    Wrote(Items<u8>),
    /// Everything taken before was flushed.
    Flushed,
}

/// The other side of a conversation: it sends lines and waits for their text. You read from it and
/// write to it in turns.
pub trait Peer {
    /// What is left to be read, what was taken, and the calls, as far as the peer tells them; and
    /// how often it has failed.
    ghost view: { Self → Dialogue };

    /// Reads some bytes into the front of the buffer and returns how many. 0 for a non-empty buffer
    /// means the end. Fails with `Failed` if the peer fails.
    fn read(&mut self, buf: &mut [u8]) -> Result<usize, Failed>
        ensures { Reads (view self.old) (view self.new) result buf.new };

    /// Takes some bytes off the front of the piece and returns how many. 0 for a non-empty piece is
    /// a fault. Fails with `Failed` if the peer fails.
    fn write(&mut self, piece: &[u8]) -> Result<usize, Failed>
        ensures { Writes (view self.old) (view self.new) result piece.now };

    /// Passes on everything that was taken, so that whoever waits for it receives it. Fails with
    /// `Failed` if the peer fails.
    fn flush(&mut self) -> Result<(), Failed>
        ensures { Flushes (view self.old) (view self.new) result };
}
