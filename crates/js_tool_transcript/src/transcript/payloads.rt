//! The payloads of a transcript.

ghost use Rattle.std.specs.Prelude.{◌≡◌, [], IfOk, OnOk};

use bytes::{Bytes, BytesMut};
use std::alloc::{AllocError, Global};

/// The size of the room that short payloads share, in bytes.
const ROOM: usize = 65_536;

/// The longest payload that shares the room, in bytes. A longer one gets a block of its own.
const SHORT: usize = 4_096;

/// Room that short payloads share, so that each takes little more memory than its bytes.
#[derive(Drop)]
pub struct Payloads {
    room: BytesMut,
}

impl Payloads {
    /// Creates a value without any room yet. Allocates nothing.
    pub fn new(alloc: Global) -> Payloads {
        Payloads {
            room: BytesMut::new(alloc),
        }
    }

    /// Returns a copy of a payload.
    pub(crate) fn keep(&mut self, alloc: Global, payload: &[u8]) -> Result<Bytes, AllocError>
        ensures { IfOk result (λ bytes. bytes ≡ payload.now) }
    {
        if payload.len() > SHORT {
            return Bytes::copy_from_slice(alloc, payload);
        }
        self.make_room(alloc, payload.len())?;
        self.room.extend_from_slice(payload)?;
        self.room.freeze_to(payload.len())
    }

    // Room for so many bytes.
    fn make_room(&mut self, alloc: Global, count: usize) -> Result<(), AllocError>
        ensures { OnOk result (self.new.room.items ≡ []) }
    {
        if self.room.capacity() < count {
            self.room = BytesMut::with_capacity(alloc, ROOM)?;
        }
        self.room.clear();
        Ok(())
    }
}
