//! How far a stream is read.

ghost use Rattle.std.specs.Prelude.{◌≡◌, ◌<◌, [], None, OnOk, OnErr, IfErr, nat_eq};
ghost use Rattle.std.specs.Io.KnownBytes.{Appends};
ghost use Rattle.js_pipe_consume.specs.ReadProgress.{Adds, bookmark};
ghost use Rattle.js_pipe.specs.declared.failure.Failure.TheVariants.{Fault};

use js_message::Message;
use js_pipe::{Failure, add_message_line, tell, write_page};
use js_tool_io::Sink;
use std::alloc::Global;

/// How far a stream is read.
#[derive(Drop)]
pub struct Reading {
    /// Lines that are not written yet.
    page: Vec<u8>,
    /// How many messages are still wanted.
    left: u64,
    /// The stream sequence of the last message that was read.
    last: Option<u64>,
    /// The stream sequence of the last message whose line was written.
    written: Option<u64>,
}

impl Reading {
    /// Nothing is read, and so many messages are wanted.
    pub fn new(alloc: Global, left: u64) -> Reading
        ensures left { result.left ≡ left }
        ensures page { result.page.items ≡ [] }
        ensures none { (result.last ≡ None) × (result.written ≡ None) }
    {
        Reading {
            page: Vec::new(alloc),
            left,
            last: None,
            written: None,
        }
    }

    /// Whether all messages that are wanted were read.
    pub fn is_full(&self) -> bool
        ensures { result ≡ nat_eq self.now.left 0 }
    {
        self.left == 0
    }

    /// Adds the line of a message.
    ///
    /// # Errors
    ///
    /// `Refused` if the message does not tell its place in the stream, and `OutOfMemory`. Nothing
    /// has changed then.
    pub fn add<R: Eprint>(
        &mut self,
        rt: &R,
        alloc: Global,
        message: &Message,
    ) -> Result<(), Failure>
        requires { 0 < self.old.left }
        ensures ok { OnOk result (Adds message.now self.old self.new) }
        ensures err { OnErr result (self.new.written ≡ self.old.written) }
    {
        let sequence = match message.info() {
            Ok(info) => info.stream_sequence,
            Err(error) => return Err(tell(rt, &error, Failure::Refused)),
        };
        let subject = message.message.subject.as_str();
        let payload = message.message.payload.as_slice();
        add_message_line(alloc, &mut self.page, sequence, subject, payload)?;
        self.last = Some(sequence);
        self.left -= 1;
        Ok(())
    }

    /// Writes the lines that are not written yet. Fails with `Fault` if the output fails.
    pub fn write<K: Sink>(&mut self, output: &mut K) -> Result<(), Failure>
        ensures ok { OnOk result (Appends (K.taken output.old) (K.taken output.new) self.old.page.items) }
        ensures empty { OnOk result (self.new.page.items ≡ []) }
        ensures written { OnOk result (self.new.written ≡ self.old.last) }
        ensures err { OnErr result (self.new.written ≡ self.old.written) }
        ensures failure { IfErr result (λ failure. failure ≡ Fault) }
        ensures same { (self.new.left ≡ self.old.left) × (self.new.last ≡ self.old.last) }
    {
        write_page(&mut self.page, output)?;
        self.written = self.last;
        Ok(())
    }

    /// The sequence at which the next start goes on: the one behind the last message whose line was
    /// written.
    pub fn bookmark(&self) -> Option<u64>
        ensures { result ≡ bookmark self.now.written }
    {
        match self.written {
            Some(sequence) => sequence.checked_add(1),
            None => None,
        }
    }
}
