//! A recorder whose lines go to a sink.

ghost use Rattle.std.specs.Prelude.{◌≡◌, [], true, false, OnOk, IfOk, IfErr};
ghost use Rattle.js_pipe.specs.declared.failure.Failure.TheVariants.{Unrecorded};
ghost use Rattle.js_pipe_record.specs.FileRecorder.{GoesOn, PollsFile, Records, StaysRecorded, is_whole, with_timeout};

use crate::first_line::FirstLine;
use crate::recording_file::RecordingFile;
use js_base::{Moment, Nanos, Next, OutOfMemory, replace_with};
use js_link::{InboxId, Link};
use js_link_outbox::OutboxLink;
use js_message::Message;
use js_ordered_recorder::{LineRecording, Recorder};
use js_pipe::{Failure, tell};
use js_pipe_consume::Reads;
use js_readers::ordered::OrderedError;
use js_tool_io::Sink;
use std::alloc::Global;

/// A reader of a stream, in order, that records what it meets. Its lines go to a sink behind the
/// first line, in order, whenever [`keep`](FileRecorder::keep_lines) is called.
#[derive(Drop)]
pub struct FileRecorder<'a, F> {
    recorder: Recorder<'a>,
    /// Lines that are not written yet.
    lines: LineRecording,
    file: RecordingFile<F>,
    /// How long a double ack of its messages waits, in nanoseconds.
    timeout: Nanos,
}

// What a recorder answers, as a reader answers it.
fn answer_of(
    answer: Next<Result<js_base::Message, OrderedError>>,
    timeout: Nanos,
) -> Next<Result<Message, OrderedError>>
    ensures { result ≡ with_timeout timeout answer }
{
    match answer {
        Next::Item(Ok(message)) => Next::Item(Ok(Message { message, timeout })),
        Next::Item(Err(error)) => Next::Item(Err(error)),
        Next::Pending => Next::Pending,
        Next::End => Next::End,
        Next::OutOfMemory => Next::OutOfMemory,
    }
}

impl<'a, F: Sink + Drop> FileRecorder<'a, F> {
    /// Opens a recorder for the ordered consumer that the first line tells of, and writes this line.
    /// `inbox` is the link's inbox to which the consumer's messages come.
    ///
    /// Fails with `OutOfMemory` if memory runs out. A fault of the sink is no failure: it ends the
    /// recording, and is told on standard error.
    pub fn open<R: Eprint>(
        rt: &R,
        alloc: Global,
        first: &'a FirstLine,
        inbox: InboxId,
        timeout: Nanos,
        sink: F,
    ) -> Result<FileRecorder<'a, F>, OutOfMemory>
        ensures { IfOk result (λ reader. Records F.taken (F.taken sink) first.now [] [] reader) }
    {
        let recorder = Recorder::open(alloc, first.setup.get(), inbox)?;
        let mut file = RecordingFile::new(sink);
        file.write(rt, &first.line);
        Ok(FileRecorder {
            recorder,
            lines: LineRecording::new(alloc),
            file,
            timeout,
        })
    }

    /// Reads the next message or error, as `Recorder::poll_next` does. The lines of what it meets
    /// are not written before `keep_lines`.
    pub fn poll_next<L: Link>(
        &mut self,
        alloc: Global,
        link: &mut L,
        now: Moment,
    ) -> Next<Result<Message, OrderedError>>
        ensures polls { PollsFile now result self.old self.new (L.view link.old) (L.view link.new) }
        ensures records { GoesOn F.taken self.old self.new }
    {
        let answer = self.recorder.poll_next(alloc, link, &mut self.lines, now);
        answer_of(answer, self.timeout)
    }

    /// Writes the lines that are not written yet. A fault of the sink ends the recording, and is told
    /// on standard error.
    pub fn keep_lines<R: Eprint>(&mut self, rt: &R, alloc: Global)
        ensures records { StaysRecorded F.taken self.old self.new }
        ensures written { self.new.lines.bytes.items ≡ [] }
        ensures recorder { self.new.recorder ≡ self.old.recorder }
    {
        self.file.write(rt, self.lines.lines());
        replace_with(&mut self.lines, LineRecording::new(alloc));
    }

    // Fails with `Unrecorded` if the recording is not whole. That memory ran out for an event is told
    // on standard error.
    fn outcome<R: Eprint>(&self, rt: &R) -> Result<(), Failure>
        ensures whole { OnOk result (is_whole self.now ≡ true) }
        ensures fault { IfErr result (λ failure. (failure ≡ Unrecorded) × (is_whole self.now ≡ false)) }
    {
        if self.recorder.fault().is_some() {
            let why = "the recording has ended: memory ran out";
            return Err(tell(rt, &why, Failure::Unrecorded));
        }
        if self.file.is_whole() {
            Ok(())
        } else {
            Err(Failure::Unrecorded)
        }
    }
}

impl<'a, F: Sink + Drop> Reads for FileRecorder<'a, F> {
    ghost unwritten = { λ reader. reader.lines.bytes.items };

    ghost is_whole = { is_whole };

    fn wakes_at(&self) -> Option<Moment> {
        self.recorder.wakes_at()
    }

    fn poll(
        &mut self,
        alloc: Global,
        link: &mut OutboxLink,
        now: Moment,
    ) -> Next<Result<Message, OrderedError>> {
        self.poll_next(alloc, link, now)
    }

    fn keep<R: Eprint>(&mut self, rt: &R, alloc: Global) {
        self.keep_lines(rt, alloc);
    }

    fn close<R: Eprint>(self, rt: &R, link: &mut OutboxLink) -> Result<(), Failure> {
        let outcome = self.outcome(rt);
        let FileRecorder {
            recorder,
            lines,
            file,
            timeout: _,
        } = self;
        recorder.close(link);
        drop(lines);
        drop(file);
        outcome
    }
}
