//! A source and a sink as a peer, and `follow`: replays a transcript from one to the other as its
//! lines arrive.

ghost use Rattle.std.specs.Prelude.{◌≡◌, IfSome};
ghost use Rattle.js_tool_io.specs.Causes.{Rose};
ghost use Rattle.js_tool_io.specs.Lines.{lines_of};
ghost use Rattle.js_tool.specs.Command.{plain};
ghost use Rattle.js_tool.specs.Program.{IsUnlessFailed};
ghost use Rattle.js_tool_follow.specs.Conversation.{AnswersLines, IsValidInput, WritesRun};

use crate::conversation::{converse, converse_with};
use crate::peer::Peer;
use js_tool::{FollowOptions, Status};
use js_tool_io::{Failed, Sink, Source};
use std::alloc::Global;

/// A source and a sink as one peer. A [`Sink`] has no flush, so the sink has to pass on what it
/// takes at once, as a `WriteSink` over standard output does. A writer that buffers bytes would
/// keep the other side waiting.
#[derive(Drop)]
pub struct Ends<'a, S, K> {
    input: &'a mut S,
    output: &'a mut K,
}

impl<'a, S: Source, K: Sink> Ends<'a, S, K> {
    /// Combines the two ends. Reads and writes nothing.
    pub fn new(input: &'a mut S, output: &'a mut K) -> Ends<'a, S, K>
        ensures input { result.input.ghost_name ≡ input.entry.ghost_name }
        ensures output { result.output.ghost_name ≡ output.entry.ghost_name }
        ensures as_they_were { (result.input.now ≡ input.old) × (result.output.now ≡ output.old) }
    {
        Ends { input, output }
    }
}

impl<S: Source, K: Sink> Peer for Ends<'_, S, K> {
    ghost use Rattle.std.specs.Prelude.{Some, None};

    ghost view = { λ e. record {
      left = S.left e.input.now;
      taken = K.taken e.output.now;
      turns = None;
      read_faults = S.faults e.input.now;
      write_faults = K.faults e.output.now;
      place = Some (e.input.ghost_name, e.output.ghost_name);
    } };

    fn read(&mut self, buf: &mut [u8]) -> Result<usize, Failed> {
        self.input.read(buf)
    }

    fn write(&mut self, piece: &[u8]) -> Result<usize, Failed> {
        self.output.write(piece)
    }

    // A sink passes on what it takes.
    fn flush(&mut self) -> Result<(), Failed> {
        Ok(())
    }
}

/// Replays a transcript of any length from a source as its lines arrive. Writes the text of each
/// step into a sink before reading more, as [`converse`] does with a peer, so whoever writes the
/// lines may wait for their text. The sink has to pass on what it takes at once.
pub fn follow<S: Source, K: Sink>(alloc: Global, input: &mut S, output: &mut K) -> Status
    // What the lines call for is answered, with all its text, unless memory ran out or a count of faults rose; then the text is that
    // of some first lines.
    ensures lines { IfSome (S.left input.old) (λ bytes. AnswersLines plain (lines_of bytes) (K.taken output.old) (K.taken output.new) result) }
    // The text of the whole run was written, which leaves no gap where the server was honest.
    ensures done { result ≡ Status.Done → IfSome (S.left input.old) (λ bytes. WritesRun plain bytes (K.taken output.old) (K.taken output.new)) }
    ensures valid { IfSome (S.left input.old) (λ bytes. IsValidInput bytes → IsUnlessFailed result Status.Done) }
    ensures read_fault { result ≡ Status.ReadFault → Rose (S.faults input.old) (S.faults input.new) }
    ensures write_fault { result ≡ Status.WriteFault → Rose (K.faults output.old) (K.faults output.new) }
{
    let mut ends = Ends::new(input, output);
    converse(alloc, &mut ends)
}

/// Does what [`follow`] does, and writes more where the options ask for it, as [`converse_with`]
/// does with a peer.
pub fn follow_with<S: Source, K: Sink>(
    alloc: Global,
    options: FollowOptions,
    input: &mut S,
    output: &mut K,
) -> Status
    // What the lines call for is answered, with all its text, unless memory ran out or a count of faults rose; then the text is that
    // of some first lines.
    ensures lines { IfSome (S.left input.old) (λ bytes. AnswersLines options (lines_of bytes) (K.taken output.old) (K.taken output.new) result) }
    // All answers were written; without options they are the text of the whole run, which leaves no gap where the server was honest.
    ensures done { result ≡ Status.Done → IfSome (S.left input.old) (λ bytes. WritesRun options bytes (K.taken output.old) (K.taken output.new)) }
    ensures valid { IfSome (S.left input.old) (λ bytes. IsValidInput bytes → IsUnlessFailed result Status.Done) }
    ensures read_fault { result ≡ Status.ReadFault → Rose (S.faults input.old) (S.faults input.new) }
    ensures write_fault { result ≡ Status.WriteFault → Rose (K.faults output.old) (K.faults output.new) }
{
    let mut ends = Ends::new(input, output);
    converse_with(alloc, options, &mut ends)
}
