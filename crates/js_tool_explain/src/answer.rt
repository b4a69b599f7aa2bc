//! The call: reads a transcript and writes what its replay did and why.

ghost use Rattle.std.specs.Prelude.{◌≡◌, ◌<◌, ℕ, List, length, Some, Ok, IfSome};
ghost use Rattle.std.specs.Io.KnownBytes.{Keeps};
ghost use Rattle.js_tool_io.specs.Causes.{Rose};
ghost use Rattle.js_tool.specs.Program.{SaysNothing};
ghost use Rattle.js_tool_transcript.specs.Transcript.{transcript, extended_transcript};
ghost use Rattle.js_tool_transcript.specs.TranscriptReplay.{FirstUnreadAs};
ghost use Rattle.js_tool_transcript.specs.declared.transcript.Transcript as transcripts;
ghost use Rattle.js_tool_explain.specs.Answer.{AnswersExplain, ExplainsTranscript};

use crate::sentences::Sentences;
use js_tool::{Lines, Status, answer_text};
use js_tool_io::{Sink, Source};
use std::alloc::Global;

/// Reads a transcript that may have extended lines to its end, replays it, and writes in plain
/// English what the consumer did and why: one sentence a line, each with its time in seconds.
///
/// If the replay is refused, writes the line that `rerun` writes. Returns the status that `rerun`
/// returns for the same input, unless memory runs out, or the source or the sink fails. For a
/// transcript without extended lines that is the line and the status of `replay`.
pub fn explain<S: Source, K: Sink>(alloc: Global, input: &mut S, output: &mut K) -> Status
    ensures not_usage { result ≡ Status.Usage → ⊥ }
    ensures answers { AnswersExplain (S.left input.old) (S.left input.new) (K.taken output.old) (K.taken output.new)
        (K.faults output.old) (K.faults output.new) result }
    // Of a transcript it writes the sentences on the replay that `replay` does.
    ensures plain { (bytes : List ℕ) → (t : transcripts.Transcript) → S.left input.old ≡ Some bytes → transcript bytes ≡ Ok t
        → ExplainsTranscript (S.left input.old) (S.left input.new) (K.taken output.old) (K.taken output.new)
        (K.faults output.old) (K.faults output.new) result }

    // What else a status tells.
    ensures write_fault { result ≡ Status.WriteFault → Rose (K.faults output.old) (K.faults output.new) }
    ensures silent { SaysNothing result → Keeps (K.taken output.old) (K.taken output.new) }
    ensures read_fault { result ≡ Status.ReadFault → Rose (S.faults input.old) (S.faults input.new) }
    ensures too_long { result ≡ Status.TooLong
        → IfSome (S.left input.old) (λ bytes. 67_108_864 < length bytes) }
    ensures bad_line { (line : ℕ) → result ≡ Status.BadLine line
        → IfSome (S.left input.old) (λ bytes. FirstUnreadAs (extended_transcript bytes) bytes line) }
{
    answer_text::<Sentences, S, K>(alloc, Lines::Extended, input, output, &mut None)
}
