//! Worked lives of ordered consumers.
ghost use Rattle.std.specs.Prelude.{[], ◌∷◌};
ghost use Rattle.js_ordered_stream.specs.WorkedLife as worked;

/// States that worked lives meet all that the clause `gapless` of `open` asks for, and what it
/// promises. A pull and a push consumer are polled four times over a link in memory, and a pull
/// consumer over a link that gives the number of a closed inbox again. A message is lost, and is
/// then removed from the stream; the consumer is recreated; and a poll runs out of memory. Each
/// begins with the inbox that `open` opens on a new link. A message of the first inbox that comes
/// after the second was opened is not honest. This is a law; calling it does nothing.
pub fn worked_lives_leave_no_gap()
    ensures pull { worked.IsWorkedLife worked.server worked.pull_input worked.pull_replies worked.pull_first worked.pull_polls (1 ∷ 3 ∷ []) }
    ensures again { worked.IsWorkedLife worked.server worked.pull_input worked.again_replies worked.again_first worked.again_polls (1 ∷ 3 ∷ []) }
    ensures push { worked.IsWorkedLife worked.server worked.push_input worked.push_replies worked.push_first worked.push_polls (1 ∷ 3 ∷ []) }
    ensures opened { worked.AreOpened }
    ensures stale { worked.StaleIsRefused }
{}
