//! What the polls of a recorder come to.
ghost use Rattle.js_ordered_recorder.specs.Life.{NewLive};

use crate::recording::Recording;

/// States what all polls of a recorder come to, however many there are and whatever the link does
/// between them, with any recording. The consumer is the replay of the events that were written.
/// What was handed out, and then what is queued, is what the replay hands out, and the link was
/// asked to send what the replay sends. Each message that was handed out is the message of the last
/// event, an arrival, as a whole. If the server is honest in these events, what was handed out has
/// no gap. This is a law; calling it does nothing.
pub fn lives_follow_their_recordings<R: Recording>()
    ensures { NewLive R.writes }
{}
