//! Writing to a peer, with a flush.

ghost use Rattle.std.specs.Prelude.{◌≡◌, ◌++◌, ℕ, List, OnOk, OnErr};
ghost use Rattle.std.specs.Io.KnownBytes.{Appends};
ghost use Rattle.js_tool_io.specs.Causes.{Rose, AppendsPrefix};
ghost use Rattle.js_tool.specs.declared.command.FollowOptions.{FollowOptions};
ghost use Rattle.js_tool_follow.specs.Punctuality.{Holds, TurnsSoFar, IsPunctual};
ghost use Rattle.js_tool_follow.specs.Peer.{HasWritten};

use crate::peer::Peer;
use js_tool_io::Failed;

// Writes all of the text. Where that fails, a front of it was written.
fn write_all<P: Peer>(peer: &mut P, text: &[u8]) -> Result<(), Failed>
    ensures ok { OnOk result (Appends (P.view peer.old).taken (P.view peer.new).taken text.now) }
    ensures err { OnErr result (AppendsPrefix (P.view peer.old).taken (P.view peer.new).taken text.now) }
    ensures cause { OnErr result (Rose (P.view peer.old).write_faults (P.view peer.new).write_faults) }
    ensures said { (asked : FollowOptions) → (lines : List (List ℕ)) → (held before passed : List ℕ) → Holds (P.view peer.old).turns (TurnsSoFar asked lines held before passed)
        → OnOk result (Holds (P.view peer.new).turns (TurnsSoFar asked lines held (before ++ text.now) passed)) }
    ensures punctual { (asked : FollowOptions) → Holds (P.view peer.old).turns (IsPunctual asked) → Holds (P.view peer.new).turns (IsPunctual asked) }
    ensures writes { HasWritten (P.view peer.old) (P.view peer.new) }
{
    let mut at = 0;
    while at < text.len() {
        let count = peer.write(&text[at..])?;
        if count == 0 {
            return Err(Failed);
        }
        at += count;
    }
    Ok(())
}

/// Writes all of the text and flushes it. If it fails, only the beginning of the text was written.
pub(crate) fn write_flushed<P: Peer>(peer: &mut P, text: &[u8]) -> Result<(), Failed>
    ensures ok { OnOk result (Appends (P.view peer.old).taken (P.view peer.new).taken text.now) }
    ensures err { OnErr result (AppendsPrefix (P.view peer.old).taken (P.view peer.new).taken text.now) }
    ensures cause { OnErr result (Rose (P.view peer.old).write_faults (P.view peer.new).write_faults) }
    ensures said { (asked : FollowOptions) → (lines : List (List ℕ)) → (held before passed : List ℕ) → Holds (P.view peer.old).turns (TurnsSoFar asked lines held before passed)
        → OnOk result (Holds (P.view peer.new).turns (TurnsSoFar asked lines held (before ++ text.now) (before ++ text.now))) }
    ensures punctual { (asked : FollowOptions) → Holds (P.view peer.old).turns (IsPunctual asked) → Holds (P.view peer.new).turns (IsPunctual asked) }
    ensures writes { HasWritten (P.view peer.old) (P.view peer.new) }
{
    write_all(peer, text)?;
    peer.flush()
}
