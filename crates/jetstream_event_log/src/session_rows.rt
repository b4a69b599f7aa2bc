//! What is proved of a table that stopped and went on.
ghost use Rattle.std.specs.Prelude.{ℕ, List};
ghost use Rattle.js_event_log_sessions.specs.declared.session.Session.{Session};
ghost use Rattle.js_ordered_table.specs.Gapless.{Logged, Server};
ghost use Rattle.js_store_keys.specs.declared.entry.Entry.{Entry};
ghost use Rattle.js_store_table.specs.TableRows.{KeyRows};
ghost use Rattle.jetstream_event_log.specs.SessionRows.{HasSessionsRows};

use js_store_table::rows_are_those_of_the_log;

/// Proves that the rows of a table that stopped and went on are those of its bucket's log, from the
/// first start up to the last change that was committed, as if it had never stopped.
///
/// Each session reads from the bookmark of the one before it, and a change is committed once the rows
/// that have it are kept with their bookmark (`next_sequence`). The premise is that the committed
/// yields of all sessions leave no gap, which [`run_sessions`](crate::bookmark::run_sessions) proves
/// of honest servers of one log, and that each message that was removed in the end was overtaken, as
/// for [`rows_are_those_of_the_log`]. Does nothing when called.
pub fn rows_over_sessions_are_those_of_the_log()
    ensures { (log : List Logged) (servers : List Server) (next : ℕ) (first : Session) (others : List Session) (history : ℕ) (rows : KeyRows) (told : List Entry) → HasSessionsRows log servers next first others history rows told }
{
    rows_are_those_of_the_log();
}
