//! Two small runs of honest servers: what `project` proves about the log, and why it needs its
//! premise.

ghost use Rattle.std.specs.Prelude.{[], ◌∷◌, codes};
ghost use Rattle.js_event_log.specs.WorkedRuns as worked;

/// Proves that the premises and the conclusion of the clause `log` of [`project`](crate::project)
/// hold of a small run: sequence 2 was removed, and sequence 3 has its subject. In a second run
/// sequence 2 has a subject of its own. The server is as honest and the run is the same, but the
/// log's table has one row more: the premise is needed. Does nothing when called.
pub fn worked_tables()
    ensures overtaken { worked.IsTheLogs worked.overtaken worked.from_one worked.two_messages 1 3
        (worked.entry 3 (codes "a.x") (codes "3") ∷ []) }
    ensures left_behind { worked.IsAnother worked.left_behind worked.from_one worked.two_messages 1 3
        (worked.entry 3 (codes "a.x") (codes "3") ∷ [])
        (worked.entry 3 (codes "a.x") (codes "3") ∷ worked.entry 2 (codes "a.y") (codes "2") ∷ []) }
{}
