//! Worked runs of honest servers.
ghost use Rattle.std.specs.Prelude.{[], ◌∷◌};
ghost use Rattle.js_ordered_table.specs.Worked as worked;

/// States that worked runs meet the premises and the conclusion of the theorem on gaps. The runs
/// show messages in order, a gap with its recreation, a push consumer that holds an arrival, a
/// sequence that was removed, and a filter with a configured start. This is a law; calling it does
/// nothing.
pub fn worked_runs_leave_no_gap()
    ensures in_order { worked.LeavesNoGap worked.server_in_order worked.by_pull worked.in_order (1 ∷ 2 ∷ []) }
    ensures gap { worked.LeavesNoGap worked.server_gap worked.by_pull worked.gap (1 ∷ 2 ∷ []) }
    ensures held { worked.LeavesNoGap worked.server_held worked.by_push worked.held (1 ∷ 2 ∷ []) }
    ensures removed { worked.LeavesNoGap worked.server_removed worked.by_pull worked.removed (1 ∷ 2 ∷ 4 ∷ []) }
    ensures filtered { worked.LeavesNoGap worked.server_filtered worked.by_filter worked.filtered (3 ∷ 5 ∷ []) }
{}
