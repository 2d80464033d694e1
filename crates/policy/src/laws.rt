//! Laws of the policy, for every document, case and reader. Each law is the contract of a function that does nothing.

ghost use Rattle.policy.specs.Laws.{SourceSeesAll, UnrefusedPassesGates, VisiblePassesGates, RefusalIsNearest, PermissionHidesNothing, PermissionOpensNoGate};
ghost use Rattle.policy.specs.Laws.{EndedCountsForNothing, EndlessAtAnyMoment, LaterSeesNoMore, RaisedIsClearedForMore, RaisedSeesNoLess, ClearIsNeverHidden};
ghost use Rattle.policy.specs.Laws.{ClearanceIsStrictest, RootIsAsSaid, ClassIsAsSaid, ArrayIsAsSaid};

/// A reader of the source sees every class.
pub fn source_sees_all()
    ensures { SourceSeesAll }
{}

/// If no gate on a path refuses the reader, the reader passes every gate on it.
pub fn unrefused_passes_gates()
    ensures { UnrefusedPassesGates }
{}

/// Any other reader who sees a class passes every gate on its path.
pub fn visible_passes_gates()
    ensures { VisiblePassesGates }
{}

/// The refusal on a path is that of the refusing gate with the shortest path. If several have that path, it is that of
/// the first in the list.
pub fn refusal_is_nearest()
    ensures { RefusalIsNearest }
{}

/// At one moment, adding a permission never hides a class.
pub fn permission_hides_nothing()
    ensures { PermissionHidesNothing }
{}

/// Adding a permission opens no gate: a gate that refuses a reader still refuses it, by the same rule.
pub fn permission_opens_no_gate()
    ensures { PermissionOpensNoGate }
{}

/// A permission that has ended counts for nothing: the verdict is that of the case without it.
pub fn ended_counts_for_nothing()
    ensures { EndedCountsForNothing }
{}

/// If no permission ends, the verdict is the same at any moment.
pub fn endless_at_any_moment()
    ensures { EndlessAtAnyMoment }
{}

/// As time goes on, no class comes into view.
pub fn later_sees_no_more()
    ensures { LaterSeesNoMore }
{}

/// A reader who is also addressed, nominated, a client or in the community is cleared for no less.
pub fn raised_is_cleared_for_more()
    ensures { RaisedIsClearedForMore }
{}

/// Raising a reader never hides a class.
pub fn raised_sees_no_less()
    ensures { RaisedSeesNoLess }
{}

/// A class that is handled as CLEAR is hidden only by gates.
pub fn clear_is_never_hidden()
    ensures { ClearIsNeverHidden }
{}

/// The clearance is the strictest that any rule gives.
pub fn clearance_is_strictest()
    ensures { ClearanceIsStrictest }
{}

/// What a pass carries one token further down is what the definitions say there: at the root, at a class, and at any
/// other path, such as that of an array.
pub fn steps_are_as_said()
    ensures root { RootIsAsSaid }
    ensures class { ClassIsAsSaid }
    ensures array { ArrayIsAsSaid }
{}
