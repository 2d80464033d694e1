//! The definitions computed on readers, gates and small reports (`specs/Examples.antt`). A wrong definition would show
//! here, with no program between. Each example is the contract of a function that does nothing.
#![tactic(auto, unfolding(crate::proofs::Computed::computed))]

ghost use Rattle.policy.specs.Examples.{StandingsAreCleared, LevelsLetPass, GroupsLetPass, GranteesInclude, ColoursAreForTheCleared, ArrangementsHandleDefault};
ghost use Rattle.policy.specs.Examples.{DeeperGateRefuses, RootGateRefuses, PermissionReachesDown, PermissionEnds, MomentsAreRead, PermissionStopsAtGate};

/// Each standing has its clearance, and the strictest of several applies.
pub fn standings_are_cleared()
    ensures { StandingsAreCleared }
{}

/// Which readers pass a gate of each level without a group.
pub fn levels_let_pass()
    ensures { LevelsLetPass }
{}

/// A gate of a group lets its members pass while the group is active.
pub fn groups_let_pass()
    ensures { GroupsLetPass }
{}

/// Which readers a grantee includes.
pub fn grantees_include()
    ensures { GranteesInclude }
{}

/// Each reader sees the colours for which it is cleared.
pub fn colours_are_for_the_cleared()
    ensures { ColoursAreForTheCleared }
{}

/// `default` is handled as it was arranged.
pub fn arrangements_handle_default()
    ensures { ArrangementsHandleDefault }
{}

/// A gate below the root hides the class where it is, and what is in the class.
pub fn deeper_gate_refuses()
    ensures { DeeperGateRefuses }
{}

/// The root gate refuses a reader who is cleared for everything, and never the source.
pub fn root_gate_refuses()
    ensures { RootGateRefuses }
{}

/// A permission reaches down to the next written label, and not up.
pub fn permission_reaches_down()
    ensures { PermissionReachesDown }
{}

/// A permission with an end covers only before it.
pub fn permission_ends()
    ensures { PermissionEnds }
{}

/// The examples of RFC 3339 section 5.8, and other texts that are or aren't moments.
pub fn moments_are_read()
    ensures { MomentsAreRead }
{}

/// A permission opens no gate.
pub fn permission_stops_at_gate()
    ensures { PermissionStopsAtGate }
{}
