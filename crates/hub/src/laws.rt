//! Laws of the definitions, each the contract of a function that does nothing.
ghost use Rattle.hub.specs.Alike.{AlikeIsAnsweredAlike, EndedPermissionsAreNotFelt, OthersEndedPermissionsAreNotFelt};
ghost use Rattle.hub.specs.Laws.{NewKeysReplaceOld, OnlySourcesAreToldSharing, RunsStaySound, ShownIsServed, UnmadeLeavesAll};
ghost use Rattle.hub.specs.declared.TheConstants.{PAGE_LIMIT};
ghost use Rattle.std.specs.Prelude.{◌≡◌};

/// A run from a sound state ends in a sound state.
pub fn runs_stay_sound()
    ensures { RunsStaySound }
{}

/// In two worlds that are alike for a person, the same reply is due to it at the same moment.
pub fn alike_is_answered_alike()
    ensures { AlikeIsAnsweredAlike }
{}

/// In two sound states that differ only in permissions that have ended, the same reply is due to each person, also to
/// their grantees.
pub fn ended_permissions_are_not_felt()
    ensures { EndedPermissionsAreNotFelt }
{}

/// In two sound states that differ only in permissions at others' reports that have ended, the same reply is due to
/// each person, also to how an own report is shared.
pub fn others_ended_permissions_are_not_felt()
    ensures { OthersEndedPermissionsAreNotFelt }
{}

/// How an incident is shared is told only to persons of its source. Everybody else gets the reply for a missing one.
pub fn only_sources_are_told_sharing()
    ensures { OnlySourcesAreToldSharing }
{}

/// After a new key is made, it is the caller's, and the old one is nobody's.
pub fn new_keys_replace_old()
    ensures { NewKeysReplaceOld }
{}

/// A step whose reply isn't a change that was made leaves the state as it was, so each refusal does.
pub fn unmade_leaves_all()
    ensures { UnmadeLeavesAll }
{}

/// Explain shows a class exactly if View serves it to the same person, in one state and at one moment.
pub fn shown_is_served()
    ensures { ShownIsServed }
{}

/// The number of incidents that a page lists at most.
pub fn limit_of_a_page()
    ensures { PAGE_LIMIT ≡ 100 }
{}
