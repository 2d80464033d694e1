//! The definitions computed on a small circle and on requests in it, which `specs/Examples.antt` has. A wrong
//! definition would show here without a program between. Each is the contract of a function that does nothing.
#![tactic(auto, unfolding(crate::proofs::Computed::computed))]

ghost use Rattle.hub_core.specs.Examples.{StandingsAreFound, PeersAreFound, ReaderPostsNothing, FirstPostIsFirst, PostsAreRefused, GrantsAreRefused};
ghost use Rattle.hub_core.specs.Examples.{PermissionsAreExchanged, GatesAreRefused, OthersAreNotThere, PermissionsAreWithdrawn, ReplaceTakesPermissionsOut};
ghost use Rattle.hub_core.specs.Examples.{CommunitiesAreNamed, CoordinatorsKeepToTheirs};

/// How persons stand to an incident, by the rows of the circle.
pub fn standings_are_found()
    ensures { StandingsAreFound }
{}

/// Who is a peer of an incident: a member of the community that it names, or of one that its source is in.
pub fn peers_are_found()
    ensures { PeersAreFound }
{}

/// A reader posts nothing and grants nothing.
pub fn reader_posts_nothing()
    ensures { ReaderPostsNothing }
{}

/// The incident that the first Post puts, read from its bytes.
pub fn first_post_is_first()
    ensures { FirstPostIsFirst }
{}

/// The refusal of a Post, by the fault of its body.
pub fn posts_are_refused()
    ensures { PostsAreRefused }
{}

/// The refusals of Grants, and one that is accepted.
pub fn grants_are_refused()
    ensures { GrantsAreRefused }
{}

/// A permission in place of one with another end.
pub fn permissions_are_exchanged()
    ensures { PermissionsAreExchanged }
{}

/// The refusals of Redistributes, and one that is accepted.
pub fn gates_are_refused()
    ensures { GatesAreRefused }
{}

/// Another organisation's incident is refused like a missing one.
pub fn others_are_not_there()
    ensures { OthersAreNotThere }
{}

/// A Withdraw takes the permission out whatever its end, and no other.
pub fn permissions_are_withdrawn()
    ensures { PermissionsAreWithdrawn }
{}

/// A Replace that is accepted, and those that are refused.
pub fn replace_takes_permissions_out()
    ensures { ReplaceTakesPermissionsOut }
{}

/// Only members name a community, and each Replace names it anew.
pub fn communities_are_named()
    ensures { CommunitiesAreNamed }
{}

/// Coordinators nominate their own persons, and arrange once.
pub fn coordinators_keep_to_theirs()
    ensures { CoordinatorsKeepToTheirs }
{}
