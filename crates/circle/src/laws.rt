//! Laws of the definitions. Each law is the contract of a function that does nothing.
ghost use Rattle.circle.specs.Laws.{EditsAreRows, EmptyIsSound, NewKeysChangeOne, NothingVanishes, OrganisationsKeepApart, OwnersStay, RefusalsLeaveAll};
ghost use Rattle.circle.specs.Laws.{StaysSound, SuspendedStays};
ghost use Rattle.circle.specs.Order.{GroundsAscend};
ghost use Rattle.circle.specs.declared.TheConstants.{ORG_LIMIT, PERSON_LIMIT, COMMUNITY_LIMIT, GROUP_LIMIT, NAME_LIMIT, RELEASABILITY_LIMIT};
ghost use Rattle.std.specs.Prelude.{◌≡◌};

/// A command of a person of a sound directory leaves the directory sound.
pub fn stays_sound()
    ensures { StaysSound }
{}

/// The owner of a group stays a member that may extend it.
pub fn owners_stay()
    ensures { OwnersStay }
{}

/// The directory without a row is sound.
pub fn empty_is_sound()
    ensures { EmptyIsSound }
{}

/// The grounds of each command are in the order of the codes.
pub fn grounds_in_order()
    ensures { GroundsAscend }
{}

/// A refused command changes no row.
pub fn refusals_leave_all()
    ensures { RefusalsLeaveAll }
{}

/// No command of one organisation's person changes the arrangements, nominations or groups of another organisation.
/// One exception: an extend flag lets it put a member into a group.
pub fn organisations_keep_apart()
    ensures { OrganisationsKeepApart }
{}

/// A suspended person stays suspended.
pub fn suspended_stays()
    ensures { SuspendedStays }
{}

/// No organisation, person, community or group goes away.
pub fn nothing_vanishes()
    ensures { NothingVanishes }
{}

/// A new key changes nothing but the key of the actor, of any role.
pub fn new_keys_change_one()
    ensures { NewKeysChangeOne }
{}

/// An edit is the edits of its rows, one after another.
pub fn edits_are_rows()
    ensures { EditsAreRows }
{}

/// The limits of the directory: how many organisations, persons, communities and groups there may be, and how many
/// bytes a name and a releasability may have.
pub fn limits_of_the_circle()
    ensures orgs { ORG_LIMIT ≡ 1000 }
    ensures persons { PERSON_LIMIT ≡ 10000 }
    ensures communities { COMMUNITY_LIMIT ≡ 1000 }
    ensures groups { GROUP_LIMIT ≡ 1000 }
    ensures names { NAME_LIMIT ≡ 128 }
    ensures releasabilities { RELEASABILITY_LIMIT ≡ 512 }
{}
