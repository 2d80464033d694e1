//! Whether a directory in memory has a row.
ghost use Rattle.std.specs.Prelude.{◌≡◌, ◌==◌, not};
ghost use Rattle.std.specs.List.{list_any};
ghost use Rattle.circle.specs.Directory.{has_org, has_org_named, has_person, has_key, has_suspended, has_nominated, has_person_of, has_client, has_community};
ghost use Rattle.circle.specs.Directory.{has_community_named, has_membership, has_connection, has_group, has_group_named, has_group_of, has_group_being};
ghost use Rattle.circle.specs.Directory.{has_group_member, has_extender, has_arrangement, same_flag};

use crate::keyed::{has_row, rows_of_key};
use crate::rows::DirectoryRows;
use circle::directory::{Account, Group, GroupMember};

impl DirectoryRows {
    /// Returns whether there is an organisation with this number.
    pub fn has_org(&self, number: u32) -> bool
        ensures { result ≡ has_org number self.now }
    {
        has_row(self.sets.orgs.as_slice(), (0, number))
    }

    /// Returns whether there is an organisation with this name.
    pub fn has_org_named(&self, name: &str) -> bool
        ensures { result ≡ has_org_named name.now self.now }
    {
        self.sets.orgs.iter().any(|org| org.name.as_str() == name)
    }

    /// Returns whether there is a person with this number.
    pub fn has_person(&self, number: u32) -> bool
        ensures { result ≡ has_person number self.now }
    {
        has_row(self.sets.accounts.as_slice(), (0, number))
    }

    /// Returns whether a person, suspended or not, has the key with this SHA-256.
    pub fn has_key(&self, key: &[u8; 32]) -> bool
        ensures { result ≡ has_key key.now self.now }
    {
        self.sets.accounts.iter().any(|account| account.key == *key)
    }

    /// Returns whether the person is there and is suspended.
    pub fn has_suspended(&self, number: u32) -> bool
        ensures { result ≡ has_suspended number self.now }
    {
        is_any_suspended(rows_of_key(self.sets.accounts.as_slice(), (0, number)))
    }

    /// Returns whether the person is there and is nominated.
    pub fn has_nominated(&self, number: u32) -> bool
        ensures { result ≡ has_nominated number self.now }
    {
        is_any_nominated(rows_of_key(self.sets.accounts.as_slice(), (0, number)))
    }

    /// Returns whether the person is there and is of the organisation.
    pub fn has_person_of(&self, number: u32, org: u32) -> bool
        ensures { result ≡ has_person_of number org self.now }
    {
        is_any_of(rows_of_key(self.sets.accounts.as_slice(), (0, number)), org)
    }

    /// Returns whether the first organisation has the second as a client.
    pub fn has_client(&self, org: u32, client: u32) -> bool
        ensures { result ≡ has_client org client self.now }
    {
        has_row(self.sets.clients.as_slice(), (org, client))
    }

    /// Returns whether there is a community with this number.
    pub fn has_community(&self, number: u32) -> bool
        ensures { result ≡ has_community number self.now }
    {
        has_row(self.sets.communities.as_slice(), (0, number))
    }

    /// Returns whether there is a community with this name.
    pub fn has_community_named(&self, name: &str) -> bool
        ensures { result ≡ has_community_named name.now self.now }
    {
        self.sets
            .communities
            .iter()
            .any(|community| community.name.as_str() == name)
    }

    /// Returns whether the organisation is a member of the community.
    pub fn has_membership(&self, community: u32, org: u32) -> bool
        ensures { result ≡ has_membership community org self.now }
    {
        has_row(self.sets.memberships.as_slice(), (community, org))
    }

    /// Returns whether the two communities are connected. The smaller number comes first.
    pub fn has_connection(&self, low: u32, high: u32) -> bool
        ensures { result ≡ has_connection low high self.now }
    {
        has_row(self.sets.connections.as_slice(), (low, high))
    }

    /// Returns whether there is a group with this number.
    pub fn has_group(&self, number: u32) -> bool
        ensures { result ≡ has_group number self.now }
    {
        has_row(self.sets.groups.as_slice(), (0, number))
    }

    /// Returns whether the organisation owns a group with this name.
    pub fn has_group_named(&self, owner: u32, name: &str) -> bool
        ensures { result ≡ has_group_named owner name.now self.now }
    {
        self.sets.groups.iter().any(|group| group.owner == owner && group.name.as_str() == name)
    }

    /// Returns whether the organisation owns the group.
    pub fn has_group_of(&self, number: u32, owner: u32) -> bool
        ensures { result ≡ has_group_of number owner self.now }
    {
        is_any_owned(rows_of_key(self.sets.groups.as_slice(), (0, number)), owner)
    }

    /// Returns whether the group is there and its flag has this value.
    pub fn has_group_being(&self, number: u32, active: bool) -> bool
        ensures { result ≡ has_group_being number active self.now }
    {
        is_any_being(
            rows_of_key(self.sets.groups.as_slice(), (0, number)),
            active,
        )
    }

    /// Returns whether the organisation is a member of the group.
    pub fn has_group_member(&self, group: u32, org: u32) -> bool
        ensures { result ≡ has_group_member group org self.now }
    {
        has_row(self.sets.group_members.as_slice(), (group, org))
    }

    /// Returns whether the organisation is a member of the group that may extend it.
    pub fn has_extender(&self, group: u32, org: u32) -> bool
        ensures { result ≡ has_extender group org self.now }
    {
        may_any_extend(rows_of_key(self.sets.group_members.as_slice(), (group, org)))
    }

    /// Returns whether the source arranged something with the organisation.
    pub fn has_arrangement(&self, source: u32, org: u32) -> bool
        ensures { result ≡ has_arrangement source org self.now }
    {
        has_row(self.sets.arrangements.as_slice(), (source, org))
    }
}

/// Returns whether one of the persons is suspended.
fn is_any_suspended(rows: &[Account]) -> bool
    ensures { result ≡ list_any (λ a. not a.person.active) rows.now }
{
    rows.iter().any(|account| !account.person.active)
}

/// Returns whether one of the persons is nominated.
fn is_any_nominated(rows: &[Account]) -> bool
    ensures { result ≡ list_any (λ a. a.person.nominated) rows.now }
{
    rows.iter().any(|account| account.person.nominated)
}

/// Returns whether one of the persons is of the organisation.
fn is_any_of(rows: &[Account], org: u32) -> bool
    ensures { result ≡ list_any (λ a. a.person.org == org) rows.now }
{
    rows.iter().any(|account| account.person.org == org)
}

/// Returns whether the organisation owns one of the groups.
fn is_any_owned(rows: &[Group], owner: u32) -> bool
    ensures { result ≡ list_any (λ g. g.owner == owner) rows.now }
{
    rows.iter().any(|group| group.owner == owner)
}

/// Returns whether the flag of one of the groups has this value.
fn is_any_being(rows: &[Group], active: bool) -> bool
    ensures { result ≡ list_any (λ g. same_flag active g.active) rows.now }
{
    rows.iter().any(|group| group.active == active)
}

/// Returns whether one of the members may extend its group.
fn may_any_extend(rows: &[GroupMember]) -> bool
    ensures { result ≡ list_any (λ m. m.extend) rows.now }
{
    rows.iter().any(|member| member.extend)
}
