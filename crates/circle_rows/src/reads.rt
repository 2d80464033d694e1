//! What is asked of a directory in memory besides the facts of commands.
ghost use Rattle.std.specs.Prelude.{◌≡◌, ◌==◌, IfOk, filter, map};
ghost use Rattle.std.specs.Option.{option_copied};
ghost use Rattle.circle.specs.Reads.{person_of_key, person_of, group_of, community_of, members_of, connected_to, communities_of, memberships_in_groups};
ghost use Rattle.circle.specs.Reads.{groups_joined, active_groups_joined, orgs_whose_client, share_community, joins, are_connected, arranged};

use crate::keyed::row_of;
use crate::rows::DirectoryRows;
use circle::directory::{
    Account, Arrangement, Client, Community, Connection, Group, GroupMember, Handling, Membership,
    Org, Person,
};
use std::alloc::{AllocError, Global};

impl DirectoryRows {
    /// Returns the person, active or not, whose key has this SHA-256.
    pub fn person_of_key(&self, key: &[u8; 32]) -> Option<&Person>
        ensures { option_copied result ≡ person_of_key key.now self.now }
    {
        self.sets
            .accounts
            .iter()
            .find(|account| account.key == *key)
            .map(|account| &account.person)
    }

    /// Returns the person with this number.
    pub fn person_of(&self, number: u32) -> Option<&Person>
        ensures { option_copied result ≡ person_of number self.now }
    {
        row_of(self.sets.accounts.as_slice(), (0, number)).map(|account| &account.person)
    }

    /// Returns the group with this number.
    pub fn group_of(&self, number: u32) -> Option<&Group>
        ensures { option_copied result ≡ group_of number self.now }
    {
        row_of(self.sets.groups.as_slice(), (0, number))
    }

    /// Returns the community with this number.
    pub fn community_of(&self, number: u32) -> Option<&Community>
        ensures { option_copied result ≡ community_of number self.now }
    {
        row_of(self.sets.communities.as_slice(), (0, number))
    }

    /// Returns the organisations that are members of the community, by number. Fails if memory runs out.
    pub fn members_of(&self, alloc: Global, community: u32) -> Result<Vec<u32>, AllocError>
        ensures { IfOk result (λ found. found.items ≡ members_of community self.now) }
    {
        self.sets
            .memberships
            .iter()
            .filter(|row| row.community == community)
            .map(|row| row.org)
            .collect(alloc)
    }

    /// Returns the communities that are connected to this one and have a smaller number. Fails if memory runs out.
    fn connected_below(&self, alloc: Global, community: u32) -> Result<Vec<u32>, AllocError>
        ensures { IfOk result (λ found. found.items ≡
            map (λ l. l.low) (filter (λ l. l.high == community) self.now.connections)) }
    {
        self.sets
            .connections
            .iter()
            .filter(|row| row.high == community)
            .map(|row| row.low)
            .collect(alloc)
    }

    /// Returns the communities that are connected to this one and have a greater number. Fails if memory runs out.
    fn connected_above(&self, alloc: Global, community: u32) -> Result<Vec<u32>, AllocError>
        ensures { IfOk result (λ found. found.items ≡
            map (λ l. l.high) (filter (λ l. l.low == community) self.now.connections)) }
    {
        self.sets
            .connections
            .iter()
            .filter(|row| row.low == community)
            .map(|row| row.high)
            .collect(alloc)
    }

    /// Returns the communities that are connected to this one, by number. Fails if memory runs out.
    pub fn connected_to(&self, alloc: Global, community: u32) -> Result<Vec<u32>, AllocError>
        ensures { IfOk result (λ found. found.items ≡ connected_to community self.now) }
    {
        let mut found = self.connected_below(alloc, community)?;
        let above = self.connected_above(alloc, community)?;
        found.extend_from_slice(above.as_slice())?;
        Ok(found)
    }

    /// Returns how the source arranged that the organisation handles the label `default`, if it did.
    pub fn arranged(&self, source: u32, org: u32) -> Option<Handling>
        ensures { result ≡ arranged source org self.now }
    {
        row_of(self.sets.arrangements.as_slice(), (source, org)).map(
            |arrangement| arrangement.handling,
        )
    }

    /// Returns the communities of which the organisation is a member, by number. Fails if memory runs out.
    pub fn communities_of(&self, alloc: Global, org: u32) -> Result<Vec<u32>, AllocError>
        ensures { IfOk result (λ found. found.items ≡ communities_of org self.now) }
    {
        self.sets
            .memberships
            .iter()
            .filter(|row| row.org == org)
            .map(|row| row.community)
            .collect(alloc)
    }

    /// Returns the organisation's rows among the members of groups, by the group's number. Fails if memory runs out.
    pub fn memberships_in_groups(
        &self,
        alloc: Global,
        org: u32,
    ) -> Result<Vec<GroupMember>, AllocError>
        ensures { IfOk result (λ found. found.items ≡ memberships_in_groups org self.now) }
    {
        self.sets
            .group_members
            .iter()
            .filter(|row| row.org == org)
            .copied()
            .collect(alloc)
    }

    /// Returns the groups of which the organisation is a member, by number. Fails if memory runs out.
    pub fn groups_joined(&self, alloc: Global, org: u32) -> Result<Vec<u32>, AllocError>
        ensures { IfOk result (λ found. found.items ≡ groups_joined org self.now) }
    {
        self.sets
            .group_members
            .iter()
            .filter(|row| row.org == org)
            .map(|row| row.group)
            .collect(alloc)
    }

    /// Returns those of these groups that are active. Fails if memory runs out.
    pub fn active_groups_joined(&self, alloc: Global, org: u32) -> Result<Vec<u32>, AllocError>
        ensures { IfOk result (λ found. found.items ≡ active_groups_joined org self.now) }
    {
        let mut groups = self.groups_joined(alloc, org)?;
        groups.retain(|group| self.has_group_being(*group, true));
        Ok(groups)
    }

    /// Returns the organisations whose client this one is, by number. Fails if memory runs out.
    pub fn orgs_whose_client(&self, alloc: Global, client: u32) -> Result<Vec<u32>, AllocError>
        ensures { IfOk result (λ found. found.items ≡ orgs_whose_client client self.now) }
    {
        self.sets
            .clients
            .iter()
            .filter(|row| row.client == client)
            .map(|row| row.org)
            .collect(alloc)
    }

    /// Returns whether both organisations are members of one community.
    pub fn share_community(&self, org: u32, other: u32) -> bool
        ensures { result ≡ share_community org other self.now }
    {
        self.sets
            .memberships
            .iter()
            .filter(|row| row.org == org)
            .map(|row| row.community)
            .any(|community| self.has_membership(community, other))
    }

    /// Returns whether the organisations are in two communities that are connected, one in each.
    pub fn are_connected(&self, org: u32, other: u32) -> bool
        ensures { result ≡ are_connected org other self.now }
    {
        self.sets
            .connections
            .iter()
            .any(|row| self.are_joined(row, org, other))
    }

    /// Returns whether the organisations are in the two communities of the connection, one in each.
    fn are_joined(&self, row: &Connection, org: u32, other: u32) -> bool
        ensures { result ≡ joins org other self.now row.now }
    {
        (self.has_membership(row.low, org) && self.has_membership(row.high, other))
            || (self.has_membership(row.high, org) && self.has_membership(row.low, other))
    }
}

/// The rows of each set.
impl DirectoryRows {
    /// Returns the organisations, by number.
    pub fn orgs(&self) -> &[Org]
        ensures { result.now ≡ self.now.orgs }
    {
        self.sets.orgs.as_slice()
    }

    /// Returns the persons with their keys, by number.
    pub fn accounts(&self) -> &[Account]
        ensures { result.now ≡ self.now.accounts }
    {
        self.sets.accounts.as_slice()
    }

    /// Returns the clients, by organisation and client.
    pub fn clients(&self) -> &[Client]
        ensures { result.now ≡ self.now.clients }
    {
        self.sets.clients.as_slice()
    }

    /// Returns the communities, by number.
    pub fn communities(&self) -> &[Community]
        ensures { result.now ≡ self.now.communities }
    {
        self.sets.communities.as_slice()
    }

    /// Returns the members of communities, by community and organisation.
    pub fn memberships(&self) -> &[Membership]
        ensures { result.now ≡ self.now.memberships }
    {
        self.sets.memberships.as_slice()
    }

    /// Returns the connections, by the smaller and the greater number.
    pub fn connections(&self) -> &[Connection]
        ensures { result.now ≡ self.now.connections }
    {
        self.sets.connections.as_slice()
    }

    /// Returns the groups, by number.
    pub fn groups(&self) -> &[Group]
        ensures { result.now ≡ self.now.groups }
    {
        self.sets.groups.as_slice()
    }

    /// Returns the members of groups, by group and organisation.
    pub fn group_members(&self) -> &[GroupMember]
        ensures { result.now ≡ self.now.group_members }
    {
        self.sets.group_members.as_slice()
    }

    /// Returns the arrangements, by source and organisation.
    pub fn arrangements(&self) -> &[Arrangement]
        ensures { result.now ≡ self.now.arrangements }
    {
        self.sets.arrangements.as_slice()
    }
}
