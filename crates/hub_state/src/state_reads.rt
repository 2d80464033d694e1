//! What is read of the rows in memory.
ghost use Rattle.std.specs.Prelude.{◌≡◌, IfOk};
ghost use Rattle.std.specs.Option.{option_copied};
ghost use Rattle.circle.specs.Reads.{person_of};
ghost use Rattle.hub_state.specs.Reads.{case_of, joined, joined_community, naming_of, reader_of, reader_with, sharing_of, ties_of};
ghost use Rattle.hub_state.specs.Reads as spec;

use crate::look_ups::{Reader, Shared, Ties};
use crate::reply::{JoinedCommunity, JoinedGroup};
use crate::state::Naming;
use crate::state_rows::StateRows;
use circle::directory::{Community, Group, GroupMember, Person};
use policy::{Case, Numbers};
use std::alloc::AllocError;

impl StateRows {
    /// Returns the person with this key (its SHA-256), active or suspended. None if it is missing. Fails if the memory doesn't suffice.
    pub fn find_person(&self, key: &[u8; 32]) -> Result<Option<Person>, AllocError>
        ensures { IfOk result (λ found. found ≡ spec.person_by_key key.now self.now) }
    {
        copy_of(self.directory().person_of_key(key))
    }

    /// Returns the person with this number, active or not. None if it is missing. Fails if the memory doesn't suffice.
    pub fn find_person_of(&self, number: u32) -> Result<Option<Person>, AllocError>
        ensures { IfOk result (λ found. found ≡ person_of number self.now.directory) }
    {
        copy_of(self.directory().person_of(number))
    }

    fn reader_with(&self, person: Person) -> Result<Reader, AllocError>
        ensures { IfOk result (λ found. found ≡ reader_with self.now person) }
    {
        let directory = self.directory();
        let alloc = self.alloc();
        let served = Numbers::new(directory.orgs_whose_client(alloc, person.org)?);
        let groups = Numbers::new(directory.groups_joined(alloc, person.org)?);
        let active_groups = Numbers::new(directory.active_groups_joined(alloc, person.org)?);
        let communities = Numbers::new(directory.communities_of(alloc, person.org)?);
        Ok(Reader {
            person,
            served,
            groups,
            active_groups,
            communities,
        })
    }

    /// Returns the part of a standing that doesn't depend on the incident, for the person with this number. None if it is missing. Fails if the memory doesn't suffice.
    pub fn find_reader(&self, person: u32) -> Result<Option<Reader>, AllocError>
        ensures { IfOk result (λ found. found ≡ reader_of person self.now) }
    {
        match self.find_person_of(person)? {
            None => Ok(None),
            Some(person) => Ok(Some(self.reader_with(person)?)),
        }
    }

    /// Returns how an organisation stands to a source, and to a community if one is named.
    pub fn ties(&self, org: u32, source: u32, named: Option<u32>) -> Ties
        ensures { result ≡ ties_of org source named self.now }
    {
        let directory = self.directory();
        let community = directory.share_community(org, source);
        let peer = match named {
            None => community,
            Some(named) => directory.has_membership(named, org),
        };
        Ties {
            community,
            peer,
            connected: directory.are_connected(org, source),
            arrangement: directory.arranged(source, org),
        }
    }

    /// Returns the naming and the recipients of an incident. None if it is missing. Fails if the memory doesn't suffice.
    pub fn find_shared(&self, incident: u32) -> Result<Option<Shared>, AllocError>
        ensures { IfOk result (λ found. found ≡ sharing_of incident self.now) }
    {
        match self.find_naming(incident)? {
            None => Ok(None),
            Some(naming) => {
                let recipients = self.copied_recipients(naming.number)?;
                Ok(Some(Shared { naming, recipients }))
            }
        }
    }

    /// Returns the case of an incident: what it is judged by. None if it is missing. Fails if the memory doesn't suffice.
    pub fn find_case(&self, incident: u32) -> Result<Option<Case>, AllocError>
        ensures { IfOk result (λ found. found ≡ case_of incident self.now) }
    {
        match self.incident(incident) {
            None => Ok(None),
            Some(incident) => Ok(Some(Case {
                source: incident.naming.source,
                community: incident.naming.community,
                gates: self.case_gates(incident.naming.number)?,
                permissions: self.case_permissions(incident.naming.number)?,
            })),
        }
    }

    /// Returns the naming of an incident: all that it is known by, without its document. None if it is missing. Fails if the memory doesn't suffice.
    pub fn find_naming(&self, incident: u32) -> Result<Option<Naming>, AllocError>
        ensures { IfOk result (λ found. found ≡ naming_of incident self.now) }
    {
        match self.incident(incident) {
            None => Ok(None),
            Some(incident) => Ok(Some(incident.naming.clone()?)),
        }
    }

    /// Returns the naming of an incident where it lies. None if it is missing.
    pub fn naming_at(&self, incident: u32) -> Option<&Naming>
        ensures { option_copied result ≡ naming_of incident self.now }
    {
        match self.incident(incident) {
            None => None,
            Some(incident) => Some(&incident.naming),
        }
    }

    /// Returns the groups of which the person's organisation is a member, in the order of their numbers. Fails if the memory doesn't suffice.
    pub fn joined_groups(&self, person: &Person) -> Result<Vec<JoinedGroup>, AllocError>
        ensures { IfOk result (λ found. found.items ≡ spec.groups_of person.now self.now) }
    {
        let members = self
            .directory()
            .memberships_in_groups(self.alloc(), person.org)?;
        let mut groups = Vec::with_capacity(self.alloc(), members.len())?;
        for member in &members {
            if let Some(group) = self.directory().group_of(member.group) {
                groups.push(joined_group(member, group)?)?;
            }
        }
        Ok(groups)
    }

    fn joined_community(&self, community: &Community) -> Result<JoinedCommunity, AllocError>
        ensures { IfOk result (λ row. row ≡ joined_community self.now.directory community.now) }
    {
        let directory = self.directory();
        let alloc = self.alloc();
        let name = community.name.clone()?;
        let members = Numbers::new(directory.members_of(alloc, community.number)?);
        let connected = Numbers::new(directory.connected_to(alloc, community.number)?);
        Ok(JoinedCommunity {
            number: community.number,
            name,
            members,
            connected,
        })
    }

    /// Returns the communities of which the person's organisation is a member, in the order of their numbers. Fails if the memory doesn't suffice.
    pub fn joined_communities(&self, person: &Person) -> Result<Vec<JoinedCommunity>, AllocError>
        ensures { IfOk result (λ found. found.items ≡ spec.joined_communities person.now self.now) }
    {
        let numbers = self.directory().communities_of(self.alloc(), person.org)?;
        let mut communities = Vec::with_capacity(self.alloc(), numbers.len())?;
        for number in &numbers {
            if let Some(community) = self.directory().community_of(*number) {
                communities.push(self.joined_community(community)?)?;
            }
        }
        Ok(communities)
    }
}

fn copy_of(person: Option<&Person>) -> Result<Option<Person>, AllocError>
    ensures { IfOk result (λ found. found ≡ option_copied person.entry) }
{
    match person {
        None => Ok(None),
        Some(person) => Ok(Some(person.clone()?)),
    }
}

fn joined_group(member: &GroupMember, group: &Group) -> Result<JoinedGroup, AllocError>
    ensures { IfOk result (λ row. row ≡ joined member.now group.now) }
{
    Ok(JoinedGroup {
        number: group.number,
        owner: group.owner,
        name: group.name.clone()?,
        releasability: group.releasability.clone()?,
        active: group.active,
        extend: member.extend,
    })
}
