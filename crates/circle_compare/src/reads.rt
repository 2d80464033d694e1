//! The questions to a directory beside its commands, by the plain program.
use crate::rows::World;
use circle::directory::{Community, Group, GroupMember, Handling, Person};
use circle_rows::DirectoryRows;
use std::alloc::{AllocError, Global};

impl World {
    fn person_of_key(&self, key: &[u8; 32]) -> Option<&Person> {
        for row in self.accounts.iter() {
            if row.key == *key {
                return Some(&row.person);
            }
        }
        None
    }

    fn person_of(&self, number: u32) -> Option<&Person> {
        for row in self.accounts.iter() {
            if row.person.number == number {
                return Some(&row.person);
            }
        }
        None
    }

    fn group_of(&self, number: u32) -> Option<&Group> {
        for row in self.groups.iter() {
            if row.number == number {
                return Some(row);
            }
        }
        None
    }

    fn community_of(&self, number: u32) -> Option<&Community> {
        for row in self.communities.iter() {
            if row.number == number {
                return Some(row);
            }
        }
        None
    }

    fn arranged(&self, source: u32, org: u32) -> Option<Handling> {
        for row in self.arrangements.iter() {
            if row.source == source && row.org == org {
                return Some(row.handling);
            }
        }
        None
    }

    fn share_community(&self, org: u32, other: u32) -> bool {
        for row in self.communities.iter() {
            if self.has_membership(row.number, org) && self.has_membership(row.number, other) {
                return true;
            }
        }
        false
    }

    /// Returns whether two different communities, one of each organisation, are connected.
    fn has_connected(&self, org: u32, other: u32) -> bool {
        for one in self.memberships.iter() {
            for two in self.memberships.iter() {
                if one.org == org
                    && two.org == other
                    && self.are_connected(one.community, two.community)
                {
                    return true;
                }
            }
        }
        false
    }

    /// Returns the communities, groups, active groups or sponsors of an organisation, or the members of a community or
    /// those connected to it, by number.
    fn related(&self, alloc: Global, kind: u32, org: u32) -> Result<Vec<u32>, AllocError> {
        let mut found = Vec::new(alloc);
        for number in 0..32u32 {
            let is_one = match kind {
                0 => self.has_membership(number, org),
                4 => self.has_membership(org, number),
                5 => self.are_connected(org, number),
                1 => self.has_member(number, org),
                2 => self.has_member(number, org) && self.is_switched(number, true),
                _ => self.has_client(number, org),
            };
            if is_one {
                found.push(number)?;
            }
        }
        Ok(found)
    }
}

/// Returns whether both give the same answers for two organisations.
fn agree_on_pair(rows: &DirectoryRows, plain: &World, org: u32, other: u32) -> bool {
    rows.share_community(org, other) == plain.share_community(org, other)
        && rows.are_connected(org, other) == plain.has_connected(org, other)
        && rows.arranged(org, other) == plain.arranged(org, other)
        && rows.has_group_member(org, other) == plain.has_member(org, other)
        && rows.has_membership(org, other) == plain.has_membership(org, other)
        && rows.has_client(org, other) == plain.has_client(org, other)
}

/// Returns whether the organisation's rows among the groups' members are those of its groups.
fn is_member_of(plain: &World, rows: &[GroupMember], org: u32, groups: &[u32]) -> bool {
    rows.len() == groups.len()
        && rows.iter().all(|row| row.org == org
            && groups.contains(&row.group)
            && plain.may_extend(row.group, org) == row.extend)
}

/// Returns whether both give the same answers about the groups of an organisation.
fn agree_on_groups(
    alloc: Global,
    rows: &DirectoryRows,
    plain: &World,
    org: u32,
) -> Result<bool, AllocError> {
    let groups = plain.related(alloc, 1, org)?;
    let members = rows.memberships_in_groups(alloc, org)?;
    Ok(
        is_member_of(plain, members.as_slice(), org, groups.as_slice())
            && rows.groups_joined(alloc, org)? == groups,
    )
}

/// Returns whether both give the same answers about the other rows of an organisation or a community.
fn agree_on_related(
    alloc: Global,
    rows: &DirectoryRows,
    plain: &World,
    kind: u32,
    org: u32,
) -> Result<bool, AllocError> {
    let numbers = match kind {
        0 => rows.communities_of(alloc, org)?,
        4 => rows.members_of(alloc, org)?,
        5 => rows.connected_to(alloc, org)?,
        2 => rows.active_groups_joined(alloc, org)?,
        _ => rows.orgs_whose_client(alloc, org)?,
    };
    Ok(numbers == plain.related(alloc, kind, org)?)
}

/// Returns whether both give the same answers for an organisation, or for the person or the group of its number.
fn agree_on_number(
    alloc: Global,
    rows: &DirectoryRows,
    plain: &World,
    number: u32,
) -> Result<bool, AllocError> {
    for kind in [0, 2, 3, 4, 5] {
        if !agree_on_related(alloc, rows, plain, kind, number)? {
            return Ok(false);
        }
    }
    Ok(
        agree_on_groups(alloc, rows, plain, number)?
            && rows.person_of(number) == plain.person_of(number)
            && rows.group_of(number) == plain.group_of(number)
            && rows.community_of(number) == plain.community_of(number),
    )
}

/// Returns whether the directory in memory and the plain program give the same answers.
pub fn agree_on_reads(
    alloc: Global,
    rows: &DirectoryRows,
    plain: &World,
) -> Result<bool, AllocError> {
    for number in 0..10u32 {
        if !agree_on_number(alloc, rows, plain, number)? {
            return Ok(false);
        }
        for other in 0..8u32 {
            if !agree_on_pair(rows, plain, number, other) {
                return Ok(false);
            }
        }
    }
    for key in 0..=255u8 {
        if rows.person_of_key(&[key; 32]) != plain.person_of_key(&[key; 32]) {
            return Ok(false);
        }
    }
    Ok(true)
}
