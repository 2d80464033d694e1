//! A plain program's directory: rows in the order in which they came. It answers each question by going over all rows.
use circle::directory::{
    Account, Arrangement, Client, Community, Connection, Group, GroupMember, Membership, Org,
};
use circle::text::Text;
use circle_rows::DirectoryRows;
use std::alloc::Global;

/// The rows of a directory, in the order in which they came.
#[derive(Drop)]
pub struct World {
    pub orgs: Vec<Org>,
    pub accounts: Vec<Account>,
    pub clients: Vec<Client>,
    pub communities: Vec<Community>,
    pub memberships: Vec<Membership>,
    pub connections: Vec<Connection>,
    pub groups: Vec<Group>,
    pub members: Vec<GroupMember>,
    pub arrangements: Vec<Arrangement>,
}

fn same_rows<T: PartialEq>(one: &[T], other: &[T]) -> bool {
    one.len() == other.len() && one.iter().all(|row| other.contains(row))
}

impl World {
    pub fn new(alloc: Global) -> World {
        World {
            orgs: Vec::new(alloc),
            accounts: Vec::new(alloc),
            clients: Vec::new(alloc),
            communities: Vec::new(alloc),
            memberships: Vec::new(alloc),
            connections: Vec::new(alloc),
            groups: Vec::new(alloc),
            members: Vec::new(alloc),
            arrangements: Vec::new(alloc),
        }
    }

    /// Returns whether the directory in memory has the same rows.
    pub fn is_same(&self, other: &DirectoryRows) -> bool {
        same_rows(self.orgs.as_slice(), other.orgs())
            && same_rows(self.accounts.as_slice(), other.accounts())
            && same_rows(self.clients.as_slice(), other.clients())
            && same_rows(self.communities.as_slice(), other.communities())
            && same_rows(self.memberships.as_slice(), other.memberships())
            && same_rows(self.connections.as_slice(), other.connections())
            && same_rows(self.groups.as_slice(), other.groups())
            && same_rows(self.members.as_slice(), other.group_members())
            && same_rows(self.arrangements.as_slice(), other.arrangements())
    }

    // ---- whether there is such a row

    pub fn has_org(&self, n: u32) -> bool {
        self.orgs.iter().any(|o| o.number == n)
    }

    pub fn has_community(&self, n: u32) -> bool {
        self.communities.iter().any(|c| c.number == n)
    }

    pub fn has_person(&self, n: u32) -> bool {
        self.accounts.iter().any(|a| a.person.number == n)
    }

    pub fn has_orgs(&self, one: u32, other: u32) -> bool {
        self.has_org(one) && self.has_org(other)
    }

    pub fn has_communities(&self, one: u32, other: u32) -> bool {
        self.has_community(one) && self.has_community(other)
    }

    pub fn has_both(&self, community: u32, org: u32) -> bool {
        self.has_community(community) && self.has_org(org)
    }

    /// Returns whether the organisation is a member of the group and the one that it names exists.
    pub fn sees_in(&self, member: u32, group: u32, org: u32) -> bool {
        self.has_member(group, member) && self.has_org(org)
    }

    pub fn is_person_of(&self, person: u32, org: u32) -> bool {
        self.accounts
            .iter()
            .any(|a| a.person.number == person && a.person.org == org)
    }

    pub fn is_suspended(&self, n: u32) -> bool {
        self.accounts
            .iter()
            .any(|a| a.person.number == n && !a.person.active)
    }

    pub fn is_nominated(&self, n: u32) -> bool {
        self.accounts
            .iter()
            .any(|a| a.person.number == n && a.person.nominated)
    }

    pub fn has_client(&self, org: u32, client: u32) -> bool {
        self.clients.contains(&Client { org, client })
    }

    pub fn has_membership(&self, community: u32, org: u32) -> bool {
        self.memberships.contains(&Membership { community, org })
    }

    /// Returns whether they are connected, named in either order.
    pub fn are_connected(&self, one: u32, other: u32) -> bool {
        self.connections.contains(&Connection {
            low: one,
            high: other,
        }) || self.connections.contains(&Connection {
            low: other,
            high: one,
        })
    }

    pub fn owns(&self, org: u32, group: u32) -> bool {
        self.groups
            .iter()
            .any(|g| g.number == group && g.owner == org)
    }

    pub fn has_org_named(&self, name: &Text) -> bool {
        self.orgs.iter().any(|o| o.name.as_str() == name.as_str())
    }

    pub fn has_community_named(&self, name: &Text) -> bool {
        self.communities
            .iter()
            .any(|c| c.name.as_str() == name.as_str())
    }

    pub fn has_key(&self, key: &[u8; 32]) -> bool {
        self.accounts.iter().any(|a| a.key == *key)
    }

    pub fn has_group_named(&self, owner: u32, name: &Text) -> bool {
        self.groups
            .iter()
            .any(|g| g.owner == owner && g.name.as_str() == name.as_str())
    }

    pub fn is_switched(&self, group: u32, active: bool) -> bool {
        self.groups
            .iter()
            .any(|g| g.number == group && g.active == active)
    }

    pub fn has_member(&self, group: u32, org: u32) -> bool {
        self.may_extend(group, org)
            || self.members.contains(&GroupMember {
                group,
                org,
                extend: false,
            })
    }

    pub fn may_extend(&self, group: u32, org: u32) -> bool {
        self.members.contains(&GroupMember {
            group,
            org,
            extend: true,
        })
    }

    pub fn has_arrangement(&self, source: u32, org: u32) -> bool {
        self.arrangements
            .iter()
            .any(|a| a.source == source && a.org == org)
    }
}
