//! The rows with which a list begins. The requests are made from them, and all shelves get them.

use crate::fault::Fault;
use circle::command::RowEdit;
use circle::directory::{
    Account, Arrangement, Client, Community, Connection, Group, GroupMember, Handling, Membership,
    Org, Person, Role,
};
use circle::name::Name;
use circle::releasability::Releasability;
use circle::text::Text;
use hub_core::{Edit, Gate, Incident, Naming, Permission, Recipient};
use iodef_tree::{Document, Path};
use policy::Grantee;
use std::alloc::{AllocError, Global};

/// How two numbers relate to each other.
#[derive(Clone, Copy, PartialEq, Eq)]
pub enum Relation {
    /// An organisation, and one of its clients.
    Client,
    /// A community, and one of its organisations.
    Member,
    /// Two communities, the smaller number first.
    Link,
    /// A group, and one of its organisations; the value is 1 if it may extend the group.
    GroupMember,
    /// A source, and an organisation; the value is the rank of the handling.
    Arrangement,
}

/// A row of two numbers.
#[derive(Clone, Copy)]
pub struct Pair {
    pub relation: Relation,
    pub a: u32,
    pub b: u32,
    pub value: u32,
}

/// Organisations, persons, communities, groups and incidents are numbered from 1; each is named by its number.
#[derive(Drop)]
pub struct World {
    pub alloc: Global,
    /// How many there are.
    pub orgs: u32,
    pub communities: u32,
    pub accounts: Vec<Account>,
    pub groups: Vec<Group>,
    pub pairs: Vec<Pair>,
    pub incidents: Vec<Incident>,
    pub gates: Vec<Gate>,
    pub recipients: Vec<Recipient>,
    pub permissions: Vec<Permission>,
}

/// New keys are made of numbers below this.
pub const KEYS: u32 = 24;

/// Returns a key for each number.
pub fn key_of(number: u32) -> [u8; 32] {
    let [a, b, c, d] = number.to_be_bytes();
    let mut key = [0u8; 32];
    key[0] = d;
    key[1] = c;
    key[2] = b;
    key[3] = a;
    key
}

/// Returns the handling of a rank, from CLEAR, 0, on; RED above 3.
pub fn handling_of(rank: u32) -> Handling {
    match rank {
        0 => Handling::Clear,
        1 => Handling::Green,
        2 => Handling::Amber,
        3 => Handling::Strict,
        _ => Handling::Red,
    }
}

/// Returns how many there are, as a number of 32 bits.
pub fn count_of<T>(rows: &[T]) -> u32 {
    u32::try_from(rows.len()).unwrap_or(u32::MAX)
}

fn name_of(alloc: Global, kind: &str, number: u32) -> Result<Name, Fault> {
    let text = format!(in alloc; "{kind} {number}")?;
    match Name::of(alloc, text.as_str())? {
        Some(name) => Ok(name),
        None => Err(Fault::Differs("a name that was refused")),
    }
}

/// Returns the document of a body of one Incident, and its IncidentID.
fn document_of(alloc: Global, body: &str) -> Result<(Document, Text), Fault> {
    let Ok(mut documents) = Document::read(alloc, body.as_bytes()) else {
        return Err(Fault::Differs("a body that wasn't read"));
    };
    let Some(document) = documents.pop() else {
        return Err(Fault::Differs("a body without an Incident"));
    };
    match document.incident_id(alloc)? {
        Some(ident) => Ok((document, Text::new(ident))),
        None => Err(Fault::Differs("a document without an IncidentID")),
    }
}

impl Pair {
    fn row(&self) -> RowEdit {
        let Pair {
            relation,
            a,
            b,
            value,
        } = *self;
        match relation {
            Relation::Client => RowEdit::PutClient(Client { org: a, client: b }),
            Relation::Member => RowEdit::PutMembership(Membership {
                community: a,
                org: b,
            }),
            Relation::Link => RowEdit::PutConnection(Connection { low: a, high: b }),
            Relation::GroupMember => RowEdit::PutGroupMember(GroupMember {
                group: a,
                org: b,
                extend: value == 1,
            }),
            Relation::Arrangement => RowEdit::PutArrangement(Arrangement {
                source: a,
                org: b,
                handling: handling_of(value),
            }),
        }
    }
}

fn push_incidents(edits: &mut Vec<Edit>, rows: Vec<Incident>) -> Result<(), AllocError> {
    for row in rows {
        edits.push(Edit::PutIncident(row))?;
    }
    Ok(())
}

fn push_gates(edits: &mut Vec<Edit>, rows: Vec<Gate>) -> Result<(), AllocError> {
    for row in rows {
        edits.push(Edit::PutGate(row))?;
    }
    Ok(())
}

fn push_recipients(edits: &mut Vec<Edit>, rows: &[Recipient]) -> Result<(), AllocError> {
    for row in rows {
        edits.push(Edit::PutRecipient(*row))?;
    }
    Ok(())
}

fn push_permissions(edits: &mut Vec<Edit>, rows: Vec<Permission>) -> Result<(), AllocError> {
    for row in rows {
        edits.push(Edit::PutPermission(row))?;
    }
    Ok(())
}

impl World {
    /// Makes a world without a row. Takes no memory.
    pub fn new(alloc: Global) -> World {
        World {
            alloc,
            orgs: 0,
            communities: 0,
            accounts: Vec::new(alloc),
            groups: Vec::new(alloc),
            pairs: Vec::new(alloc),
            incidents: Vec::new(alloc),
            gates: Vec::new(alloc),
            recipients: Vec::new(alloc),
            permissions: Vec::new(alloc),
        }
    }

    // ---- which rows there are

    /// Returns the incident of this number.
    pub fn incident(&self, number: u32) -> Option<&Incident> {
        self.incidents
            .iter()
            .find(|row| row.naming.number == number)
    }

    /// Returns the paths of the incident's classes, or none if it is missing.
    pub fn classes(&self, incident: u32) -> Result<Vec<Path>, AllocError> {
        match self.incident(incident) {
            Some(row) => row.document.classes(self.alloc),
            None => Ok(Vec::new(self.alloc)),
        }
    }

    /// Returns whether the organisation owns the group.
    pub fn owns(&self, org: u32, group: u32) -> bool {
        self.groups
            .iter()
            .any(|row| row.number == group && row.owner == org)
    }

    /// Returns whether a gate is at this path of the incident.
    pub fn has_gate(&self, incident: u32, path: &Path) -> bool {
        self.gates
            .iter()
            .any(|row| row.incident == incident && row.gate.path == *path)
    }

    /// Returns whether the grantee has a permission at this path of the incident.
    pub fn has_permission(&self, incident: u32, path: &Path, grantee: Grantee) -> bool {
        self.permissions.iter().any(|row| row.incident == incident
            && row.permission.grantee == grantee
            && row.permission.path == *path)
    }

    // ---- one row more

    /// Adds a person with the key of its number.
    pub fn add_person(
        &mut self,
        org: u32,
        role: Role,
        active: bool,
        nominated: bool,
    ) -> Result<(), Fault> {
        let number = count_of(self.accounts.as_slice()).saturating_add(1);
        let person = Person {
            number,
            org,
            name: name_of(self.alloc, "person", number)?,
            role,
            active,
            nominated,
        };
        let key = key_of(number);
        self.accounts.push(Account { person, key })?;
        Ok(())
    }

    /// Adds a group with the next number, of releasability TLP:GREEN.
    pub fn add_group(&mut self, owner: u32, active: bool) -> Result<(), Fault> {
        let number = count_of(self.groups.as_slice()).saturating_add(1);
        let Some(releasability) = Releasability::of(self.alloc, "TLP:GREEN")? else {
            return Err(Fault::Differs("a releasability that was refused"));
        };
        self.groups.push(Group {
            number,
            owner,
            name: name_of(self.alloc, "group", number)?,
            releasability,
            active,
        })?;
        Ok(())
    }

    /// Adds the incident of a body. Returns its number, or none if the source has posted one under the same IncidentID.
    pub fn add_incident(
        &mut self,
        source: u32,
        revision: u32,
        community: Option<u32>,
        body: &str,
    ) -> Result<Option<u32>, Fault> {
        let (document, ident) = document_of(self.alloc, body)?;
        let is_known = self.incidents.iter().any(|row| row.naming.source == source
            && row.naming.ident == ident);
        if is_known {
            return Ok(None);
        }
        let number = count_of(self.incidents.as_slice()).saturating_add(1);
        let naming = Naming {
            number,
            source,
            ident,
            revision,
            community,
        };
        self.incidents.push(Incident { naming, document })?;
        Ok(Some(number))
    }

    /// Adds a gate without a group.
    pub fn add_gate(&mut self, incident: u32, path: Path, level: u8) -> Result<(), AllocError> {
        let gate = policy::Gate {
            path,
            level,
            group: None,
        };
        self.gates.push(Gate { incident, gate })?;
        Ok(())
    }

    /// Adds a permission of the incident.
    pub fn add_permission(
        &mut self,
        incident: u32,
        path: Path,
        grantee: Grantee,
        until: Option<i64>,
    ) -> Result<(), AllocError> {
        let permission = policy::Permission {
            path,
            grantee,
            until,
        };
        self.permissions.push(Permission {
            incident,
            permission,
        })?;
        Ok(())
    }

    // ---- all rows

    fn push_orgs(&self, edits: &mut Vec<Edit>) -> Result<(), Fault> {
        for place in 0..self.orgs {
            let number = place.saturating_add(1);
            let name = name_of(self.alloc, "org", number)?;
            edits.push(Edit::Directory(RowEdit::PutOrg(Org { number, name })))?;
        }
        Ok(())
    }

    fn push_communities(&self, edits: &mut Vec<Edit>) -> Result<(), Fault> {
        for place in 0..self.communities {
            let number = place.saturating_add(1);
            let name = name_of(self.alloc, "community", number)?;
            edits.push(Edit::Directory(RowEdit::PutCommunity(Community { number, name })))?;
        }
        Ok(())
    }

    fn push_accounts(&self, edits: &mut Vec<Edit>) -> Result<(), AllocError> {
        for row in self.accounts.iter() {
            edits.push(Edit::Directory(RowEdit::PutAccount(row.clone()?)))?;
        }
        Ok(())
    }

    fn push_groups(&self, edits: &mut Vec<Edit>) -> Result<(), AllocError> {
        for row in self.groups.iter() {
            edits.push(Edit::Directory(RowEdit::PutGroup(row.clone()?)))?;
        }
        Ok(())
    }

    fn push_directory(&self, edits: &mut Vec<Edit>) -> Result<(), Fault> {
        self.push_orgs(edits)?;
        self.push_communities(edits)?;
        self.push_accounts(edits)?;
        self.push_groups(edits)?;
        for pair in self.pairs.iter() {
            edits.push(Edit::Directory(pair.row()))?;
        }
        Ok(())
    }

    /// Returns the edits that put every row.
    pub fn into_edits(self) -> Result<Vec<Edit>, Fault> {
        let mut edits = Vec::new(self.alloc);
        self.push_directory(&mut edits)?;
        let World {
            incidents,
            gates,
            recipients,
            permissions,
            ..
        } = self;
        push_incidents(&mut edits, incidents)?;
        push_gates(&mut edits, gates)?;
        push_recipients(&mut edits, &recipients)?;
        push_permissions(&mut edits, permissions)?;
        Ok(edits)
    }
}
