//! The edits that make a world.

use crate::fault::Fault;
use crate::rows::{COMMUNITIES, Circle, Club, Member, ORGS, Reach, Report, World, number_at};
use crate::writing::text_of;
use circle::command::RowEdit;
use circle::directory::{Account, Community, Group, Org, Person};
use circle::name::Name;
use circle::releasability::Releasability;
use circle::text::Text;
use hub_core::{Edit, Gate, Incident, Naming, Permission, Recipient};
use iodef_tree::{Document, Path};
use std::alloc::Global;
use trying_hub::key_of;

fn name_of(alloc: Global, kind: &str, number: u32) -> Result<Name, Fault> {
    let text = format!(in alloc; "{kind} {number}")?;
    match Name::of(alloc, text.as_str())? {
        Some(name) => Ok(name),
        None => Err(Fault::Unmade("a name")),
    }
}

fn account(alloc: Global, number: u32, member: &Member) -> Result<Account, Fault> {
    let person = Person {
        number,
        org: member.org,
        name: name_of(alloc, "person", number)?,
        role: member.role,
        active: member.active,
        nominated: member.nominated,
    };
    let key = key_of(number);
    Ok(Account { person, key })
}

fn group(alloc: Global, number: u32, club: &Club) -> Result<Group, Fault> {
    let Some(releasability) = Releasability::of(alloc, "")? else {
        return Err(Fault::Unmade("a releasability"));
    };
    Ok(Group {
        number,
        owner: club.owner,
        name: name_of(alloc, "group", number)?,
        releasability,
        active: club.active,
    })
}

/// Adds organisations, communities, persons and groups.
fn push_named(alloc: Global, edits: &mut Vec<Edit>, circle: &Circle) -> Result<(), Fault> {
    for number in 1..=ORGS {
        let name = name_of(alloc, "org", number)?;
        edits.push(Edit::Directory(RowEdit::PutOrg(Org { number, name })))?;
    }
    for number in 1..=COMMUNITIES {
        let name = name_of(alloc, "community", number)?;
        edits.push(Edit::Directory(RowEdit::PutCommunity(Community { number, name })))?;
    }
    for (place, member) in circle.persons.iter().enumerate() {
        let account = account(alloc, number_at(place), member)?;
        edits.push(Edit::Directory(RowEdit::PutAccount(account)))?;
    }
    for (place, club) in circle.groups.iter().enumerate() {
        let group = group(alloc, number_at(place), club)?;
        edits.push(Edit::Directory(RowEdit::PutGroup(group)))?;
    }
    Ok(())
}

/// Adds the rows that relate these to one another.
fn push_pairs(edits: &mut Vec<Edit>, circle: &Circle) -> Result<(), Fault> {
    for row in circle.clients.iter() {
        edits.push(Edit::Directory(RowEdit::PutClient(*row)))?;
    }
    for row in circle.memberships.iter() {
        edits.push(Edit::Directory(RowEdit::PutMembership(*row)))?;
    }
    for row in circle.connections.iter() {
        edits.push(Edit::Directory(RowEdit::PutConnection(*row)))?;
    }
    for row in circle.members.iter() {
        edits.push(Edit::Directory(RowEdit::PutGroupMember(*row)))?;
    }
    for row in circle.arrangements.iter() {
        edits.push(Edit::Directory(RowEdit::PutArrangement(*row)))?;
    }
    Ok(())
}

fn gate_at(incident: u32, path: Path, reach: Reach) -> Edit {
    let Reach { level, group } = reach;
    let gate = policy::Gate { path, level, group };
    Edit::PutGate(Gate { incident, gate })
}

/// Adds the document, and the gates and permissions at its classes.
fn push_classes(
    alloc: Global,
    edits: &mut Vec<Edit>,
    incident: u32,
    report: &Report,
    paths: &[Path],
) -> Result<(), Fault> {
    for (class, path) in report.classes.iter().zip(paths.iter()) {
        if let Some(reach) = class.gate {
            edits.push(gate_at(incident, path.clone()?, reach))?;
        }
        for given in class.grants.iter() {
            let path = path.clone()?;
            let permission = policy::Permission {
                path,
                grantee: given.grantee,
                until: given.until,
            };
            edits.push(Edit::PutPermission(Permission {
                incident,
                permission,
            }))?;
        }
    }
    edits.push(gate_at(incident, Path::root(alloc), report.reach))?;
    Ok(())
}

/// Returns the report's document, as it is read from its text.
fn document_of(alloc: Global, report: &Report) -> Result<Document, Fault> {
    let text = text_of(alloc, report)?;
    let Ok(mut documents) = Document::read(alloc, text.as_str().as_bytes()) else {
        return Err(Fault::Unmade("a document"));
    };
    match documents.pop() {
        Some(document) => Ok(document),
        None => Err(Fault::Unmade("a document of a report")),
    }
}

fn push_report(
    alloc: Global,
    edits: &mut Vec<Edit>,
    number: u32,
    report: &Report,
) -> Result<(), Fault> {
    let document = document_of(alloc, report)?;
    let paths = document.classes(alloc)?;
    let Some(ident) = document.incident_id(alloc)? else {
        return Err(Fault::Unmade("an IncidentID"));
    };
    if paths.len() != report.classes.len() {
        return Err(Fault::Unmade("the classes of a report"));
    }
    let naming = Naming {
        number,
        source: report.source,
        ident: Text::new(ident),
        revision: report.revision,
        community: report.community,
    };
    edits.push(Edit::PutIncident(Incident { naming, document }))?;
    for target in report.recipients.iter() {
        edits.push(Edit::PutRecipient(Recipient {
            incident: number,
            target: *target,
        }))?;
    }
    push_classes(alloc, edits, number, report, &paths)
}

/// Returns the edits that put every row of the world.
pub fn edits_of(alloc: Global, world: &World) -> Result<Vec<Edit>, Fault> {
    let mut edits = Vec::new(alloc);
    push_named(alloc, &mut edits, &world.circle)?;
    push_pairs(&mut edits, &world.circle)?;
    for (place, report) in world.reports.iter().enumerate() {
        push_report(alloc, &mut edits, number_at(place), report)?;
    }
    Ok(edits)
}
