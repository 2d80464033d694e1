//! A world in which most kinds have room for one more row, and the replies to requests for more.

use crate::asked::Asked;
use crate::documents::{Flaw, any_body, ident_text};
use crate::fault::{Fault, agree};
use crate::outcomes::outcome_of;
use crate::shelves::Shelves;
use crate::tally::note;
use crate::world::{World, key_of};
use circle::command::CircleCommand;
use circle::directory::Role;
use circle::text::Text;
use hub::Key;
use hub_core::{
    Address, Bytes, Distribution, Grant, Recipient, Redistribute, Replace, Reply, Request, Target,
    WantedGates,
};
use iodef_tree::Path;
use policy::Grantee;
use std::alloc::{AllocError, Global};
use trying::{Dice, Tally};

/// How often one more of each kind is asked for. The first time it is the last that there may be.
const TIMES: u32 = 3;

/// The administrator, and a coordinator of organisation 1, which owns the groups and posted the incidents.
const ADMINISTRATOR: u32 = 1;

const COORDINATOR: u32 = 2;

/// The number of incidents, which is more than a page has.
const INCIDENTS: u32 = 112;

/// Returns a report under the IncidentID of this number, with many classes if `wide`.
fn body(alloc: Global, number: u32, wide: bool) -> Result<String, AllocError> {
    let mut idents = Vec::new(alloc);
    idents.push(ident_text(alloc, number)?)?;
    any_body(
        alloc,
        &mut Dice::new(0),
        idents.as_slice(),
        Flaw::Nothing,
        wide,
    )
}

/// Adds incidents at their last revision but one, with a gate at the root.
fn add_incidents(world: &mut World) -> Result<(), Fault> {
    for place in 0..INCIDENTS {
        let number = place.saturating_add(1);
        let body = body(world.alloc, number, place < 2)?;
        let added = world.add_incident(1, 999_999, None, body.as_str())?;
        agree(added == Some(number), "the number of an incident")?;
        world.add_gate(number, Path::root(world.alloc), 3)?;
    }
    Ok(())
}

/// Gives the first incident all gates at classes, recipients and permissions except for one of each.
fn fill_first(world: &mut World) -> Result<(), AllocError> {
    let incident = 1;
    let classes = world.classes(incident)?;
    for path in classes.iter().take(15) {
        world.add_gate(incident, path.clone()?, 3)?;
    }
    for org in 1..64u32 {
        world.recipients.push(Recipient {
            incident,
            target: Target::Org(org),
        })?;
        if let Some(path) = classes.first() {
            world.add_permission(incident, path.clone()?, Grantee::Org(org), None)?;
        }
    }
    Ok(())
}

fn nearly_full(alloc: Global) -> Result<World, Fault> {
    let mut world = World::new(alloc);
    world.orgs = 999;
    world.communities = 999;
    for _ in 1..1000u32 {
        world.add_group(1, true)?;
    }
    world.add_person(1, Role::Administrator, true, false)?;
    world.add_person(1, Role::Coordinator, true, false)?;
    add_incidents(&mut world)?;
    fill_first(&mut world)?;
    Ok(world)
}

/// Returns commands for one more organisation, community and group, each with the person who may ask for it.
fn commands(alloc: Global, time: u32) -> Result<[(u32, CircleCommand); 3], AllocError> {
    let text = format!(in alloc; "new {time}")?;
    let name = text.as_str();
    let org = CircleCommand::AddOrg {
        name: Text::of(alloc, name)?,
    };
    let community = CircleCommand::AddCommunity {
        name: Text::of(alloc, name)?,
    };
    let group = CircleCommand::NewGroup {
        name: Text::of(alloc, name)?,
        releasability: Text::of(alloc, "")?,
    };
    Ok([
        (ADMINISTRATOR, org),
        (ADMINISTRATOR, community),
        (COORDINATOR, group),
    ])
}

/// Returns requests for one more gate, recipient, permission and revision. The second time the incident has the last
/// revision.
fn changes(alloc: Global, time: u32) -> Result<[Request; 4], AllocError> {
    let org = 64u32.saturating_add(time);
    let (incident, revision, place) = (1, 999_999u32, 22u32.saturating_add(time.min(1)));
    let gate = Redistribute {
        incident,
        revision,
        path: Text::new(format!(in alloc; "/Incident/0/EventData/{place}")?),
        level: 3,
        group: None,
    };
    let recipient = Address {
        incident,
        target: Target::Org(org),
    };
    let permission = Grant {
        incident,
        revision,
        path: Text::of(alloc, "/Incident/0")?,
        grantee: Grantee::Org(org),
        until: None,
    };
    let distribution = Distribution {
        community: None,
        level: 3,
        group: None,
        gates: WantedGates::new(Vec::new(alloc)),
    };
    let exchange = Replace {
        incident: 2,
        revision: revision.saturating_add(time.min(1)),
        distribution,
        document: Bytes::new(body(alloc, 2, false)?.into_bytes()),
    };
    Ok([
        Request::Redistribute(gate),
        Request::Address(recipient),
        Request::Grant(permission),
        Request::Replace(exchange),
    ])
}

/// Returns requests for one more of each kind.
fn one_more(alloc: Global, time: u32) -> Result<Vec<Asked>, AllocError> {
    let mut list = Vec::new(alloc);
    for (who, command) in commands(alloc, time)? {
        list.push(asked_by(who, Request::Circle(command)))?;
    }
    for request in changes(alloc, time)? {
        list.push(asked_by(COORDINATOR, request))?;
    }
    Ok(list)
}

fn asked_by(who: u32, request: Request) -> Asked {
    Asked {
        now: 0,
        key: Key::Digest(key_of(who)),
        request,
    }
}

/// Compares the first page of the incidents, a hundred of them, and the rest.
fn agree_on_pages(alloc: Global, shelves: &mut Shelves) -> Result<(), Fault> {
    agree_on_page(alloc, shelves, 0, 100)?;
    agree_on_page(alloc, shelves, 100, 12)
}

/// Compares the page behind an incident, which must have so many.
fn agree_on_page(
    alloc: Global,
    shelves: &mut Shelves,
    after: u32,
    count: usize,
) -> Result<(), Fault> {
    let asked = asked_by(COORDINATOR, Request::List { after });
    let reply = shelves.reply(alloc, &asked)?;
    match &reply {
        Reply::Incidents(entries) => {
            agree(
                entries.as_slice().len() == count,
                "how many incidents a page has",
            )
        }
        _ => Err(Fault::Differs("a page that is none")),
    }
}

/// Returns the hubs over a world with room for one more of each kind.
fn nearly_full_hubs(alloc: Global) -> Result<Shelves, Fault> {
    let edits = nearly_full(alloc)?.into_edits()?;
    Shelves::new(alloc, edits.as_slice())
}

/// Compares the replies of all hubs to requests for one more.
fn agree_on_one_more(
    alloc: Global,
    tally: &mut Tally,
    shelves: &mut Shelves,
    time: u32,
) -> Result<(), Fault> {
    let wanted = if time == 0 { "done" } else { "L1" };
    for asked in one_more(alloc, time)?.iter() {
        agree_on_outcome(alloc, tally, shelves, asked, wanted)?;
    }
    Ok(())
}

/// Compares the replies of all hubs to a request, which must have this outcome.
fn agree_on_outcome(
    alloc: Global,
    tally: &mut Tally,
    shelves: &mut Shelves,
    asked: &Asked,
    wanted: &str,
) -> Result<(), Fault> {
    let reply = shelves.reply(alloc, asked)?;
    agree(is_outcome(alloc, &reply, wanted)?, "an outcome at a limit")?;
    note(tally, alloc, &asked.request, &reply)?;
    Ok(())
}

fn is_outcome(alloc: Global, reply: &Reply, wanted: &str) -> Result<bool, AllocError> {
    let outcome = outcome_of(alloc, reply)?;
    Ok(outcome.as_str() == wanted)
}

fn agree_on_replies(alloc: Global, tally: &mut Tally, shelves: &mut Shelves) -> Result<(), Fault> {
    for time in 0..TIMES {
        agree_on_one_more(alloc, tally, shelves, time)?;
    }
    agree_on_pages(alloc, shelves)
}

/// Compares the replies of all hubs to requests for one more: it is done, and from then on there is no room.
pub fn agree_at_limits(alloc: Global, tally: &mut Tally) -> Result<(), Fault> {
    let mut shelves = nearly_full_hubs(alloc)?;
    match agree_on_replies(alloc, tally, &mut shelves) {
        Ok(()) => shelves.opened_anew(alloc)?.agree_on_content(alloc),
        Err(fault) => Err(fault),
    }
}
