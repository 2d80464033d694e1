//! How a command changes the rows of the plain program.
use crate::rows::World;
use circle::command::CircleCommand;
use circle::directory::{
    Account, Arrangement, Client, Community, Connection, Group, GroupMember, Membership, Org,
    Person, Role,
};
use circle::name::Name;
use circle::releasability::Releasability;
use circle::text::Text;
use std::alloc::{AllocError, Global};

fn suspend(world: &mut World, person: u32) {
    for account in world.accounts.iter_mut() {
        if account.person.number == person {
            account.person.active = false;
        }
    }
}

fn switch(world: &mut World, group: u32, active: bool) {
    for row in world.groups.iter_mut() {
        if row.number == group {
            row.active = active;
        }
    }
}

fn exchange_key(world: &mut World, person: u32, key: [u8; 32]) {
    for account in world.accounts.iter_mut() {
        if account.person.number == person {
            account.key = key;
        }
    }
}

fn nominate(world: &mut World, person: u32, nominated: bool) {
    for account in world.accounts.iter_mut() {
        if account.person.number == person {
            account.person.nominated = nominated;
        }
    }
}

/// Who gives a command: a person, and its organisation.
#[derive(Clone, Copy)]
pub struct Actor {
    pub person: u32,
    pub org: u32,
}

/// Changes the rows as the command of this person says, without an edit. A text outside the limits adds nothing.
pub fn obey(
    world: &mut World,
    alloc: Global,
    actor: Actor,
    command: &CircleCommand,
) -> Result<(), AllocError> {
    add(world, alloc, actor.org, command)?;
    relate(world, command)?;
    if let CircleCommand::NewKey { key } = command {
        exchange_key(world, actor.person, *key);
    }
    coordinate(world, actor.org, command)
}

/// Adds the numbered rows.
fn add(
    world: &mut World,
    alloc: Global,
    own: u32,
    command: &CircleCommand,
) -> Result<(), AllocError> {
    match command {
        CircleCommand::AddOrg { name } => add_org(&mut world.orgs, alloc, name),
        CircleCommand::AddPerson {
            org,
            name,
            role,
            key,
        } => { add_person(&mut world.accounts, alloc, *org, name, *role, *key) }
        CircleCommand::AddCommunity { name } => add_community(&mut world.communities, alloc, name),
        CircleCommand::NewGroup {
            name,
            releasability,
        } => { found(world, alloc, own, name, releasability) }
        _ => Ok(()),
    }
}

/// Returns the number behind the greatest, or 1.
fn behind(greatest: Option<u32>) -> u32 {
    greatest.unwrap_or(0).saturating_add(1)
}

fn add_org(orgs: &mut Vec<Org>, alloc: Global, name: &Text) -> Result<(), AllocError> {
    let number = behind(orgs.iter().map(|o| o.number).max());
    if let Some(name) = Name::of(alloc, name.as_str())? {
        orgs.push(Org { number, name })?;
    }
    Ok(())
}

fn add_person(
    accounts: &mut Vec<Account>,
    alloc: Global,
    org: u32,
    name: &Text,
    role: Role,
    key: [u8; 32],
) -> Result<(), AllocError> {
    let number = behind(accounts.iter().map(|a| a.person.number).max());
    if let Some(name) = Name::of(alloc, name.as_str())? {
        let person = Person {
            number,
            org,
            name,
            role,
            active: true,
            nominated: false,
        };
        accounts.push(Account { person, key })?;
    }
    Ok(())
}

fn add_community(
    communities: &mut Vec<Community>,
    alloc: Global,
    name: &Text,
) -> Result<(), AllocError> {
    let number = behind(communities.iter().map(|c| c.number).max());
    if let Some(name) = Name::of(alloc, name.as_str())? {
        communities.push(Community { number, name })?;
    }
    Ok(())
}

fn found(
    world: &mut World,
    alloc: Global,
    own: u32,
    name: &Text,
    releasability: &Text,
) -> Result<(), AllocError> {
    if let Some(number) = add_group(&mut world.groups, alloc, own, name, releasability)? {
        world.members.push(GroupMember {
            group: number,
            org: own,
            extend: true,
        })?;
    }
    Ok(())
}

/// Adds a group, and returns its number, if both texts are within the limits.
fn add_group(
    groups: &mut Vec<Group>,
    alloc: Global,
    own: u32,
    name: &Text,
    releasability: &Text,
) -> Result<Option<u32>, AllocError> {
    let number = behind(groups.iter().map(|g| g.number).max());
    let Some(name) = Name::of(alloc, name.as_str())? else {
        return Ok(None);
    };
    let Some(releasability) = Releasability::of(alloc, releasability.as_str())? else {
        return Ok(None);
    };
    groups.push(Group {
        number,
        owner: own,
        name,
        releasability,
        active: true,
    })?;
    Ok(Some(number))
}

/// Makes the other changes of an administrator.
fn relate(world: &mut World, command: &CircleCommand) -> Result<(), AllocError> {
    match command {
        CircleCommand::SuspendPerson { person } => suspend(world, *person),
        CircleCommand::AddClient { org, client } => {
            world.clients.push(Client {
                org: *org,
                client: *client,
            })?
        }
        CircleCommand::RemoveClient { org, client } => {
            world
                .clients
                .retain(|c| c.org != *org || c.client != *client)
        }
        CircleCommand::Join { community, org } => {
            world.memberships.push(Membership {
                community: *community,
                org: *org,
            })?
        }
        CircleCommand::Leave { community, org } => {
            world
                .memberships
                .retain(|m| m.community != *community || m.org != *org)
        }
        CircleCommand::Link { community, other } => {
            world.connections.push(in_order(*community, *other))?
        }
        CircleCommand::Unlink { community, other } => world.connections.retain(|c| {
            !(c.low == *community && c.high == *other || c.low == *other && c.high == *community)
        }),
        _ => {}
    }
    Ok(())
}

fn in_order(one: u32, other: u32) -> Connection {
    if one < other {
        Connection {
            low: one,
            high: other,
        }
    } else {
        Connection {
            low: other,
            high: one,
        }
    }
}

/// Makes the change of a coordinator of the organisation.
fn coordinate(world: &mut World, own: u32, command: &CircleCommand) -> Result<(), AllocError> {
    match command {
        CircleCommand::GroupAdd { group, org, extend } => {
            world.members.push(GroupMember {
                group: *group,
                org: *org,
                extend: *extend,
            })?
        }
        CircleCommand::GroupRemove { group, org } => {
            world
                .members
                .retain(|m| !(m.group == *group && m.org == *org))
        }
        CircleCommand::GroupActive { group, active } => switch(world, *group, *active),
        CircleCommand::Arrange { org, handling } => {
            world.arrangements.push(Arrangement {
                source: own,
                org: *org,
                handling: *handling,
            })?
        }
        CircleCommand::CancelArrange { org } => {
            world
                .arrangements
                .retain(|a| !(a.source == own && a.org == *org))
        }
        CircleCommand::Nominate { person } => nominate(world, *person, true),
        CircleCommand::Unnominate { person } => nominate(world, *person, false),
        _ => {}
    }
    Ok(())
}
