//! What a reader must learn by the rules, in numbers. If two worlds have other numbers, some answer must differ.

use crate::reader::{Reader, Why};
use crate::rows::{
    COMMUNITIES, Circle, GROUPS, Given, ORGS, Reach, Report, World, end_of, number_at,
};
use crate::writing::{PRIVATE, plain_label};
use circle::directory::Role;
use hub_core::Target;
use policy::Grantee;
use std::alloc::{AllocError, Global};

/// A kept class: one that is seen, one that only holds others, or one that is wholly hidden.
#[derive(Clone, Copy, PartialEq, Eq)]
enum Kept {
    Seen,
    Frame,
    Hidden,
}

/// A rule at a place: the number of a kept class, from 1 in their order, and 0 for the root.
#[derive(Clone, Copy, PartialEq, Eq)]
pub struct Withheld {
    place: u32,
    why: Why,
}

/// The classes of a report on the way down, and what was said of them.
#[derive(Drop)]
struct Telling<'a> {
    reader: Reader<'a>,
    report: &'a Report,
    numbers: Vec<u32>,
    withheld: Vec<Withheld>,
    /// How many classes are kept.
    kept: u32,
    /// For each class above, from the root's place on, the number and whether it is seen.
    above: Vec<(u32, Kept)>,
}

fn code(why: Why) -> u32 {
    match why {
        Why::Handled(rank) => rank,
        Why::Level(level) => u32::from(level).saturating_add(10),
        Why::GroupAsleep => 20,
    }
}

impl<'a> Telling<'a> {
    fn keep(&self, place: usize, why: Option<Why>) -> Kept {
        let end = end_of(&self.report.classes, place);
        match why {
            None => Kept::Seen,
            Some(_) if self.reader.sees_none(self.report, place, end) => Kept::Hidden,
            Some(_) => Kept::Frame,
        }
    }

    fn note(&mut self, place: u32, why: Why) -> Result<(), AllocError> {
        let withheld = Withheld { place, why };
        if !self.withheld.contains(&withheld) {
            self.withheld.push(withheld)?;
        }
        Ok(())
    }

    /// Adds the numbers of the lines of a class that is seen.
    fn tell_lines(&mut self, place: usize, over: Kept) -> Result<(), AllocError> {
        let Some(class) = self.report.classes.get(place) else {
            return Ok(());
        };
        let nearest = match plain_label(self.reader.label(self.report, place)) {
            0 => PRIVATE,
            label => label,
        };
        let label = match (class.label, over) {
            (0, Kept::Seen) => 0,
            (0, _) => nearest,
            (label, _) => label,
        };
        let is_incident = class.depth == 1 && class.kind == 0;
        let ident = if is_incident { self.report.ident } else { 0 };
        for number in [label, class.note, ident] {
            self.numbers.push(number)?;
        }
        Ok(())
    }

    /// Adds the numbers of the class at a place.
    fn tell(&mut self, place: usize) -> Result<(), AllocError> {
        let Some(class) = self.report.classes.get(place) else {
            return Ok(());
        };
        self.above.truncate(class.depth as usize);
        let (number, over) = self.above.last().copied().unwrap_or((0, Kept::Frame));
        let why = self.reader.hidden(self.report, place);
        let kept = self.keep(place, why);
        if kept == Kept::Hidden {
            self.above.push((number, kept))?;
            return match why {
                Some(why) if over != Kept::Hidden => self.note(number, why),
                _ => Ok(()),
            };
        }
        self.kept = self.kept.saturating_add(1);
        self.above.push((self.kept, kept))?;
        for number in [class.depth, class.kind, u32::from(kept == Kept::Seen)] {
            self.numbers.push(number)?;
        }
        match why {
            Some(why) => self.note(self.kept, why),
            None => self.tell_lines(place, over),
        }
    }
}

/// Returns the numbers of the classes of a report, and what is withheld.
fn told_of(
    alloc: Global,
    reader: Reader<'_>,
    report: &Report,
) -> Result<(Vec<u32>, Vec<Withheld>), AllocError> {
    let mut above = Vec::new(alloc);
    above.push((0, Kept::Frame))?;
    let mut telling = Telling {
        reader,
        report,
        numbers: Vec::new(alloc),
        withheld: Vec::new(alloc),
        kept: 0,
        above,
    };
    for place in 0..report.classes.len() {
        telling.tell(place)?;
    }
    let Telling {
        numbers,
        withheld,
        ..
    } = telling;
    Ok((numbers, withheld))
}

/// Returns the rules that withhold something of a report, each with its place.
pub fn withheld_of(
    alloc: Global,
    reader: Reader<'_>,
    report: &Report,
) -> Result<Vec<Withheld>, AllocError> {
    let (_, withheld) = told_of(alloc, reader, report)?;
    Ok(withheld)
}

/// Returns whether the same is withheld, in any order.
pub fn same_withheld(one: &[Withheld], other: &[Withheld]) -> bool {
    one.len() == other.len() && one.iter().all(|withheld| other.contains(withheld))
}

/// Adds the numbers of the report of this number for the reader, and nothing if nothing is seen.
fn push_report(
    alloc: Global,
    numbers: &mut Vec<u32>,
    reader: Reader<'_>,
    number: u32,
    report: &Report,
) -> Result<(), AllocError> {
    if !reader.is_served(report) {
        return Ok(());
    }
    let (told, withheld) = told_of(alloc, reader, report)?;
    for number in [
        number,
        report.source,
        report.revision,
        u32::from(reader.is_addressed(report)),
    ] {
        numbers.push(number)?;
    }
    numbers.extend_from_slice(&told)?;
    push_withheld(alloc, numbers, &withheld)
}

/// Adds what is withheld, in the order of places and rules.
fn push_withheld(
    alloc: Global,
    numbers: &mut Vec<u32>,
    withheld: &[Withheld],
) -> Result<(), AllocError> {
    let mut codes = Vec::new(alloc);
    for Withheld { place, why } in withheld {
        codes.push(place.saturating_mul(32).saturating_add(code(*why)))?;
    }
    codes.sort()?;
    numbers.push(u32::MAX)?;
    numbers.extend_from_slice(&codes)
}

fn role_number(role: Role) -> u32 {
    match role {
        Role::Administrator => 0,
        Role::Coordinator => 1,
        Role::Poster => 2,
        Role::Reader => 3,
    }
}

/// Returns the number of a group for the reader, or 0 if the reader's organisation isn't a member.
fn membership_number(reader: Reader<'_>, group: u32) -> u32 {
    let mut members = reader.circle.members.iter();
    let own = members.find(|row| row.group == group && row.org == reader.own.org);
    match (own, reader.circle.is_active(group)) {
        (None, _) => 0,
        (Some(row), false) => u32::from(row.extend).saturating_add(1),
        (Some(row), true) => u32::from(row.extend).saturating_add(3),
    }
}

/// Adds the numbers of the reader's communities: their members, and the communities connected to them.
fn push_communities(numbers: &mut Vec<u32>, reader: Reader<'_>) -> Result<(), AllocError> {
    let circle = reader.circle;
    for community in 1..=COMMUNITIES {
        if circle.is_member(community, reader.own.org) {
            numbers.push(community)?;
            push_community(numbers, circle, community)?;
        }
    }
    Ok(())
}

/// Adds a number for each organisation, and for each community.
fn push_community(
    numbers: &mut Vec<u32>,
    circle: &Circle,
    community: u32,
) -> Result<(), AllocError> {
    for org in 1..=ORGS {
        numbers.push(u32::from(circle.is_member(community, org)))?;
    }
    for other in 1..=COMMUNITIES {
        let is_linked = circle.connections.iter().any(|row| {
            row.low == community && row.high == other || row.low == other && row.high == community
        });
        numbers.push(u32::from(is_linked))?;
    }
    Ok(())
}

fn target_number(target: Target) -> u32 {
    match target {
        Target::Person(number) => number.saturating_mul(2),
        Target::Org(number) => number.saturating_mul(2).saturating_add(1),
    }
}

fn grantee_number(grantee: Grantee) -> u32 {
    match grantee {
        Grantee::Person(number) => number.saturating_mul(4),
        Grantee::Org(number) => number.saturating_mul(4).saturating_add(1),
        Grantee::Community(number) => number.saturating_mul(4).saturating_add(2),
        Grantee::Group(number) => number.saturating_mul(4).saturating_add(3),
    }
}

/// Returns the end in seconds, and 1 for none.
fn end_number(until: Option<i64>) -> u32 {
    match until {
        None => 1,
        Some(end) => u32::try_from(end).unwrap_or(0),
    }
}

fn push_reach(numbers: &mut Vec<u32>, reach: Option<Reach>) -> Result<(), AllocError> {
    let (level, group) = match reach {
        None => (9, 0),
        Some(reach) => (u32::from(reach.level), reach.group.unwrap_or(0)),
    };
    numbers.push(level)?;
    numbers.push(group)?;
    Ok(())
}

/// The grantee of a permission is above this, and its end below.
const HALF: u64 = 4_294_967_296;

fn push_grants(alloc: Global, numbers: &mut Vec<u32>, grants: &[Given]) -> Result<(), AllocError> {
    let mut rows = Vec::new(alloc);
    for given in grants {
        let grantee = u64::from(grantee_number(given.grantee));
        let end = u64::from(end_number(given.until));
        rows.push(grantee.saturating_mul(HALF).saturating_add(end))?;
    }
    rows.sort()?;
    for row in rows.iter() {
        numbers.push(u32::try_from(*row / HALF).unwrap_or(0))?;
        numbers.push(u32::try_from(*row % HALF).unwrap_or(0))?;
    }
    numbers.push(u32::MAX)?;
    Ok(())
}

/// Adds the numbers of how a report is shared: its community, gates, recipients and permissions.
fn push_shared(alloc: Global, numbers: &mut Vec<u32>, report: &Report) -> Result<(), AllocError> {
    numbers.push(report.community.unwrap_or(0))?;
    push_reach(numbers, Some(report.reach))?;
    let mut targets = Vec::new(alloc);
    for target in report.recipients.iter() {
        targets.push(target_number(*target))?;
    }
    targets.sort()?;
    numbers.extend_from_slice(&targets)?;
    numbers.push(u32::MAX)?;
    for class in report.classes.iter() {
        push_reach(numbers, class.gate)?;
        push_grants(alloc, numbers, &class.grants)?;
    }
    Ok(())
}

/// Adds the numbers of the reader itself and of its groups.
fn push_self(numbers: &mut Vec<u32>, reader: Reader<'_>) -> Result<(), AllocError> {
    let own = reader.own;
    for number in [own.org, role_number(own.role), u32::from(own.nominated)] {
        numbers.push(number)?;
    }
    for group in 1..=GROUPS {
        numbers.push(membership_number(reader, group))?;
    }
    Ok(())
}

/// Returns all numbers for the person of this number in the world.
pub fn told_in(alloc: Global, world: &World, who: u32) -> Result<Vec<u32>, AllocError> {
    let mut numbers = Vec::new(alloc);
    let Some(reader) = Reader::of(world, who) else {
        return Ok(numbers);
    };
    for (place, report) in world.reports.iter().enumerate() {
        push_report(alloc, &mut numbers, reader, number_at(place), report)?;
        if reader.is_source(report) {
            push_shared(alloc, &mut numbers, report)?;
        }
    }
    push_communities(&mut numbers, reader)?;
    push_self(&mut numbers, reader)?;
    Ok(numbers)
}

/// Returns the labels that are written in classes that the person sees. A search finds these, and none that a view
/// adds.
pub fn written_in(alloc: Global, world: &World, who: u32) -> Result<Vec<u32>, AllocError> {
    let mut labels = Vec::new(alloc);
    if let Some(reader) = Reader::of(world, who) {
        for report in world.reports.iter() {
            push_written(&mut labels, reader, report)?;
        }
    }
    Ok(labels)
}

fn push_written(
    labels: &mut Vec<u32>,
    reader: Reader<'_>,
    report: &Report,
) -> Result<(), AllocError> {
    for (place, class) in report.classes.iter().enumerate() {
        if reader.hidden(report, place).is_none() {
            labels.push(class.label)?;
        }
    }
    Ok(())
}
