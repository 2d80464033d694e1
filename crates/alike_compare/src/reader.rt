//! The classes that a reader sees, by the rules: each class is judged by itself, with all classes above it. No hub is
//! asked.

use crate::rows::{Circle, Class, Given, MOMENT, Member, Reach, Report, World, place_of};
use crate::writing::rank_of;
use circle::directory::Handling;
use hub_core::Target;
use policy::Grantee;

/// The reason for which a class is hidden: how strictly it is handled, from 1 on, or the gate that refuses.
#[derive(Clone, Copy, PartialEq, Eq)]
pub enum Why {
    Handled(u32),
    Level(u8),
    GroupAsleep,
}

/// A person of a world, active, with its number.
#[derive(Clone, Copy)]
pub struct Reader<'a> {
    pub circle: &'a Circle,
    pub who: u32,
    pub own: Member,
}

/// What is known about a class on the way from it up to the root.
#[derive(Clone, Copy)]
struct Ascent {
    depth: u32,
    label: u32,
    is_covered: bool,
    refused: Option<Why>,
}

fn handling_rank(handling: Handling) -> u32 {
    match handling {
        Handling::Clear => 0,
        Handling::Green => 1,
        Handling::Amber => 2,
        Handling::Strict => 3,
        Handling::Red => 4,
    }
}

impl<'a> Reader<'a> {
    /// Returns the person of this number in the world.
    pub fn of(world: &'a World, who: u32) -> Option<Reader<'a>> {
        let own = world.circle.persons.get(place_of(who))?;
        Some(Reader {
            circle: &world.circle,
            who,
            own: *own,
        })
    }

    pub fn is_source(&self, report: &Report) -> bool {
        report.source == self.own.org
    }

    /// Returns whether the person or its organisation is a recipient.
    pub fn is_addressed(&self, report: &Report) -> bool {
        report.recipients.contains(&Target::Person(self.who))
            || report.recipients.contains(&Target::Org(self.own.org))
    }

    fn is_client(&self, report: &Report) -> bool {
        self.circle.clients.iter().any(|row| row.client == self.own.org
            && (row.org == report.source || report.recipients.contains(&Target::Org(row.org))))
    }

    /// Returns whether the person's organisation is in the community that the report names or, if it names none, in one
    /// of the source's. The source needn't be in the one that is named.
    fn is_peer(&self, report: &Report) -> bool {
        match report.community {
            Some(community) => self.circle.is_member(community, self.own.org),
            None => self.circle.share_community(self.own.org, report.source),
        }
    }

    /// Returns how strictly handled the classes are that the person may see in the report.
    fn clearance(&self, report: &Report) -> u32 {
        if report.recipients.contains(&Target::Person(self.who)) {
            4
        } else if self.own.nominated && report.recipients.contains(&Target::Org(self.own.org)) {
            3
        } else if self.own.nominated && self.is_client(report) {
            2
        } else if self.is_peer(report) {
            1
        } else {
            0
        }
    }

    /// Returns how strictly the source wants classes handled that are marked `default`.
    fn arrangement(&self, source: u32) -> u32 {
        let found = self
            .circle
            .arrangements
            .iter()
            .find(|row| row.source == source && row.org == self.own.org);
        found.map_or(4, |row| handling_rank(row.handling))
    }

    pub fn is_included(&self, grantee: &Grantee) -> bool {
        match *grantee {
            Grantee::Person(number) => number == self.who,
            Grantee::Org(number) => number == self.own.org,
            Grantee::Community(number) => self.circle.is_member(number, self.own.org),
            Grantee::Group(number) => {
                self.circle.is_active(number) && self.circle.is_in_group(number, self.own.org)
            }
        }
    }

    /// Returns whether the permission includes the person and hasn't ended.
    fn is_granted(&self, given: &Given) -> bool {
        self.is_included(&given.grantee) && given.until.map_or(true, |end| MOMENT < end)
    }

    /// Returns why the gate refuses the person, which isn't of the source, or none if it doesn't.
    fn refusal(&self, source: u32, reach: Reach) -> Option<Why> {
        let shares = self.circle.share_community(self.own.org, source);
        let group = reach.group.unwrap_or(0);
        let passes = match reach.level {
            0 => false,
            1 => shares,
            2 => shares || self.circle.are_connected(self.own.org, source),
            4 => self.circle.is_in_group(group, self.own.org),
            _ => true,
        };
        if !passes {
            Some(Why::Level(reach.level))
        } else if reach.level == 4 && !self.circle.is_active(group) {
            Some(Why::GroupAsleep)
        } else {
            None
        }
    }

    /// Goes up to a class in front of those so far, if it is above them.
    fn go_up(&self, ascent: &mut Ascent, source: u32, class: &Class) {
        if class.depth >= ascent.depth {
            return;
        }
        ascent.depth = class.depth;
        if ascent.label == 0 {
            let is_granted = class.grants.iter().any(|given| self.is_granted(given));
            ascent.is_covered = ascent.is_covered || is_granted;
            ascent.label = class.label;
        }
        if let Some(reach) = class.gate {
            let refused = self.refusal(source, reach);
            ascent.refused = refused.or(ascent.refused);
        }
    }

    fn ascent(&self, report: &Report, place: usize) -> Ascent {
        let mut ascent = Ascent {
            depth: u32::MAX,
            label: 0,
            is_covered: false,
            refused: None,
        };
        let behind = report.classes.len().saturating_sub(place).saturating_sub(1);
        for class in report.classes.iter().rev().skip(behind) {
            self.go_up(&mut ascent, report.source, class);
        }
        ascent.refused = self.refusal(report.source, report.reach).or(ascent.refused);
        ascent
    }

    /// Returns why the person doesn't see the class at this place, or none if it does.
    pub fn hidden(&self, report: &Report, place: usize) -> Option<Why> {
        if self.is_source(report) {
            return None;
        }
        let ascent = self.ascent(report, place);
        let rank = rank_of(ascent.label, self.arrangement(report.source));
        if ascent.refused.is_some() {
            ascent.refused
        } else if rank <= self.clearance(report) || ascent.is_covered {
            None
        } else {
            Some(Why::Handled(rank))
        }
    }

    /// Returns the nearest label of the class, or 0 if none is written.
    pub fn label(&self, report: &Report, place: usize) -> u32 {
        self.ascent(report, place).label
    }

    /// Returns whether none of the classes at these places is seen.
    pub fn sees_none(&self, report: &Report, from: usize, to: usize) -> bool {
        (from..to).all(|place| self.hidden(report, place).is_some())
    }

    /// Returns whether some class of the report is seen.
    pub fn is_served(&self, report: &Report) -> bool {
        !self.sees_none(report, 0, report.classes.len())
    }
}
