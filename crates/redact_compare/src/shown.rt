//! The features of a generated case, as the slow program finds them.

use crate::entry::Entry;
use crate::judged::{Judged, Moved, Told, holds_seen, is_frame, is_wholly_hidden, says_label};
use crate::policy_tables::{clearance, refusal};
use crate::tally::Tally;
use crate::world::World;
use iodef_tree::{Kind, Path, Text};
use policy::Standing;

pub fn note_reader(tally: &mut Tally, standing: &Standing) {
    tally.note("readers of the source", standing.source);
    let name = match clearance(standing) {
        0 => "readers cleared for CLEAR",
        1 => "readers cleared for GREEN",
        2 => "readers cleared for AMBER",
        3 => "readers cleared for STRICT",
        _ => "readers cleared for RED",
    };
    tally.note(name, !standing.source);
}

/// Returns how many gates at this very path refuse.
fn refusing(world: &World<'_, '_>, path: &[Text]) -> usize {
    world
        .case
        .gates
        .as_slice()
        .iter()
        .filter(|gate| gate.path.tokens() == path && refusal(world.standing, gate).is_some())
        .count()
}

fn note_gates(tally: &mut Tally, world: &World<'_, '_>, path: &[Text]) {
    let mut places: u32 = 0;
    for length in 0..=path.len() {
        let count = refusing(world, &path[..length]);
        tally.note("gates that refuse at one place", count > 1);
        if count > 0 {
            places = places.saturating_add(1);
        }
    }
    tally.note("gates that refuse at two places of a path", places > 1);
}

fn note_permissions(tally: &mut Tally, world: &World<'_, '_>, judged: &Judged<'_>) {
    let path = judged.path.tokens();
    let needed = !world.standing.source && world.refusal(path).is_none() && !world.is_cleared(path);
    tally.note("permissions that show a class", needed && judged.visible);
    for permission in world.case.permissions.as_slice() {
        let ended = world.reaches(permission, path) && world.is_ended(permission, path);
        tally.note(
            "permissions that end at a label",
            needed && ended && !judged.visible,
        );
        let over = world.reaches(permission, path) && world.is_over(permission);
        tally.note(
            "permissions that are over",
            needed && over && !ended && !judged.visible,
        );
    }
}

fn note_class(tally: &mut Tally, world: &World<'_, '_>, list: &[Judged<'_>], judged: &Judged<'_>) {
    let path = judged.path.tokens();
    let above = judged.parent.tokens();
    let frame = is_frame(list, path);
    tally.note("frames", frame);
    tally.note(
        "frames below frames",
        frame && !above.is_empty() && is_frame(list, above),
    );
    tally.note(
        "hidden classes below hidden ones",
        is_wholly_hidden(list, path) && is_wholly_hidden(list, above),
    );
    tally.note(
        "added extended labels",
        says_label(world, list, judged) && world.label(path).word == "ext-value",
    );
    note_gates(tally, world, path);
    note_permissions(tally, world, judged);
}

/// Notes the decision about each class.
pub fn note_classes(tally: &mut Tally, world: &World<'_, '_>, list: &[Judged<'_>]) {
    for judged in list {
        if judged.line.kind == Kind::Class {
            note_class(tally, world, list, judged);
        }
    }
    tally.note("nothing visible", !holds_seen(list, &[]));
}

/// Notes between which members of the class at the place a label was added.
fn note_added(tally: &mut Tally, lines: &[Entry<'_>], place: &Path) {
    let mut before = false;
    let mut behind = false;
    for entry in lines {
        if entry.parent == *place {
            before = before || entry.line.name.as_str() < "ext-restriction";
            behind = behind || entry.line.name.as_str() > "restriction";
        }
    }
    tally.note("added labels", true);
    tally.note("added labels between members", before && behind);
}

/// Returns whether the class at the path has its label added.
fn says_label_at(world: &World<'_, '_>, list: &[Judged<'_>], path: &Path) -> bool {
    for judged in list {
        if *judged.path == *path && says_label(world, list, judged) {
            return true;
        }
    }
    false
}

/// Notes which classes moved in an array, and where labels were added.
pub fn note_places(
    tally: &mut Tally,
    world: &World<'_, '_>,
    list: &[Judged<'_>],
    lines: &[Entry<'_>],
    pairs: &[Moved<'_>],
) {
    for pair in pairs {
        tally.note(
            "places that differ from the paths",
            *pair.path != *pair.place,
        );
        if says_label_at(world, list, pair.path) {
            note_added(tally, lines, pair.place);
        }
    }
}

pub fn note_withheld(tally: &mut Tally, count: usize, told: &[Told]) {
    tally.note("repeated pairs", told.len() < count);
    for pair in told {
        let name = match pair.rule {
            "G0" => "rule G0",
            "G1" => "rule G1",
            "G2" => "rule G2",
            "G4" => "rule G4",
            "G4X" => "rule G4X",
            "H-GREEN" => "rule H-GREEN",
            "H-AMBER" => "rule H-AMBER",
            "H-STRICT" => "rule H-STRICT",
            _ => "rule H-RED",
        };
        tally.note(name, true);
    }
}
