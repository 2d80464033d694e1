//! Pairs of worlds, in which the same is asked, and whose replies are compared.

use crate::asking::{Question, answers};
use crate::fault::Fault;
use crate::reader::Reader;
use crate::row_steps::{other_own_rows, other_rows};
use crate::rows::{World, number_at};
use crate::steps::{Change, any_incident, other_class, other_incident, other_lines};
use crate::told::{told_in, written_in};
use crate::worlds::any_world;
use std::alloc::{AllocError, Global};
use std::str::from_utf8;
use trying::{Dice, Tally};

/// So many steps are tried from each generated world, each from the world to which the last step that holds led.
const STEPS: u32 = 24;

/// A world, the replies to its reader there, and what the reader must learn by the rules.
#[derive(Drop)]
struct Asked {
    world: World,
    replies: Vec<Vec<u8>>,
    told: Vec<u32>,
}

/// The reader who asks, and its questions.
#[derive(Clone, Copy)]
pub struct Asker<'a> {
    pub alloc: Global,
    pub who: u32,
    pub questions: &'a [Question],
}

/// Returns an active person, once in eight times of an organisation that is an incident's source. If there is none,
/// returns the number of nobody.
fn any_reader(alloc: Global, dice: &mut Dice, world: &World) -> Result<u32, AllocError> {
    let is_of_source = dice.once_in(8);
    let mut active = Vec::new(alloc);
    for (place, member) in world.circle.persons.iter().enumerate() {
        let is_source = world
            .reports
            .iter()
            .any(|report| report.source == member.org);
        if member.active && (is_source || !is_of_source) {
            active.push(number_at(place))?;
        }
    }
    Ok(dice.one_of(&active).copied().unwrap_or(0))
}

/// Returns another world, or none if the dice don't fit, or if two premises would be left out.
fn any_change(
    alloc: Global,
    dice: &mut Dice,
    world: &World,
    reader: Reader<'_>,
) -> Result<Option<Change>, AllocError> {
    let is_own = dice.once_in(11);
    let Some(at) = any_incident(alloc, dice, world, reader, is_own)? else {
        return Ok(None);
    };
    if is_own {
        return other_own_rows(dice, world, reader, at);
    }
    match dice.roll(10) {
        0..=2 => other_lines(alloc, dice, world, reader, at),
        3..=5 => other_class(alloc, dice, world, reader, at),
        6 | 7 => other_incident(alloc, dice, world, reader, at),
        _ => other_rows(dice, world, reader, at),
    }
}

fn text_of(reply: Option<&Vec<u8>>) -> &str {
    reply.map_or("", |reply| from_utf8(reply).unwrap_or("not UTF-8"))
}

impl<'a> Asker<'a> {
    fn ask(&self, world: World) -> Result<Option<Asked>, Fault> {
        let Some(reader) = Reader::of(&world, self.who) else {
            return Ok(None);
        };
        let replies = answers(self.alloc, &world, reader, self.questions)?;
        let told = told_in(self.alloc, &world, self.who)?;
        Ok(Some(Asked {
            world,
            replies,
            told,
        }))
    }

    /// Returns a fault: what is wrong with the pair, and the first question whose replies differ.
    fn found(&self, kind: &str, what: &str, one: &Asked, other: &Asked) -> Fault {
        match self.description(kind, what, one, other) {
            Ok(text) => Fault::Found(text),
            Err(_) => Fault::NoMemory,
        }
    }

    fn description(
        &self,
        kind: &str,
        what: &str,
        one: &Asked,
        other: &Asked,
    ) -> Result<String, AllocError> {
        let mut pairs = one.replies.iter().zip(other.replies.iter());
        let place = pairs.position(|(a, b)| *a != *b).unwrap_or(0);
        let line = self
            .questions
            .get(place)
            .map_or("", |question| question.line);
        let who = self.who;
        let first = text_of(one.replies.get(place));
        let second = text_of(other.replies.get(place));
        format!(in self.alloc; "{kind}: {what}\nperson {who} asks {line}\n{first}\n{second}")
    }

    /// Returns whether the person sees something of some incident.
    fn is_served(&self, asked: &Asked) -> bool {
        match Reader::of(&asked.world, self.who) {
            Some(reader) => asked
                .world
                .reports
                .iter()
                .any(|report| reader.is_served(report)),
            None => false,
        }
    }

    /// Returns whether an incident is of the person's organisation.
    fn is_source(&self, asked: &Asked) -> bool {
        match Reader::of(&asked.world, self.who) {
            Some(reader) => asked
                .world
                .reports
                .iter()
                .any(|report| reader.is_source(report)),
            None => false,
        }
    }

    fn count(
        &self,
        tally: &mut Tally,
        kind: &'static str,
        one: &Asked,
        other: &Asked,
    ) -> Result<(), AllocError> {
        tally.note(kind, "pairs")?;
        if self.is_served(one) {
            tally.note(kind, "something seen")?;
        }
        if self.is_source(one) {
            tally.note(kind, "an own report")?;
        }
        if one.told != other.told {
            tally.note(kind, "had to differ")?;
        }
        let is_alike = one.replies == other.replies;
        tally.note(kind, if is_alike { "told alike" } else { "told apart" })
    }

    /// Returns what is wrong with a pair, if something is.
    fn fault(
        &self,
        one: &Asked,
        other: &Asked,
        is_step: bool,
    ) -> Result<Option<&'static str>, AllocError> {
        let is_alike = one.replies == other.replies;
        let has_to_differ = one.told != other.told;
        Ok(match (is_alike, has_to_differ) {
            (false, _) if is_step => Some("alike and told apart"),
            (true, true) => Some("told alike, and had to differ"),
            (false, false) => {
                let written = written_in(self.alloc, &one.world, self.who)?;
                let now = written_in(self.alloc, &other.world, self.who)?;
                if written == now {
                    Some("told apart, and nothing that is told differs")
                } else {
                    None
                }
            }
            _ => None,
        })
    }

    /// Counts the pair. Fails if its replies are wrong.
    fn judge(
        &self,
        tally: &mut Tally,
        one: &Asked,
        other: &Asked,
        change: (&'static str, Option<&'static str>),
    ) -> Result<(), Fault> {
        let (step, left_out) = change;
        let kind = left_out.unwrap_or(step);
        self.count(tally, kind, one, other)?;
        match self.fault(one, other, left_out.is_none())? {
            Some(what) => Err(self.found(kind, what, one, other)),
            None => Ok(()),
        }
    }

    /// Returns a step from a world, if the person is there.
    fn change(&self, dice: &mut Dice, from: &Asked) -> Result<Option<Change>, AllocError> {
        match Reader::of(&from.world, self.who) {
            Some(reader) => any_change(self.alloc, dice, &from.world, reader),
            None => Ok(None),
        }
    }

    /// Tries a step from a world. Returns the world at which the next step begins.
    fn step(&self, dice: &mut Dice, tally: &mut Tally, from: Asked) -> Result<Asked, Fault> {
        let Some(
            Change {
                world,
                step,
                left_out,
            },
        ) = self.change(dice, &from)?
        else {
            return Ok(from);
        };
        let Some(other) = self.ask(world)? else {
            return Ok(from);
        };
        self.judge(tally, &from, &other, (step, left_out))?;
        Ok(if left_out.is_none() { other } else { from })
    }
}

/// Compares the pairs of the chain of worlds of this seed.
pub fn agree_on_chain(
    alloc: Global,
    tally: &mut Tally,
    questions: &[Question],
    seed: u64,
) -> Result<(), Fault> {
    let mut dice = Dice::new(seed);
    let world = any_world(alloc, &mut dice)?;
    let who = any_reader(alloc, &mut dice, &world)?;
    let asker = Asker {
        alloc,
        who,
        questions,
    };
    let Some(mut at) = asker.ask(world)? else {
        return Ok(());
    };
    for _ in 0..STEPS {
        at = asker.step(&mut dice, tally, at)?;
    }
    Ok(())
}
