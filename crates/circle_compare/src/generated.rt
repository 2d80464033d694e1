//! Generated commands over a directory that they change.
use crate::changes::{Actor, obey};
use crate::commands::{ADMINISTRATORS, KINDS, any_command, any_role};
use crate::reads::agree_on_reads;
use crate::refusals::code_of;
use crate::rows::World;
use crate::tally::note;
use circle::command::{CircleCommand, Edit};
use circle::directory::{Person, Role};
use circle::judge::judge;
use circle::name::Name;
use circle::refusal::{Code, Refusal};
use circle::text::Text;
use circle_rows::DirectoryRows;
use std::alloc::{AllocError, Global};
use trying::{Dice, Tally};

/// How many commands are asked of one directory.
const STEPS: u32 = 200;

/// Both directories: the one in memory, changed by the edits that were judged, and the plain program's.
#[derive(Drop)]
struct Pair {
    judged: DirectoryRows,
    plain: World,
}

impl Pair {
    fn new(alloc: Global) -> Pair {
        Pair {
            judged: DirectoryRows::new(alloc),
            plain: World::new(alloc),
        }
    }

    /// Returns the crate's answer to the command.
    fn answer(
        &self,
        alloc: Global,
        actor: &Person,
        command: &CircleCommand,
    ) -> Result<Edit, Refusal> {
        let facts = self.judged.facts(actor, command);
        judge(alloc, actor, &facts, command)
    }

    /// Changes the rows of both, in memory by the edit and in the plain program by the command. Returns whether there
    /// is an edit.
    fn change(
        &mut self,
        alloc: Global,
        actor: Actor,
        command: &CircleCommand,
        answer: Result<Edit, Refusal>,
    ) -> Result<bool, AllocError> {
        let Ok(edit) = answer else {
            return Ok(false);
        };
        self.judged.apply(edit.into_rows(alloc)?)?;
        obey(&mut self.plain, alloc, actor, command)?;
        Ok(true)
    }
}

fn setter(alloc: Global, role: Role, org: u32) -> Result<Option<Person>, AllocError> {
    Ok(Name::of(alloc, "setter")?.map(|name| Person {
        number: 0,
        org,
        name,
        role,
        active: true,
        nominated: false,
    }))
}

/// Has both obey a command that must be allowed. Returns whether it is.
fn begin_by(
    alloc: Global,
    pair: &mut Pair,
    role: Role,
    org: u32,
    command: &CircleCommand,
) -> Result<bool, AllocError> {
    match setter(alloc, role, org)? {
        Some(actor) => {
            let answer = pair.answer(alloc, &actor, command);
            pair.change(alloc, Actor { person: 0, org }, command, answer)
        }
        None => Ok(false),
    }
}

fn begin_orgs(alloc: Global, pair: &mut Pair) -> Result<bool, AllocError> {
    for name in ["Hub", "Src", "Mem", "Far", "Cli"] {
        let name = Text::of(alloc, name)?;
        let command = CircleCommand::AddOrg { name };
        if !begin_by(alloc, pair, Role::Administrator, 0, &command)? {
            return Ok(false);
        }
    }
    Ok(true)
}

/// Adds six persons. The first is an administrator, the next two are coordinators. Returns whether each is allowed.
fn begin_persons(alloc: Global, dice: &mut Dice, pair: &mut Pair) -> Result<bool, AllocError> {
    for (org, key) in [(1, 1), (2, 2), (3, 3), (4, 4), (5, 5), (2, 6)] {
        let role = match key {
            1 => Role::Administrator,
            2 | 3 => Role::Coordinator,
            _ => any_role(dice),
        };
        let name = Text::of(alloc, "p")?;
        let key = [key; 32];
        let command = CircleCommand::AddPerson {
            org,
            name,
            role,
            key,
        };
        if !begin_by(alloc, pair, Role::Administrator, 0, &command)? {
            return Ok(false);
        }
    }
    Ok(true)
}

fn begin_communities(alloc: Global, pair: &mut Pair) -> Result<bool, AllocError> {
    for name in ["first", "second"] {
        let name = Text::of(alloc, name)?;
        let command = CircleCommand::AddCommunity { name };
        if !begin_by(alloc, pair, Role::Administrator, 0, &command)? {
            return Ok(false);
        }
    }
    Ok(true)
}

/// Adds a group of organisation 2. Returns whether it is allowed.
fn begin_group(alloc: Global, pair: &mut Pair) -> Result<bool, AllocError> {
    let name = Text::of(alloc, "g")?;
    let releasability = Text::new(String::new(alloc));
    let command = CircleCommand::NewGroup {
        name,
        releasability,
    };
    begin_by(alloc, pair, Role::Coordinator, 2, &command)
}

/// Makes organisation 3 a member of it, which may extend it or not. Returns whether that is allowed.
fn begin_member(alloc: Global, dice: &mut Dice, pair: &mut Pair) -> Result<bool, AllocError> {
    let command = CircleCommand::GroupAdd {
        group: 1,
        org: 3,
        extend: dice.once_in(2),
    };
    begin_by(alloc, pair, Role::Coordinator, 2, &command)
}

/// Has both directories begin. Returns whether each command is allowed.
fn begins(alloc: Global, dice: &mut Dice, pair: &mut Pair) -> Result<bool, AllocError> {
    Ok(
        begin_orgs(alloc, pair)?
            && begin_persons(alloc, dice, pair)?
            && begin_communities(alloc, pair)?
            && begin_group(alloc, pair)?
            && begin_member(alloc, dice, pair)?,
    )
}

/// Returns who asks: mostly the administrator or a coordinator, as the kind wants it; anybody in one of four.
fn any_place(dice: &mut Dice, kind: u32) -> usize {
    if dice.once_in(4) {
        dice.place(6)
    } else if kind < ADMINISTRATORS {
        0
    } else {
        1 + dice.place(2).min(1)
    }
}

/// Returns whether the answer is the wanted refusal, or an edit if none is wanted.
fn is_answer(answer: &Result<Edit, Refusal>, wanted: Option<(Code, &'static str)>) -> bool {
    match answer {
        Ok(_) => wanted.is_none(),
        Err(refusal) => wanted == Some((refusal.code, refusal.detail.as_str())),
    }
}

/// Has both judge the command, and change their rows if it is allowed. Returns whether they agree.
fn agree_on_command(
    alloc: Global,
    pair: &mut Pair,
    tally: &mut Tally,
    kind: u32,
    actor: &Person,
    command: &CircleCommand,
) -> Result<bool, AllocError> {
    if pair.judged.facts(actor, command) != pair.plain.facts(actor, command) {
        return Ok(false);
    }
    let wanted = pair.plain.refusal(actor, command);
    note(tally, kind, code_of(wanted))?;
    let answer = pair.answer(alloc, actor, command);
    let is_same = is_answer(&answer, wanted);
    let by = Actor {
        person: actor.number,
        org: actor.org,
    };
    pair.change(alloc, by, command, answer)?;
    Ok(is_same)
}

/// Has the person at this place among all ask for the command. Returns whether both agree on it, and on the rows after
/// it.
fn agree_on_asked(
    alloc: Global,
    pair: &mut Pair,
    tally: &mut Tally,
    kind: u32,
    place: usize,
    command: &CircleCommand,
) -> Result<bool, AllocError> {
    let Some(account) = pair.plain.accounts.get(place) else {
        return Ok(false);
    };
    let actor = account.person.clone()?;
    Ok(
        agree_on_command(alloc, pair, tally, kind, &actor, command)?
            && pair.plain.is_same(&pair.judged),
    )
}

/// Asks for one command of a random person. Returns whether both agree.
fn step(
    alloc: Global,
    dice: &mut Dice,
    pair: &mut Pair,
    tally: &mut Tally,
) -> Result<bool, AllocError> {
    let kind = dice.roll(KINDS);
    let command = any_command(alloc, dice, kind)?;
    let place = any_place(dice, kind);
    agree_on_asked(alloc, pair, tally, kind, place, &command)
}

fn agree_on_steps(
    alloc: Global,
    dice: &mut Dice,
    pair: &mut Pair,
    tally: &mut Tally,
) -> Result<bool, AllocError> {
    for _ in 0..STEPS {
        if !step(alloc, dice, pair, tally)? {
            return Ok(false);
        }
    }
    Ok(true)
}

/// Returns whether both agree on the first rows, on the commands that change them, and on all questions.
fn agree_on(
    alloc: Global,
    tally: &mut Tally,
    dice: &mut Dice,
    pair: &mut Pair,
) -> Result<bool, AllocError> {
    Ok(
        begins(alloc, dice, pair)?
            && agree_on_steps(alloc, dice, pair, tally)?
            && agree_on_reads(alloc, &pair.judged, &pair.plain)?,
    )
}

/// Returns whether the crate and the plain program agree on a directory of this seed.
pub fn agrees_at(alloc: Global, tally: &mut Tally, seed: u64) -> Result<bool, AllocError> {
    let mut dice = Dice::new(seed);
    let mut pair = Pair::new(alloc);
    agree_on(alloc, tally, &mut dice, &mut pair)
}
