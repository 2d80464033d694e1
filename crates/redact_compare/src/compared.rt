//! One case: compares `excerpt`, `is_listed` and `finds` with the slow program.

ghost use Rattle.std.specs.Prelude.{◌≡◌, None};
ghost use Rattle.iodef_tree.specs.Paths as spec;
ghost use Rattle.marking.specs.Marks.{first_bad_marking};

use crate::by_lines::agree_by_lines;
use crate::documents::report_text;
use crate::entry::{Entry, located};
use crate::judged::{
    Judged, Moved, Sought, Told, count_seen, judge, kept_outline, places, search, withheld,
    withheld_in_order,
};
use crate::readers::{any_case, any_standing};
use crate::shown::{note_classes, note_places, note_reader, note_withheld};
use crate::stations::note_stations;
use crate::tally::Tally;
use crate::world::World;
use iodef_tree::{Document, Kind, Line, Path};
use marking::check;
use policy::{Case, Rule, Standing};
use redact::{Excerpt, excerpt, finds, is_listed};
use std::alloc::{AllocError, Global};
use trying::Dice;

/// The needles, and the classes in which they are searched.
const SEARCHES: &[Sought<'static>] = &[
    Sought {
        needle: "needle",
        class: None,
    },
    Sought {
        needle: "needles",
        class: Some("Node"),
    },
    Sought {
        needle: "",
        class: Some("Flow"),
    },
    Sought {
        needle: "private",
        class: None,
    },
];

fn same_line(one: &Line, other: &Line) -> bool {
    one.depth == other.depth
        && one.name == other.name
        && one.in_array == other.in_array
        && one.kind == other.kind
        && one.text == other.text
}

pub fn same_lines(one: &[Line], other: &[Line]) -> bool {
    one.len() == other.len()
        && one
            .iter()
            .zip(other.iter())
            .all(|(line, second)| same_line(line, second))
}

fn is_told(alloc: Global, place: &Path, rule: Rule, pair: &Told) -> Result<bool, AllocError> {
    let printed = place.print(alloc)?;
    Ok(printed.as_str() == pair.place.as_str() && rule.name() == pair.rule)
}

fn same_withheld(alloc: Global, pairs: &[(Path, Rule)], told: &[Told]) -> Result<bool, AllocError> {
    for ((place, rule), pair) in pairs.iter().zip(told.iter()) {
        if !is_told(alloc, place, *rule, pair)? {
            return Ok(false);
        }
    }
    Ok(pairs.len() == told.len())
}

/// The answers of the slow program for a case.
#[derive(Drop)]
pub struct Expected {
    pub outline: Vec<Line>,
    pub classes: usize,
    pub withheld: Vec<Told>,
}

/// Returns what is withheld beside the classes that are kept at these places.
fn withheld_at(
    tally: &mut Tally,
    alloc: Global,
    list: &[Judged<'_>],
    pairs: &[Moved<'_>],
) -> Result<Vec<Told>, AllocError> {
    let told = withheld(alloc, list, pairs)?;
    let count = told.len();
    let withheld = withheld_in_order(alloc, told)?;
    note_withheld(tally, count, &withheld);
    Ok(withheld)
}

/// Returns what is withheld beside these kept lines. Notes in the tally where they are.
fn withheld_beside(
    tally: &mut Tally,
    world: &World<'_, '_>,
    list: &[Judged<'_>],
    lines: &[Entry<'_>],
) -> Result<Vec<Told>, AllocError> {
    let pairs = places(world.alloc, list, lines)?;
    note_places(tally, world, list, lines, &pairs);
    withheld_at(tally, world.alloc, list, &pairs)
}

/// Returns what is withheld beside this kept outline.
fn slow_withheld(
    tally: &mut Tally,
    world: &World<'_, '_>,
    list: &[Judged<'_>],
    outline: &[Line],
) -> Result<Vec<Told>, AllocError> {
    let lines = located(world.alloc, outline)?;
    withheld_beside(tally, world, list, &lines)
}

/// Returns the slow program's answer.
fn slow_answer(
    tally: &mut Tally,
    world: &World<'_, '_>,
    list: &[Judged<'_>],
) -> Result<Expected, AllocError> {
    let outline = kept_outline(world, list)?;
    let withheld = slow_withheld(tally, world, list, &outline)?;
    Ok(Expected {
        outline,
        classes: count_seen(list),
        withheld,
    })
}

/// Returns whether an answer is the expected one: none exactly if no class is visible.
fn is_expected(
    alloc: Global,
    answer: &Option<Excerpt>,
    expected: &Expected,
) -> Result<bool, AllocError> {
    let Some(excerpt) = answer else {
        return Ok(expected.classes == 0);
    };
    let outline = excerpt.document.outline(alloc)?;
    Ok(
        excerpt.classes as usize == expected.classes
            && expected.classes > 0
            && same_lines(&outline, &expected.outline)
            && same_withheld(alloc, &excerpt.withheld, &expected.withheld)?,
    )
}

/// Returns whether the text is somewhere in the stored document.
fn is_stored(list: &[Judged<'_>], needle: &str) -> bool {
    list.iter().any(|line| line.line.kind == Kind::Text && line.line.text.as_str().contains(needle))
}

/// Returns whether the crate finds it.
fn answer_found(
    world: &World<'_, '_>,
    document: &Document,
    sought: &Sought<'_>,
) -> Result<bool, AllocError> {
    finds(
        world.alloc,
        document,
        world.case,
        world.standing,
        sought.needle,
        sought.class,
    )
}

/// Returns whether the slow program finds it. Notes that in the tally.
fn slow_found(tally: &mut Tally, list: &[Judged<'_>], sought: &Sought<'_>) -> bool {
    let found = search(list, sought);
    tally.note("needles found", found);
    tally.note("needles hidden", !found && is_stored(list, sought.needle));
    found
}

/// Returns whether both find it, or neither does.
fn agrees_on_search(
    tally: &mut Tally,
    world: &World<'_, '_>,
    list: &[Judged<'_>],
    document: &Document,
    sought: &Sought<'_>,
) -> Result<bool, AllocError> {
    let found = slow_found(tally, list, sought);
    Ok(answer_found(world, document, sought)? == found)
}

/// Returns whether the searches agree.
fn agrees_on_searches(
    tally: &mut Tally,
    world: &World<'_, '_>,
    list: &[Judged<'_>],
    document: &Document,
) -> Result<bool, AllocError> {
    for sought in SEARCHES {
        if !agrees_on_search(tally, world, list, document, sought)? {
            return Ok(false);
        }
    }
    Ok(true)
}

/// Returns whether the excerpt is the expected one, and the report is listed if there is one.
fn agrees_on_excerpt(
    world: &World<'_, '_>,
    document: &Document,
    expected: &Expected,
) -> Result<bool, AllocError>
    requires { first_bad_marking (spec.located document.now) ≡ None }
{
    let listed = is_listed(world.alloc, document, world.case, world.standing)?;
    let answer = excerpt(world.alloc, document, world.case, world.standing)?;
    Ok(listed == (expected.classes > 0) && is_expected(world.alloc, &answer, expected)?)
}

/// Notes in the tally what the case shows.
fn note_case(
    tally: &mut Tally,
    world: &World<'_, '_>,
    list: &[Judged<'_>],
) -> Result<(), AllocError> {
    note_reader(tally, world.standing);
    note_classes(tally, world, list);
    note_stations(tally, world)
}

/// Returns whether both agree if the slow program's verdicts are these.
fn agrees_by(
    tally: &mut Tally,
    world: &World<'_, '_>,
    list: &[Judged<'_>],
    document: &Document,
) -> Result<bool, AllocError>
    requires { first_bad_marking (spec.located document.now) ≡ None }
{
    let expected = slow_answer(tally, world, list)?;
    Ok(
        agrees_on_excerpt(world, document, &expected)?
            && agrees_on_searches(tally, world, list, document)?,
    )
}

/// Returns whether both agree. Notes in the tally what the case shows.
fn agrees_in(
    tally: &mut Tally,
    world: &World<'_, '_>,
    document: &Document,
) -> Result<bool, AllocError>
    requires { first_bad_marking (spec.located document.now) ≡ None }
{
    let list = judge(world)?;
    note_case(tally, world, &list)?;
    agrees_by(tally, world, &list, document)
}

/// Returns whether both agree on a document for a reader.
fn agrees(
    alloc: Global,
    tally: &mut Tally,
    document: &Document,
    case: &Case,
    standing: &Standing,
) -> Result<bool, AllocError>
    requires { first_bad_marking (spec.located document.now) ≡ None }
{
    let lines = document.outline(alloc)?;
    let entries = located(alloc, &lines)?;
    let world = World {
        alloc,
        entries: entries.as_slice(),
        case,
        standing,
    };
    agrees_in(tally, &world, document)
}

/// Returns any case over the classes of the document.
pub fn case_over(alloc: Global, dice: &mut Dice, document: &Document) -> Result<Case, AllocError> {
    let classes = document.classes(alloc)?;
    any_case(alloc, dice, &classes)
}

/// Returns whether both agree on the document in this case, for any reader.
fn agrees_in_case(
    alloc: Global,
    tally: &mut Tally,
    dice: &mut Dice,
    document: &Document,
    case: &Case,
) -> Result<bool, AllocError>
    requires { first_bad_marking (spec.located document.now) ≡ None }
{
    let standing = any_standing(alloc, dice)?;
    agrees(alloc, tally, document, case, &standing)
}

/// Returns whether both agree on the document, for any case and reader.
fn agrees_for_any(
    alloc: Global,
    tally: &mut Tally,
    dice: &mut Dice,
    document: &Document,
) -> Result<bool, AllocError>
    requires { first_bad_marking (spec.located document.now) ≡ None }
{
    let case = case_over(alloc, dice, document)?;
    agrees_in_case(alloc, tally, dice, document, &case)
}

/// Returns whether both agree on the document. A report that isn't read, or isn't accepted, agrees on nothing.
fn agrees_on(
    alloc: Global,
    tally: &mut Tally,
    dice: &mut Dice,
    document: &Option<Document>,
) -> Result<bool, AllocError> {
    let Some(document) = document else {
        return Ok(false);
    };
    match check(alloc, document) {
        Ok(()) => agrees_for_any(alloc, tally, dice, document),
        Err(_) => Ok(false),
    }
}

/// Returns the document of a report, if it is read.
fn document_of(alloc: Global, text: &str) -> Option<Document> {
    Document::read(alloc, text.as_bytes()).ok()?.pop()
}

/// Returns the document of any report, if it is read.
pub fn any_document(alloc: Global, dice: &mut Dice) -> Result<Option<Document>, AllocError> {
    let text = report_text(alloc, dice)?;
    Ok(document_of(alloc, text.as_str()))
}

/// Returns whether both agree on the case of this seed.
pub fn agrees_at(alloc: Global, tally: &mut Tally, seed: u64) -> Result<bool, AllocError> {
    let mut dice = Dice::new(seed);
    let document = any_document(alloc, &mut dice)?;
    Ok(agrees_on(alloc, tally, &mut dice, &document)? && agree_by_lines(alloc, tally, seed)?)
}
