//! Where a report's fault is, and what helps.
ghost use Rattle.std.specs.Prelude.{◌≡◌, ◌++◌, IfOk, OnOk, codes, string_bytes};
ghost use Rattle.json.specs.Print.{quoted};
ghost use Rattle.iodef_tree.specs.Pointer.{pointer_text};
ghost use Rattle.input_hints.specs.Marks.{mark_of};
ghost use Rattle.input_hints.specs.Hints as spec;

use crate::mark::ByteOrderMark;
use iodef_tree::{Path, ReadFault, Required, push_quoted};
use std::alloc::{AllocError, Global};

/// Returns words about a place, with the place before them as a quoted JSON pointer: a member's name may have any
/// character, also one that would change the terminal.
pub fn placed(alloc: Global, path: &Path, words: &str) -> Result<String, AllocError>
    ensures { IfOk result (λ s. string_bytes s ≡ spec.placed path.now words.now) }
{
    let pointer = path.print(alloc)?;
    let mut text = String::from_str(alloc, "path ")?;
    push_quoted(alloc, &mut text, pointer.as_str())?;
    text.push_str(": ")?;
    text.push_str(words)?;
    Ok(text)
}

fn lacking(alloc: Global, path: &Path, member: Required) -> Result<String, AllocError>
    ensures { IfOk result (λ s. string_bytes s ≡ spec.placed path.now (spec.lacking_hint member)) }
{
    let mut words = String::from_str(alloc, "it lacks ")?;
    words.push_str(member.name())?;
    words.push_str(", which may have any value")?;
    placed(alloc, path, words.as_str())
}

/// What is wrong with bytes that are no JSON text.
fn bytes_hint(body: &[u8]) -> &'static str
    ensures { result.now ≡ spec.bytes_hint (mark_of body.now) }
{
    match ByteOrderMark::of(body) {
        Some(mark) => mark.hint(),
        None => "it isn't JSON in UTF-8: 'python3 -m json.tool FILE' names the line",
    }
}

/// Returns where the fault of reading this body is, and what helps.
pub fn read_hint(alloc: Global, fault: &ReadFault, body: &[u8]) -> Result<String, AllocError>
    ensures { IfOk result (λ s. string_bytes s ≡ spec.read_hint fault.now body.now) }
{
    match fault {
        ReadFault::Missing(path, member) => lacking(alloc, path, *member),
        ReadFault::NotWhole(path) => placed(alloc, path, NOT_WHOLE),
        ReadFault::NestedClass(path) => placed(alloc, path, NESTED_CLASS),
        ReadFault::NotJson => String::from_str(alloc, bytes_hint(body)),
        ReadFault::NotDocument => String::from_str(alloc, NOT_DOCUMENT),
        ReadFault::TooDeep => String::from_str(alloc, TOO_DEEP),
        ReadFault::TooManyLines => String::from_str(alloc, TOO_MANY_LINES),
        ReadFault::NoMemory => String::from_str(alloc, "memory ran out"),
    }
}

const NOT_DOCUMENT: &str =
    "it isn't an object with an array Incident of objects, or has too many: put brackets around a single Incident, or split the report";

const NOT_WHOLE: &str =
    "a number with a fraction or an exponent, -0, or one beyond 64 bits: write a whole number, or a text";

const NESTED_CLASS: &str = "an object in an array inside an array: remove the inner brackets";

const TOO_DEEP: &str =
    "a member is inside too many objects, or an array inside too many arrays: write the deep part as a text";

const TOO_MANY_LINES: &str =
    "an Incident has too many lines: split long lists among Incidents or reports";
