//! A search in what a reader may see.
ghost use Rattle.std.specs.Prelude.{◌≡◌, option_map, option_copied, IfOk};
ghost use Rattle.redaction.specs.Outcome.{Yields, YieldsAs};
ghost use Rattle.redaction.specs.Answers as spec;
ghost use Rattle.redaction.specs.Words as words;

use crate::asked::read_asked;
use crate::fault::Fault;
use crate::view::read_view;
use std::alloc::{AllocError, Global};

/// Returns the bytes as a text. Fails with NotUtf8.
pub(crate) fn word_of(bytes: &[u8]) -> Result<&str, Fault>
    ensures { YieldsAs (λ t. t.now) result (words.word_of bytes.now) }
{
    match std::str::from_utf8(bytes) {
        Ok(text) => Ok(text),
        Err(_) => Err(Fault::NotUtf8),
    }
}

/// Returns the same of bytes that may be missing.
fn some_word_of(bytes: Option<&[u8]>) -> Result<Option<&str>, Fault>
    ensures { YieldsAs option_copied result (words.some_word_of (option_copied bytes.entry)) }
{
    match bytes {
        None => Ok(None),
        Some(bytes) => Ok(Some(word_of(bytes)?)),
    }
}

/// Returns a truth value as JSON writes it.
fn truth_bytes(alloc: Global, truth: bool) -> Result<Vec<u8>, AllocError>
    ensures { IfOk result (λ v. v.items ≡ spec.truth_text truth) }
{
    if truth {
        Vec::from_slice(alloc, b"true")
    } else {
        Vec::from_slice(alloc, b"false")
    }
}

/// Returns `true` if a class that the reader of a view description may see directly holds a text that contains
/// `needle`, byte for byte; else `false`. If `class` is given, only classes of that name are searched. A reader who
/// sees no class finds nothing.
///
/// Fails with the first fault in the order of [`Fault`].
#[tactic(auto, unfolding(crate::specs::Answers::finds_text))]
pub fn finds(
    alloc: Global,
    report: &[u8],
    description: &[u8],
    needle: &[u8],
    class: Option<&[u8]>,
) -> Result<Vec<u8>, Fault>
    ensures { YieldsAs (λ v. v.items) result
        (spec.finds_text report.now description.now needle.now (option_copied class.entry)) }
{
    let view = read_view(alloc, false, description)?;
    let needle = word_of(needle)?;
    let class = some_word_of(class)?;
    let asked = read_asked(alloc, report, view)?;
    let found = redact::finds(
        alloc,
        &asked.document,
        &asked.case,
        &asked.reader,
        needle,
        class,
    )?;
    Ok(truth_bytes(alloc, found)?)
}
