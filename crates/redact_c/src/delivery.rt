//! An answer, or several, in the caller's bytes.
ghost use Rattle.std.specs.Prelude.{◌≡◌, length, map, IfOk, IfErr};
ghost use Rattle.std.specs.List.{flat_map};
ghost use Rattle.redaction.specs.Answers.{excerpt_texts, text_by, texts_by};
ghost use Rattle.redaction.specs.Outcome.{YieldsAs};
ghost use Rattle.redaction.specs.Faults.{fault_number};
ghost use Rattle.redact_c.specs.Delivery.{Placed, descriptions_of, text_of, told, told_each, refused};

use redaction::Fault;
use std::alloc::{AllocError, Global};

/// One of several views: its description, and what is told of its answer.
#[repr(C)]
pub struct Asked<'a> {
    /// The view description.
    pub view: &'a [u8],
    /// The length of its answer in bytes; 0 on a fault.
    pub needed: usize,
    /// 0 if there is an answer, and otherwise the number of its fault.
    pub fault: u32,
}

/// Copies the text to the beginning of `out` if it fits, and sets `needed` to the length of the text.
fn place(text: &[u8], out: &mut [u8], needed: &mut usize)
    ensures { Placed text.now needed.new out.old out.new }
{
    *needed = text.len();
    // Whole or not at all: a part of a JSON text is cut off, and a part of some lines looks whole.
    if text.len() <= out.len() {
        out[..text.len()].copy_from_slice(text);
    }
}

/// Copies an answer to `out` and returns 0. On a fault returns its number, sets `needed` to 0 and leaves `out` as it
/// is.
pub(crate) fn deliver(answer: Result<Vec<u8>, Fault>, out: &mut [u8], needed: &mut usize) -> u32
    ensures placed { IfOk answer (λ v. Placed v.items needed.new out.old out.new) }
    ensures answered { IfOk answer (λ v. result ≡ 0) }
    ensures numbered { IfErr answer (λ e. result ≡ fault_number e) }
    ensures uncounted { IfErr answer (λ e. needed.new ≡ 0) }
    ensures untouched { IfErr answer (λ e. out.new ≡ out.old) }
{
    match answer {
        Ok(text) => {
            place(text.as_slice(), out, needed);
            0
        }
        Err(fault) => {
            // Not left alone, so that a caller who ignores the number reads no old length.
            *needed = 0;
            fault.number()
        }
    }
}

/// Returns the view descriptions.
fn descriptions<'a>(alloc: Global, asked: &[Asked<'a>]) -> Result<Vec<&'a [u8]>, AllocError>
    ensures views { IfOk result (λ v. map (λ d. d.now) v.items ≡ descriptions_of asked.now) }
    ensures each { IfOk result (λ v. length v.items ≡ length asked.now) }
{
    let mut views = Vec::new(alloc);
    for one in asked {
        views.push(one.view)?;
    }
    Ok(views)
}

/// Returns the text of an answer; none of a fault.
fn text_in(answer: &Result<Vec<u8>, Fault>) -> &[u8]
    ensures { result.now ≡ text_of (text_by answer.now) }
{
    match answer {
        Ok(text) => text.as_slice(),
        Err(_) => &[],
    }
}

/// Returns the texts of the answers, one behind the other.
#[tactic(auto, using(crate::proofs::Several::join_step))]
fn joined(alloc: Global, answers: &[Result<Vec<u8>, Fault>]) -> Result<Vec<u8>, AllocError>
    ensures { IfOk result (λ v. v.items ≡ flat_map text_of (texts_by answers.now)) }
{
    let mut texts = Vec::new(alloc);
    for answer in answers {
        texts.extend_from_slice(text_in(answer))?;
    }
    Ok(texts)
}

/// The answers for several views, and their texts one behind the other.
#[derive(Drop)]
pub(crate) struct Answers {
    each: Vec<Result<Vec<u8>, Fault>>,
    texts: Vec<u8>,
}

/// Returns the answers of [`redaction::excerpts`] for these views.
pub(crate) fn answers_of(
    alloc: Global,
    report: &[u8],
    asked: &[Asked<'_>],
) -> Result<Answers, Fault>
    ensures answers { YieldsAs (λ a. texts_by a.each.items) result
        (excerpt_texts report.now (descriptions_of asked.now)) }
    ensures each { IfOk result (λ a. length a.each.items ≡ length asked.now) }
    ensures joined { IfOk result (λ a. a.texts.items ≡ flat_map text_of (texts_by a.each.items)) }
{
    let views = descriptions(alloc, asked)?;
    let each = redaction::excerpts(alloc, report, views.as_slice())?;
    let texts = joined(alloc, each.as_slice())?;
    Ok(Answers { each, texts })
}

/// Sets what is told of an answer.
fn tell(one: &mut Asked<'_>, answer: &Result<Vec<u8>, Fault>)
    ensures { one.new ≡ told one.old (text_by answer.now) }
{
    match answer {
        Ok(text) => {
            one.needed = text.len();
            one.fault = 0;
        }
        Err(fault) => {
            one.needed = 0;
            one.fault = fault.number();
        }
    }
}

/// Sets what is told of each answer.
#[tactic(auto, using(crate::proofs::Several::tell_end))]
fn tell_each(asked: &mut [Asked<'_>], answers: &[Result<Vec<u8>, Fault>])
    requires { length asked.old ≡ length answers.now }
    ensures { asked.new ≡ told_each asked.old (texts_by answers.now) }
{
    for (i, one) in asked.iter_mut().enumerate() {
        tell(one, &answers[i]);
    }
}

/// Tells the fault of the call of a view.
fn refuse(one: &mut Asked<'_>, number: u32)
    ensures { one.new ≡ refused number one.old }
{
    one.needed = 0;
    one.fault = number;
}

/// Tells the fault of the call of each view.
fn refuse_each(asked: &mut [Asked<'_>], number: u32)
    ensures { asked.new ≡ map (refused number) asked.old }
{
    for one in asked.iter_mut() {
        refuse(one, number);
    }
}

/// Copies the texts of the answers to `out`, tells each view its answer, and returns 0. On a fault returns its number,
/// tells it each view, sets `needed` to 0 and leaves `out` as it is.
pub(crate) fn deliver_each(
    answers: Result<Answers, Fault>,
    asked: &mut [Asked<'_>],
    out: &mut [u8],
    needed: &mut usize,
) -> u32
    requires { IfOk answers (λ a. length asked.old ≡ length a.each.items) }
    ensures placed { IfOk answers (λ a. Placed a.texts.items needed.new out.old out.new) }
    ensures each_told { IfOk answers (λ a. asked.new ≡ told_each asked.old (texts_by a.each.items)) }
    ensures answered { IfOk answers (λ a. result ≡ 0) }
    ensures numbered { IfErr answers (λ e. result ≡ fault_number e) }
    ensures each_refused { IfErr answers (λ e. asked.new ≡ map (refused (fault_number e)) asked.old) }
    ensures uncounted { IfErr answers (λ e. needed.new ≡ 0) }
    ensures untouched { IfErr answers (λ e. out.new ≡ out.old) }
{
    match answers {
        Ok(answers) => {
            tell_each(asked, answers.each.as_slice());
            place(answers.texts.as_slice(), out, needed);
            0
        }
        Err(fault) => {
            let number = fault.number();
            refuse_each(asked, number);
            *needed = 0;
            number
        }
    }
}
