//! What the program prints on standard output and standard error.
ghost use Rattle.std.specs.Prelude.{◌≡◌, ◌++◌, ℕ, List, IfErr, IfOk, OnErr, codes};
ghost use Rattle.std.specs.Io.KnownBytes.{Appends, Keeps};
ghost use Rattle.redact_program.specs.Outcomes.{outcome_by, printed, remark_text};
ghost use Rattle.redact_program.specs.Runs.{Prints};
ghost use Rattle.redact_program.specs.Streams.{Tells, Writes};
ghost use Rattle.redact_program.specs.Answers.{remark_status};
ghost use Rattle.redact_program.specs.Troubles.{placed, reason_line, trouble_text, trouble_status};

use crate::answers::{Answered, Remark};
use crate::status::Status;
use crate::trouble::Trouble;
use std::io::{ErrorKind, Write};

/// Why the program prints nothing, and where: a JSON pointer into the view or the report, or an empty text.
#[derive(Drop)]
pub struct Located {
    pub trouble: Trouble,
    pub place: Vec<u8>,
}

/// A write failed.
#[derive(Clone, Copy, Debug, PartialEq, Eq)]
struct Unwritten;

/// Writes some of the bytes, if any are given, and returns the others; all of them if the write is interrupted.
fn put_some<'a, W: Write>(writer: &mut W, bytes: &'a [u8]) -> Result<&'a [u8], Unwritten>
    ensures ok { IfOk result (λ rest. (piece : List ℕ)
        × Appends (W.contents writer.old) (W.contents writer.new) piece
        × (bytes.entry.now ≡ piece ++ rest.now)) }
    ensures err { OnErr result (Keeps (W.contents writer.old) (W.contents writer.new)) }
{
    match writer.write(bytes) {
        Ok(0) => Err(Unwritten),
        Ok(count) => Ok(&bytes[count..]),
        Err(error) if error.kind() == ErrorKind::Interrupted => Ok(bytes),
        Err(_) => Err(Unwritten),
    }
}

/// Writes all bytes. If it fails, a beginning of them is written.
fn put<W: Write>(writer: &mut W, bytes: &[u8]) -> Result<(), Unwritten>
    ensures { Writes (W.contents writer.old) (W.contents writer.new) bytes.now result }
{
    let mut rest = bytes;
    for _ in 0..u64::MAX {
        if rest.is_empty() {
            return Ok(());
        }
        match put_some(writer, rest) {
            Ok(left) => rest = left,
            Err(unwritten) => return Err(unwritten),
        }
    }
    Err(Unwritten)
}

/// Writes two texts. If it fails, a beginning of both is written.
#[tactic(auto, using(crate::proofs::Writing::then_writes, crate::proofs::Writing::begins_longer))]
fn put_both<W: Write>(writer: &mut W, one: &[u8], two: &[u8]) -> Result<(), Unwritten>
    ensures { Writes (W.contents writer.old) (W.contents writer.new) (one.now ++ two.now) result }
{
    match put(writer, one) {
        Ok(()) => put(writer, two),
        Err(unwritten) => Err(unwritten),
    }
}

/// Prints an answer as it is, without a newline, so that callers in shell, C and Python get the same bytes. If it
/// fails, a beginning of it is printed.
fn print<W: Write>(writer: &mut W, answer: &[u8]) -> Result<(), Trouble>
    ensures written { Writes (W.contents writer.old) (W.contents writer.new) answer.now result }
    ensures trouble { IfErr result (λ t. t ≡ Trouble.WriteFailed) }
{
    match put(writer, answer) {
        Ok(()) => match writer.flush() {
            Ok(()) => Ok(()),
            Err(_) => Err(Trouble::WriteFailed),
        },
        Err(_) => Err(Trouble::WriteFailed),
    }
}

/// Writes a place, if there is one, behind a colon.
fn put_place<E: Write>(errors: &mut E, place: &[u8]) -> Result<(), Unwritten>
    ensures { Writes (E.contents errors.old) (E.contents errors.new) (placed place.now) result }
{
    match place {
        [] => Ok(()),
        _ => put_both(errors, b": ", place),
    }
}

/// Writes the end of a reason's line.
#[tactic(auto, using(crate::proofs::Writing::then_writes, crate::proofs::Writing::begins_longer))]
fn put_end<E: Write>(errors: &mut E, place: &[u8]) -> Result<(), Unwritten>
    ensures { Writes (E.contents errors.old) (E.contents errors.new)
        (placed place.now ++ codes "\n") result }
{
    match put_place(errors, place) {
        Ok(()) => put(errors, b"\n"),
        Err(unwritten) => Err(unwritten),
    }
}

/// Writes a reason, with the place if there is one.
#[tactic(auto, using(crate::proofs::Writing::then_writes, crate::proofs::Writing::begins_longer))]
fn put_reason<E: Write>(errors: &mut E, trouble: Trouble, place: &[u8]) -> Result<(), Unwritten>
    ensures { Writes (E.contents errors.old) (E.contents errors.new)
        (reason_line trouble place.now) result }
{
    match put(errors, trouble.reason().as_bytes()) {
        Ok(()) => put_end(errors, place),
        Err(unwritten) => Err(unwritten),
    }
}

/// Writes the name of a trouble, and the reason on a second line, with the place if there is one.
#[tactic(auto, using(crate::proofs::Writing::then_writes, crate::proofs::Writing::begins_longer))]
fn put_trouble<E: Write>(errors: &mut E, trouble: Trouble, place: &[u8]) -> Result<(), Unwritten>
    ensures { Writes (E.contents errors.old) (E.contents errors.new)
        (trouble_text trouble place.now) result }
{
    match put_both(errors, trouble.name().as_bytes(), b"\n") {
        Ok(()) => put_reason(errors, trouble, place),
        Err(unwritten) => Err(unwritten),
    }
}

/// Prints a trouble on standard error, and returns how the program ends.
pub fn tell<E: Write>(errors: &mut E, trouble: Trouble, place: &[u8]) -> Status
    ensures { Tells (E.contents errors.old) (E.contents errors.new)
        (trouble_text trouble place.now) (trouble_status trouble) result }
{
    match put_trouble(errors, trouble, place) {
        Ok(()) => trouble.status(),
        Err(_) => Status::Failed,
    }
}

/// Returns what is said on standard error of an answer.
fn text_of(remark: Remark) -> &'static [u8]
    ensures { result.now ≡ remark_text remark }
{
    match remark {
        Remark::Readable(true) => b"readable\n",
        Remark::Readable(false) => b"not readable\n",
        Remark::Nothing | Remark::Found(_) => b"",
    }
}

/// Says on standard error what else is said of an answer. Fails if standard error can't be written.
fn remark<E: Write>(errors: &mut E, remark: Remark) -> Status
    ensures { Tells (E.contents errors.old) (E.contents errors.new)
        (remark_text remark) (remark_status remark) result }
{
    match put(errors, text_of(remark)) {
        Ok(()) => remark.status(),
        Err(_) => Status::Failed,
    }
}

/// Prints the answer, or the trouble, and returns how the program ends.
pub fn end_with<W: Write, E: Write>(
    writer: &mut W,
    errors: &mut E,
    answer: Result<Answered, Located>,
) -> Status
    ensures { Prints (printed (outcome_by answer)) (W.contents writer.old) (W.contents writer.new)
        (E.contents errors.old) (E.contents errors.new) result }
{
    match answer {
        Ok(answer) => match print(writer, &answer.text) {
            Ok(()) => remark(errors, answer.remark),
            Err(trouble) => tell(errors, trouble, b""),
        },
        Err(located) => tell(errors, located.trouble, &located.place),
    }
}
