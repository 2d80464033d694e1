//! What the program prints.
ghost use Rattle.std.specs.Prelude.{◌≡◌, OnOk, IfOk, IfErr};
ghost use Rattle.std.specs.Io.KnownBytes.{Appends};
ghost use Rattle.hub_service.specs.Printing.{line_of, fault_lines, IsTold, HasEnded};
ghost use Rattle.hub_service.specs.Faults.{fault_status};

use crate::fault::Fault;
use crate::status::Status;
use std::io;
use std::io::Write;

/// Prints a text as it is. Fails with `WriteFailed` if it can't be written.
pub fn print<W: Write>(writer: &mut W, text: &str) -> Result<Status, Fault>
    ensures printed { OnOk result (Appends (W.contents writer.old) (W.contents writer.new) text.now) }
    ensures done { IfOk result (λ status. status ≡ Status.Done) }
    ensures fault { IfErr result (λ fault. fault ≡ Fault.WriteFailed) }
{
    match write_out(writer, text.as_bytes()) {
        Ok(()) => Ok(Status::Done),
        Err(_) => Err(Fault::WriteFailed),
    }
}

/// Writes the bytes, and what the writer has held back.
fn write_out<W: Write>(writer: &mut W, bytes: &[u8]) -> io::Result<()>
    ensures { OnOk result (Appends (W.contents writer.old) (W.contents writer.new) bytes.now) }
{
    writer.write_all(bytes)?;
    writer.flush()
}

/// Prints a fault's name, or its reason, on a line of its own to standard error. Returns the status, or `Failed` if it
/// can't be printed.
pub fn tell<E: Write>(errors: &mut E, line: &str, status: Status) -> Status
    ensures { IsTold (E.contents errors.old) (E.contents errors.new) (line_of line.now) status result }
{
    match writeln!(errors, "{line}") {
        Ok(()) => status,
        Err(_) => Status::Failed,
    }
}

/// Prints a fault's name and, if there is one, its reason on a second line: with the reason on the same line, scripts
/// would meet a name for each reason.
fn tell_fault<E: Write>(errors: &mut E, fault: Fault) -> Status
    ensures { IsTold (E.contents errors.old) (E.contents errors.new) (fault_lines fault)
        (fault_status fault) result }
{
    let status = tell(errors, fault.name(), fault.status());
    match fault.reason() {
        Some(reason) => tell(errors, reason.text(), status),
        None => status,
    }
}

/// Returns the program's outcome, and prints the fault if there is one.
pub fn end_with<E: Write>(errors: &mut E, outcome: Result<Status, Fault>) -> Status
    ensures { HasEnded (E.contents errors.old) (E.contents errors.new) outcome result }
{
    match outcome {
        Ok(status) => status,
        Err(fault) => tell_fault(errors, fault),
    }
}
