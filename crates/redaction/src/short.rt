//! The short form of a view: the clearance of the reader, and nothing else.
ghost use Rattle.std.specs.Prelude.{◌≡◌, IfOk};
ghost use Rattle.json.specs.Value.{value_view};
ghost use Rattle.redaction.specs.Described as spec;

use crate::both::{Read, both};
use crate::now::now_in;
use crate::place::Part;
use crate::reader::wanted_handling;
use crate::value::{number_or_zero, only};
use crate::view::View;
use iodef_tree::Path;
use json::Value;
use marking::Handling;
use policy::{Case, Gate, Gates, Permissions, Standing};
use std::alloc::{AllocError, Global};

/// Returns a case whose gates and permissions change nothing.
fn open_case(alloc: Global) -> Result<Case, AllocError>
    ensures { IfOk result (λ c. c ≡ spec.open_case) }
{
    let mut gates = Vec::new(alloc);
    gates.push(Gate {
        path: Path::root(alloc),
        level: 3,
        group: None,
    })?;
    Ok(Case {
        source: 1,
        community: None,
        gates: Gates::new(gates),
        permissions: Permissions::new(Vec::new(alloc)),
    })
}

/// Returns a reader of another organisation who is cleared for this handling, and for nothing stricter. Allocates
/// nothing.
pub(crate) fn cleared_reader(alloc: Global, handling: Handling) -> Standing
    ensures { result ≡ spec.cleared_reader handling }
{
    let mut reader = Standing::stranger(alloc, 2, 2);
    match handling {
        Handling::Clear => {}
        Handling::Green => reader.peer = true,
        Handling::Amber => {
            reader.nominated = true;
            reader.client = true;
        }
        Handling::Strict => {
            reader.nominated = true;
            reader.addressed = true;
        }
        Handling::Red => reader.person = true,
    }
    reader
}

/// Returns the view that an object in the short form says. It may name the Incident, as a report may have 16, and the
/// moment, which is wanted if `is_dated`.
#[tactic(auto, unfolding(crate::specs::Described::short_in))]
pub(crate) fn short_in(
    alloc: Global,
    is_dated: bool,
    value: &Value<'_>,
) -> Result<Read<View>, AllocError>
    ensures { IfOk result (λ r. r ≡ spec.short_in is_dated (value_view value.now)) }
{
    let names = only(value, &[Part::Clearance, Part::Incident, Part::Now]);
    let clearance = wanted_handling(value, Part::Clearance);
    let now = now_in(alloc, is_dated, value)?;
    let others = both(number_or_zero(value, Part::Incident), now);
    match both(both(names, clearance), others) {
        Ok((((), clearance), (incident, (_moment, said)))) => Ok(Ok(View {
            incident,
            case: open_case(alloc)?,
            reader: cleared_reader(alloc, clearance),
            said,
        })),
        Err(refusal) => Ok(Err(refusal)),
    }
}
