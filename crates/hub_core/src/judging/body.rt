//! The documents of a body, and the refusal of one that isn't accepted.
ghost use Rattle.std.specs.Prelude.{◌≡◌, [], ◌∷◌, map, IfOk, codes, string_bytes};
ghost use Rattle.std.specs.List.{list_any};
ghost use Rattle.std.specs.Str.{bytes_eq};
ghost use Rattle.circle.specs.Refusals.{bad};
ghost use Rattle.circle.specs.declared.refusal.Code.TheVariants.{B1};
ghost use Rattle.hub_state.specs.Documents.{Lines, documents_in, fault_in, fault_told, ident_of, marking_told, bad_marking};
ghost use Rattle.hub_core.specs.Refusals.{because, stands_twice};
ghost use Rattle.hub_core.specs.inner.Asked.{Asks};

use crate::judging::posted::Posted;
use crate::judging::stop::Stop;
use circle::refusal::{Code, Refusal};
use circle::text::Text;
use iodef_tree::{Document, Path, ReadFault};
use marking::{MarkingFault, check};
use std::alloc::{AllocError, Global};

/// Reads the documents of a body, one for each Incident. Refuses a body that can't be read with `B1`.
pub fn documents(alloc: Global, body: &[u8]) -> Result<Vec<Posted>, Stop>
    ensures asked { Asks (because B1 (fault_in body.now) ∷ []) result }
    ensures read { IfOk result (λ docs. docs.items ≡ documents_in body.now) }
{
    match Document::read(alloc, body) {
        Ok(documents) => Ok(with_idents(alloc, documents)?),
        Err(ReadFault::NoMemory) => Err(Stop::NoMemory),
        Err(fault) => Err(bad_because(fault_text(alloc, &fault)?)),
    }
}

fn with_idents(alloc: Global, documents: Vec<Document>) -> Result<Vec<Posted>, AllocError>
    ensures { IfOk result (λ all. all.items ≡ documents.items) }
{
    let mut all = Vec::with_capacity(alloc, documents.len())?;
    for document in documents {
        all.push(Posted::new(alloc, document)?)?;
    }
    Ok(all)
}

/// Whether two documents have the same ident.
pub fn have_twins(documents: &[Posted]) -> bool
    ensures { result ≡ stands_twice (map ident_of documents.now) }
{
    for (place, document) in documents.iter().enumerate() {
        if is_among(document.ident(), &documents[place + 1..]) {
            return true;
        }
    }
    false
}

fn is_among(ident: &Text, documents: &[Posted]) -> bool
    ensures { result ≡ list_any (λ (doc : Lines). bytes_eq ident.now (ident_of doc)) documents.now }
{
    documents.iter().any(|document| ident == document.ident())
}

fn bad_because(told: String) -> Stop
    ensures { result ≡ Stop.Refused (record { code = B1; detail = string_bytes told }) }
{
    Stop::Refused(Refusal {
        code: Code::B1,
        detail: Text::new(told),
    })
}

/// The fault's name, then the pointer and the missing member if the fault has them.
fn fault_text(alloc: Global, fault: &ReadFault) -> Result<String, AllocError>
    ensures { IfOk result (λ s. string_bytes s ≡ fault_told fault.now) }
{
    let name = fault.name();
    match fault {
        ReadFault::Missing(path, member) => {
            let pointer = path.print(alloc)?;
            format!(in alloc; "{name} {pointer} {}", member.name())
        }
        ReadFault::NotWhole(path) | ReadFault::NestedClass(path) => {
            let pointer = path.print(alloc)?;
            format!(in alloc; "{name} {pointer}")
        }
        _ => String::from_str(alloc, name),
    }
}

/// Refuses the first document with a bad marking. The detail has its place in the body and the pointer of the class.
pub fn well_marked(alloc: Global, documents: &[Posted]) -> Result<(), Stop>
    ensures { Asks (because B1 (bad_marking documents.now) ∷ []) result }
{
    for (place, document) in documents.iter().enumerate() {
        match check(alloc, document.document()) {
            Ok(()) => {}
            Err(MarkingFault::BadMarking(path)) => {
                return Err(bad_because(marking_text(alloc, place, &path)?));
            }
            Err(MarkingFault::NoMemory) => return Err(Stop::NoMemory),
        }
    }
    Ok(())
}

fn marking_text(alloc: Global, place: usize, path: &Path) -> Result<String, AllocError>
    ensures { IfOk result (λ s. string_bytes s ≡ marking_told place path.now) }
{
    let pointer = path.print(alloc)?;
    format!(in alloc; "BadMarking {place} {pointer}")
}
