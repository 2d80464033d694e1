//! What the source of a body has posted before, by a shelf's look-ups.
ghost use Rattle.std.specs.Prelude.{◌≡◌, IfOk, option_map};
ghost use Rattle.hub_state.specs.Documents.{documents_in, ident_of};
ghost use Rattle.hub_state.specs.Facts.{posted_of, posted_in};
ghost use Rattle.hub_state.specs.Shelves.{Finds};
ghost use Rattle.hub_state.specs.State.{State, incident_named, incident_number};

use crate::bytes::Bytes;
use crate::look_ups::LookUps;
use crate::request::Request;
use crate::shelf::ShelfFault;
use circle::directory::Person;
use circle::text::Text;
use iodef_tree::{Document, ReadFault};
use std::alloc::{AllocError, Global};

fn ident_in(alloc: Global, document: &Document) -> Result<Text, AllocError>
    ensures { IfOk result (λ t. t ≡ ident_of document.now) }
{
    match document.incident_id(alloc)? {
        None => Ok(Text::new(String::new(alloc))),
        Some(ident) => Ok(Text::new(ident)),
    }
}

/// The number of the incident that the source has posted under the document's ident.
fn posted_as<L: LookUps>(
    shelf: &mut L,
    alloc: Global,
    source: u32,
    document: &Document,
) -> Result<Option<u32>, ShelfFault>
    ensures { Finds L.has L.doubts L.failed L.may_remain shelf.old shelf.new result (λ s.
        IfOk result (λ number. number ≡
        option_map incident_number (incident_named source (ident_of document.now) s))) }
{
    let ident = ident_in(alloc, document)?;
    shelf.number_of(source, &ident)
}

/// The number of the first incident of the documents that the source has posted before.
fn posted_among<L: LookUps>(
    shelf: &mut L,
    alloc: Global,
    source: u32,
    documents: &[Document],
) -> Result<Option<u32>, ShelfFault>
    ensures { Finds L.has L.doubts L.failed L.may_remain shelf.old shelf.new result (λ s.
        IfOk result (λ number. number ≡ posted_in s source documents.now)) }
{
    for document in documents {
        let posted = posted_as(shelf, alloc, source, document)?;
        if posted.is_some() {
            return Ok(posted);
        }
    }
    Ok(None)
}

/// The number of the first incident of a body that the source has posted before.
fn posted_in<L: LookUps>(
    shelf: &mut L,
    alloc: Global,
    source: u32,
    body: &Bytes,
) -> Result<Option<u32>, ShelfFault>
    ensures { Finds L.has L.doubts L.failed L.may_remain shelf.old shelf.new result (λ s.
        IfOk result (λ number. number ≡ posted_in s source (documents_in body.now))) }
{
    match Document::read(alloc, body.as_slice()) {
        Ok(documents) => posted_among(shelf, alloc, source, &documents),
        Err(ReadFault::NoMemory) => Err(ShelfFault::NoMemory),
        Err(_) => Ok(None),
    }
}

/// The number of the first incident of a Post's body that the actor's organisation has posted before.
pub(crate) fn find_posted<L: LookUps>(
    shelf: &mut L,
    alloc: Global,
    actor: &Person,
    request: &Request,
) -> Result<Option<u32>, ShelfFault>
    ensures { Finds L.has L.doubts L.failed L.may_remain shelf.old shelf.new result (λ s.
        IfOk result (λ number. number ≡ posted_of s actor.now request.now)) }
{
    match request {
        Request::Post(asked) => posted_in(shelf, alloc, actor.org, &asked.document),
        _ => Ok(None),
    }
}
