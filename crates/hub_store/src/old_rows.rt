//! Incidents as rows of version 1, where a document is one text.

ghost use Rattle.std.specs.Prelude.{◌≡◌, [], ◌∷◌, Ok, IfOk, IfErr};
ghost use Rattle.iodef_tree.specs.Reading.{reading};
ghost use Rattle.hub_state.specs.declared.state.Incident.{Incident as OldIncident};
ghost use Rattle.hub_store.specs.inner.Shown.{ShowsFirst};
ghost use Rattle.hub_store.specs.Failing.{IsUnheld};
ghost use Rattle.hub_store.specs.inner.Moving.{ShowsIncident, ShowsNaming, ShowsDocument, old_shown, IsReadable, ReadsFirst};

use crate::from_row::{NO_MEMORY, STRANGE};
use circle::text::Text;
use hub_state::{Incident, Naming};
use iodef_tree::{Document, ReadFault};
use sqlite::{Error, Row};
use std::alloc::Global;

/// The one document that the text reads as.
fn only_document(alloc: Global, text: &str) -> Result<Document, Error>
    ensures value { IfOk result (λ document. reading text.now ≡ Ok (document ∷ [])) }
    ensures cause { (document : _) → reading text.now ≡ Ok (document ∷ []) → IfErr result IsUnheld }
{
    match Document::read(alloc, text.as_bytes()) {
        Ok(documents) => only_of(documents),
        Err(ReadFault::NoMemory) => Err(NO_MEMORY),
        Err(_) => Err(STRANGE),
    }
}

fn only_of(mut documents: Vec<Document>) -> Result<Document, Error>
    ensures value { IfOk result (λ document. documents.items ≡ document ∷ []) }
    ensures cause { (document : _) → documents.items ≡ document ∷ [] → IfErr result IsUnheld }
{
    if documents.len() != 1 {
        return Err(STRANGE);
    }
    match documents.pop() {
        None => Err(STRANGE),
        Some(document) => Ok(document),
    }
}

/// The naming in a row. In version 1 no incident names a community.
fn naming_of(row: &Row) -> Result<Naming, Error>
    ensures value { IfOk result (ShowsNaming row.now) }
    ensures cause { (i : OldIncident) → row.now ≡ old_shown i → IsReadable i →
        IfErr result IsUnheld }
{
    Ok(Naming {
        number: row.get(0)?,
        source: row.get(1)?,
        ident: Text::new(row.get(2)?),
        revision: row.get(3)?,
        community: None,
    })
}

fn document_of(alloc: Global, row: &Row) -> Result<Document, Error>
    ensures value { IfOk result (ShowsDocument row.now) }
    ensures cause { (i : OldIncident) → row.now ≡ old_shown i → IsReadable i →
        IfErr result IsUnheld }
{
    let text: String = row.get(4)?;
    only_document(alloc, text.as_str())
}

fn incident_of(alloc: Global, row: &Row) -> Result<Incident, Error>
    ensures value { IfOk result (ShowsIncident row.now) }
    ensures cause { (i : OldIncident) → row.now ≡ old_shown i → IsReadable i →
        IfErr result IsUnheld }
{
    let naming = naming_of(row)?;
    let document = document_of(alloc, row)?;
    Ok(Incident { naming, document })
}

/// The incident in the first row. None if there is no row.
pub(crate) fn first_incident(alloc: Global, rows: &[Row]) -> Result<Option<Incident>, Error>
    ensures value { IfOk result (λ found. ShowsFirst ShowsIncident rows.now found) }
    ensures cause { ReadsFirst rows.now → IfErr result IsUnheld }
{
    match rows.first() {
        None => Ok(None),
        Some(row) => Ok(Some(incident_of(alloc, row)?)),
    }
}
