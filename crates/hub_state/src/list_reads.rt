//! What the shelf in memory reads of a document.
ghost use Rattle.std.specs.Prelude.{◌≡◌, option_map, IfOk};
ghost use Rattle.hub_state.specs.Reads.{document_of, served_of_incident, met_by_incident};
ghost use Rattle.redact.specs.Excerpts.{told_by};
ghost use Rattle.hub_state.specs.Sound.{IsSound};

use crate::list_shelf::ListShelf;
use iodef_tree::Document;
use policy::{Case, Standing};
use redact::{Excerpt, Want, excerpt_if_marked, meets};
use std::alloc::AllocError;

impl ListShelf {
    pub(crate) fn find_document(&self, incident: u32) -> Result<Option<Document>, AllocError>
        ensures { IfOk result (λ found. found ≡ document_of incident self.now) }
    {
        match self.rows.incident(incident) {
            None => Ok(None),
            Some(incident) => Ok(Some(incident.document.copy(self.rows.alloc())?)),
        }
    }

    /// Reads the document in place; it copies only what is served.
    pub(crate) fn find_excerpt(
        &self,
        incident: u32,
        case: &Case,
        standing: &Standing,
    ) -> Result<Option<Excerpt>, AllocError>
        ensures { IfOk result (λ found.
            option_map told_by found ≡
            served_of_incident incident case.now standing.entry.now self.now) }
    {
        match self.rows.incident(incident) {
            None => Ok(None),
            Some(incident) => excerpt_if_marked(
                self.rows.alloc(),
                &incident.document,
                case,
                standing,
            ),
        }
    }

    /// Reads the document in place, and copies nothing of it.
    #[tactic(auto, using(crate::proofs::Marked::met_found))]
    pub(crate) fn find_met(
        &self,
        incident: u32,
        case: &Case,
        standing: &Standing,
        want: &Want,
    ) -> Result<bool, AllocError>
        ensures { IsSound self.now →
            IfOk result (λ met. met ≡
            met_by_incident incident case.now standing.entry.now want.now self.now) }
    {
        match self.rows.incident(incident) {
            None => Ok(false),
            Some(incident) => meets(self.rows.alloc(), &incident.document, case, standing, want),
        }
    }
}
