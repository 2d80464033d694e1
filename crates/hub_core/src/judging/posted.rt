//! A document of a body, with its ident.
ghost use Rattle.std.specs.Prelude.{◌≡◌, IfOk};
ghost use Rattle.hub_state.specs.Documents.{ident_of};

use circle::text::Text;
use iodef_tree::Document;
use std::alloc::{AllocError, Global};
use std::marker::Model;

/// A document of a body, and the compact JSON of its `IncidentID` (RFC 7970 section 3.4). Contracts see the document.
#[derive(Drop)]
pub struct Posted {
    document: Document,
    ident: Text,
}

impl Model for Posted {
    ghost use Rattle.std.specs.Prelude.{◌≡◌, List};
    ghost use Rattle.iodef_tree.specs.declared.line.Line.{Line};
    ghost use Rattle.hub_state.specs.Documents.{ident_of};

    ghost Value = { List Line };

    ghost view = { λ p. p.document };

    ghost invariant = { λ p. p.ident ≡ ident_of p.document };
}

impl Posted {
    /// Makes it of a document. Fails if the memory doesn't suffice.
    pub fn new(alloc: Global, document: Document) -> Result<Posted, AllocError>
        ensures { IfOk result (λ p. p ≡ document) }
    {
        let ident = match document.incident_id(alloc)? {
            Some(ident) => Text::new(ident),
            None => Text::new(String::new(alloc)),
        };
        Ok(Posted { document, ident })
    }

    /// Returns the document.
    pub fn document(&self) -> &Document
        ensures { result.now ≡ self.now }
    {
        &self.document
    }

    /// Returns the document's ident.
    pub fn ident(&self) -> &Text
        ensures { result.now ≡ ident_of self.now }
    {
        &self.ident
    }

    /// Returns the document and its ident. Takes no memory.
    pub fn into_parts(self) -> (Document, Text)
        ensures document { result.0 ≡ self }
        ensures ident { result.1 ≡ ident_of self }
    {
        (self.document, self.ident)
    }
}
