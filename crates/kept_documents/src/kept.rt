//! A document that is kept.
ghost use Rattle.std.specs.Prelude.{◌≡◌, ◌≤◌, None, IfSome};
ghost use Rattle.iodef_tree.specs.Paths.{located};
ghost use Rattle.marking.specs.Marks.{first_bad_marking};
ghost use Rattle.kept_documents.specs.Kept.{document_weight};

use crate::weight::{DOCUMENT_WEIGHT, room_left};
use iodef_tree::Document;
use marking::check;
use std::alloc::Global;
use std::marker::Model;

/// A document with its weight. Its markings were checked once, when it was kept, so an excerpt of it doesn't check them
/// again. Contracts see the document.
#[derive(Drop)]
pub(crate) struct Kept {
    document: Document,
    weight: usize,
}

impl Model for Kept {
    ghost use Rattle.std.specs.Prelude.{◌≡◌, List, None};
    ghost use Rattle.iodef_tree.specs.declared.line.Line.{Line};
    ghost use Rattle.iodef_tree.specs.Paths.{located};
    ghost use Rattle.marking.specs.Marks.{first_bad_marking};
    ghost use Rattle.kept_documents.specs.Kept.{document_weight};

    ghost Value = { List Line };

    ghost view = { λ k. k.document };

    ghost invariant = { λ k.
        (k.weight ≡ document_weight k.document) × (first_bad_marking (located k.document) ≡ None) };
}

impl Kept {
    /// Weighs a document, checks its markings, and copies it: a document that was read has vectors with room to grow,
    /// which isn't weighed. None if it weighs more than `room`, if its markings aren't accepted, or if the memory
    /// doesn't suffice.
    pub(crate) fn within(alloc: Global, document: &Document, room: usize) -> Option<Kept>
        ensures { IfSome result (λ k. (k ≡ document.now) × (document_weight k ≤ room)) }
    {
        let for_lines = room.checked_sub(DOCUMENT_WEIGHT)?;
        let left = room_left(document.root(), for_lines)?;
        match check(alloc, document) {
            Err(_) => None,
            Ok(()) => match document.copy(alloc) {
                Err(_) => None,
                Ok(document) => Some(Kept {
                    document,
                    weight: room - left,
                }),
            },
        }
    }

    pub(crate) fn weight(&self) -> usize
        ensures { result ≡ document_weight self.now }
    {
        self.weight
    }

    pub(crate) fn document(&self) -> &Document
        ensures document { result.now ≡ self.now }
        ensures marked { first_bad_marking (located result.now) ≡ None }
    {
        &self.document
    }
}
