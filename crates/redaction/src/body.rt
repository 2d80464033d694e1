//! An excerpt as a JSON text (RFC 8259).
ghost use Rattle.std.specs.Prelude.{◌≡◌, ◌++◌, OnOk, IfOk, map, true};
ghost use Rattle.serde_json.specs.Data.{object, array};
ghost use Rattle.serde_json.specs.View.{items_of};
ghost use Rattle.serde_json.specs.Written.{comma_if, compact_text};
ghost use Rattle.iodef_tree.specs.Json.{data_of};
ghost use Rattle.redact.specs.Excerpts.{told_by};
ghost use Rattle.redaction.specs.Answers as spec;

use crate::highest::{highest, tlp_name};
use crate::readable::is_readable;
use iodef_tree::{Document, Path};
use json::Token;
use json_text::{Refused, Sink, Source, Tokens, bytes_of};
use marking::Handling;
use policy::Rule;
use redact::Excerpt;
use std::alloc::{AllocError, Global};

/// Puts one pair of the list `withheld`.
fn put_withheld_pair<S: Sink>(out: &mut Tokens<S>, pair: &(Path, Rule)) -> Result<(), Refused>
    ensures puts { OnOk result (S.puts out.old.sink (comma_if out.old.after_value ++
        compact_text (spec.withheld_pair pair.now)) out.new.sink) }
    ensures after { OnOk result (out.new.after_value ≡ true) }
{
    out.token(Token::BeginArray)?;
    out.pointer(&pair.0)?;
    out.token(Token::String(pair.1.name()))?;
    out.token(Token::EndArray)
}

/// Puts the list `withheld`.
fn put_withheld<S: Sink>(out: &mut Tokens<S>, pairs: &[(Path, Rule)]) -> Result<(), Refused>
    ensures puts { OnOk result (S.puts out.old.sink (comma_if out.old.after_value ++
        compact_text (array (items_of (map spec.withheld_pair pairs.now)))) out.new.sink) }
    ensures after { OnOk result (out.new.after_value ≡ true) }
{
    out.token(Token::BeginArray)?;
    for pair in pairs {
        put_withheld_pair(out, pair)?;
    }
    out.token(Token::EndArray)
}

/// Puts the whole excerpt.
fn put_excerpt<S: Sink>(
    out: &mut Tokens<S>,
    excerpt: &Excerpt,
    arranged: Option<Handling>,
) -> Result<(), Refused>
    ensures puts { OnOk result (S.puts out.old.sink (comma_if out.old.after_value ++
        compact_text (spec.excerpt_object arranged (told_by excerpt.now))) out.new.sink) }
    ensures after { OnOk result (out.new.after_value ≡ true) }
{
    out.token(Token::BeginObject)?;
    out.number_member("classes", excerpt.classes)?;
    out.name("document")?;
    out.document(&excerpt.document)?;
    out.text_member("label", tlp_name(highest(&excerpt.document, arranged)))?;
    out.flag_member("readable", is_readable(&excerpt.document))?;
    out.name("withheld")?;
    put_withheld(out, excerpt.withheld.as_slice())?;
    out.token(Token::EndObject)
}

/// What is written of an excerpt.
#[derive(Clone, Copy, Drop)]
pub(crate) enum Body<'a> {
    /// The whole excerpt: its document, how many classes are visible, its highest label, whether it is a report again,
    /// and what is withheld. The label depends on what is arranged with the reader's organisation.
    Whole(&'a Excerpt, Option<Handling>),
    /// A document.
    Document(&'a Document),
}

impl<'a> Body<'a> {
    ghost use Rattle.redaction.specs.inner.Bodies.{body_text};

    /// Puts it.
    fn put<S: Sink>(&self, out: &mut Tokens<S>) -> Result<(), Refused>
        ensures { OnOk result (S.puts out.old.sink
            (comma_if out.old.after_value ++ body_text self.now) out.new.sink) }
    {
        match self {
            Body::Whole(excerpt, arranged) => put_excerpt(out, excerpt, *arranged),
            Body::Document(document) => out.document(document),
        }
    }
}

impl<'a> Source for Body<'a> {
    ghost use Rattle.redaction.specs.inner.Bodies.{body_text};

    ghost bytes = { body_text };

    fn put_into<S: Sink + Drop>(&self, sink: S) -> Result<S, Refused> {
        let mut out = Tokens::new(sink);
        self.put(&mut out)?;
        Ok(out.sink)
    }
}

/// Returns the bytes of the whole excerpt.
pub(crate) fn excerpt_bytes(
    alloc: Global,
    excerpt: &Excerpt,
    arranged: Option<Handling>,
) -> Result<Vec<u8>, AllocError>
    ensures { IfOk result (λ v. v.items ≡
        compact_text (spec.excerpt_object arranged (told_by excerpt.now))) }
{
    bytes_of(alloc, &Body::Whole(excerpt, arranged))
}

/// Returns the bytes of a document.
pub(crate) fn document_bytes(alloc: Global, document: &Document) -> Result<Vec<u8>, AllocError>
    ensures { IfOk result (λ v. v.items ≡ compact_text (object (data_of document.now))) }
{
    bytes_of(alloc, &Body::Document(document))
}
