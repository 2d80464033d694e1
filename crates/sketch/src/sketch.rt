//! The sketch of a document.

ghost use Rattle.std.specs.Prelude.{◌≡◌, None, is_none, IfOk, map, length, replicate};
ghost use Rattle.std.specs.List.{list_any};
ghost use Rattle.iodef_tree.specs.Paths.{located};
ghost use Rattle.marking.specs.Marks.{first_bad_marking};
ghost use Rattle.sketch.specs.Sketched.{runs_in, handled_runs_in, names_in, text_bytes as bytes_of, IsSizeFor, Summarises, IsSketchOf};
ghost use Rattle.sketch.specs.inner.Held.{shown};
ghost use Rattle.sketch.specs.inner.Puts.{put_all};

use crate::bits::Bits;
use crate::holding::{Holding, holdings};
use crate::labels::{handlings, least};
use crate::runs::{base_of, number, put_runs};
use crate::sizes::{size_for, text_bytes};
use iodef_tree::Document;
use marking::{Handling, MarkingFault, check};
use std::alloc::{AllocError, Global};

/// The size of the set of names, in bytes.
const NAMES_SIZE: usize = 32;

/// What is kept of a document whose markings are accepted.
#[derive(Drop)]
pub struct Summary {
    /// Whether there is a class.
    pub(crate) classes: bool,
    /// Whether the label in force at some class is `default`.
    pub(crate) arranged: bool,
    /// The least handling at the other classes.
    pub(crate) least: Option<Handling>,
    /// The three-byte runs of the texts that classes directly hold.
    pub(crate) run_bits: Bits,
    /// The same runs, each with the handling of its class.
    pub(crate) handled_bits: Bits,
    /// The names of these classes.
    pub(crate) name_bits: Bits,
}

/// A small part of a document, in memory of its own, by which most questions about the document can be answered without
/// reading it.
#[derive(Drop)]
pub struct Sketch {
    /// `None` if the markings of the document aren't accepted.
    pub(crate) summary: Option<Summary>,
}

impl Sketch {
    /// Returns the sketch of a document, at a cost linear in its bytes. Fails if memory runs out.
    pub fn of(alloc: Global, document: &Document) -> Result<Sketch, AllocError>
        ensures { IfOk result (λ s. IsSketchOf s document.now) }
    {
        match check(alloc, document) {
            Ok(()) => Ok(Sketch {
                summary: Some(summarise(alloc, document)?),
            }),
            Err(MarkingFault::BadMarking(_)) => Ok(Sketch { summary: None }),
            Err(MarkingFault::NoMemory) => Err(AllocError),
        }
    }
}

/// Returns what is kept of a document whose markings are accepted.
fn summarise(alloc: Global, document: &Document) -> Result<Summary, AllocError>
    requires { first_bad_marking (located document.now) ≡ None }
    ensures { IfOk result (λ k. Summarises k document.now) }
{
    let handlings = handlings(alloc, document)?;
    let held = holdings(alloc, document, handlings.as_slice())?;
    let run_bits = run_bits(alloc, held.as_slice())?;
    let handled_bits = handled_bits(alloc, held.as_slice())?;
    let name_bits = name_bits(alloc, held.as_slice())?;
    Ok(Summary {
        classes: !handlings.as_slice().is_empty(),
        arranged: has_none(handlings.as_slice()),
        least: least(handlings.as_slice()),
        run_bits,
        handled_bits,
        name_bits,
    })
}

/// Returns whether a handling is missing.
fn has_none(handlings: &[Option<Handling>]) -> bool
    ensures { result ≡ list_any is_none handlings.now }
{
    handlings.iter().any(|handling| handling.is_none())
}

/// Returns the set of the runs of these texts.
fn run_bits(alloc: Global, held: &[Holding<'_>]) -> Result<Bits, AllocError>
    ensures size { IfOk result (λ b. IsSizeFor (bytes_of (map shown held.now)) (length b)) }
    ensures runs { IfOk result (λ b.
        b ≡ put_all (replicate (length b) 0) (runs_in (map shown held.now))) }
{
    let mut bits = Bits::none(alloc, size_for(text_bytes(held)))?;
    for holding in held {
        put_runs(&mut bits, 0, holding.text.as_bytes());
    }
    Ok(bits)
}

/// Returns the set of the runs of these texts, each with the handling of its class.
fn handled_bits(alloc: Global, held: &[Holding<'_>]) -> Result<Bits, AllocError>
    ensures size { IfOk result (λ b. IsSizeFor (bytes_of (map shown held.now)) (length b)) }
    ensures runs { IfOk result (λ b.
        b ≡ put_all (replicate (length b) 0) (handled_runs_in (map shown held.now))) }
{
    let mut bits = Bits::none(alloc, size_for(text_bytes(held)))?;
    for holding in held {
        put_runs(
            &mut bits,
            base_of(holding.handling),
            holding.text.as_bytes(),
        );
    }
    Ok(bits)
}

/// Returns the set of the names of the classes that hold these texts.
fn name_bits(alloc: Global, held: &[Holding<'_>]) -> Result<Bits, AllocError>
    ensures size { IfOk result (λ b. length b ≡ 32) }
    ensures names { IfOk result (λ b.
        b ≡ put_all (replicate (length b) 0) (names_in (map shown held.now))) }
{
    let mut bits = Bits::none(alloc, NAMES_SIZE)?;
    for holding in held {
        bits.put(number(holding.class.as_bytes()));
    }
    Ok(bits)
}
