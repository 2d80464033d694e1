//! The lines of the table, with bars between their words.
//!
//! A block of requests, with an empty line behind it, is a list: one request a line, WHO|REQUEST|FIELD|FIELD.. as in
//! `hub_cases`. The first block sets up the organisations, persons and groups, and its requests come before those of
//! each later block. Any other line is a case by itself, or sets something up:
//!
//!     read|BODY                                    the documents of a body, and their texts
//!     made|BODY                                    the document of the lines of the body's last one, and its text
//!     report|BODY                                  reads the report for the lines behind, and checks its markings
//!     excerpt|STANDING|GATES|PERMISSIONS           what the reader is served of it
//!     pass|STANDING|GATES|PERMISSIONS              the same by its lines, one at a time
//!     listed|STANDING|GATES|PERMISSIONS            whether it is listed to the reader
//!     find|STANDING|GATES|PERMISSIONS|NEEDLE|CLASS whether the reader finds the needle in it, or in classes of a name
//!     probe|STANDING|GATES|PERMISSIONS|NEEDLE|CLASS the same by its lines; without a needle whether it is listed
//!     explain|STANDING|GATES|PERMISSIONS|POINTER   why the reader sees the class or doesn't
//!     before|BYTES                                 a request that a hub is asked before those of the lines behind
//!     asked|BYTES                                  what the bytes ask
//!     served|BYTES                                 a connection
//!
//! The hub that is asked by bytes begins with organisation 1 and its administrator, whose key is `abc`. In bytes `\n`
//! means CR and LF. In bytes and in bodies that are read or made, `<3*ab>` means `ababab`. `words` of `trying_policy`
//! says how standings, gates and permissions are written.

use crate::documents::{Making, Reading};
use crate::lists::{InLists, InRows, InTables, List};
use crate::passes::Feeding;
use crate::readers::{Asking, asker_of};
use crate::requests::MOMENT;
use crate::searches::Seeking;
use crate::serving::Serving;
use crate::sweep::Sweep;
use crate::wire::{Bytes, body_of, bytes_of, hub_behind, written};
use std::alloc::{AllocError, Global};
use trying::written_out;
use trying_hub::Fields;
use trying_policy::{Report, Unfit, said};
use trying_shelves::{Asked, asked_by};

/// What the lines so far have set up.
#[derive(Drop)]
pub struct Cases {
    alloc: Global,
    pub sweep: Sweep,
    report: Report,
    /// Requests by bytes.
    before: Vec<Vec<u8>>,
    /// The requests of the first block.
    world: Option<Vec<Asked>>,
    /// The lines of the block at hand.
    block: Vec<String>,
}

impl Cases {
    pub fn new(alloc: Global, sweep: Sweep) -> Cases {
        Cases {
            alloc,
            sweep,
            report: Report::new(),
            before: Vec::new(alloc),
            world: None,
            block: Vec::new(alloc),
        }
    }

    /// Returns what is printed for one more line, or none if the line is part of a block.
    pub fn told_of(&mut self, line: &str) -> Result<Option<String>, AllocError> {
        if line.is_empty() {
            return self.end_block();
        }
        match self.told_of_case(line) {
            Ok(told) => Ok(told),
            Err(Unfit::NoMemory) => Err(AllocError),
            Err(unfit) => Ok(Some(String::from_str(self.alloc, unfit.name())?)),
        }
    }

    fn told_of_case(&mut self, line: &str) -> Result<Option<String>, Unfit> {
        let (kind, rest) = line.split_once('|').unwrap_or((line, ""));
        let told = match kind {
            "report" => self.report.read(self.alloc, rest)?,
            "read" | "made" => self.document(kind, rest)?,
            "excerpt" | "listed" | "find" | "explain" => self.asking(kind, rest)?,
            "pass" => self.feeding(rest)?,
            "probe" => self.seeking(rest)?,
            "before" => self.before(rest)?,
            "asked" => self.bytes(rest)?,
            "served" => self.serving(rest)?,
            _ => {
                self.block.push(String::from_str(self.alloc, line)?)?;
                return Ok(None);
            }
        };
        Ok(Some(told))
    }

    fn document(&mut self, kind: &str, body: &str) -> Result<String, Unfit> {
        let alloc = self.alloc;
        let body = written_out(alloc, body)?;
        let body = body.as_str();
        if kind == "read" {
            return Ok(self.sweep.report(alloc, &Reading { body })?);
        }
        let making = Making::of(alloc, body)?;
        Ok(self.sweep.report(alloc, &making)?)
    }

    fn asking(&mut self, kind: &str, words: &str) -> Result<String, Unfit> {
        let alloc = self.alloc;
        let mut fields = Fields::new(words);
        let asking = Asking {
            report: &self.report,
            asker: asker_of(alloc, &mut fields)?,
            kind,
            word: fields.word(),
            class: fields.word(),
        };
        Ok(self.sweep.report(alloc, &asking)?)
    }

    fn feeding(&mut self, reader: &str) -> Result<String, Unfit> {
        let alloc = self.alloc;
        let report = &self.report;
        Ok(self.sweep.report(alloc, &Feeding { report, reader })?)
    }

    fn seeking(&mut self, words: &str) -> Result<String, Unfit> {
        let alloc = self.alloc;
        let report = &self.report;
        Ok(self.sweep.report(alloc, &Seeking { report, words })?)
    }

    /// Asks a request that comes before later ones. Returns the body of its reply.
    fn before(&mut self, line: &str) -> Result<String, Unfit> {
        let alloc = self.alloc;
        let bytes = bytes_of(alloc, line)?;
        let Some(out) = written_behind(alloc, &self.before, &bytes)? else {
            return said(alloc, "no hub");
        };
        self.before.push(bytes)?;
        said(alloc, body_of(&out))
    }

    fn bytes(&mut self, line: &str) -> Result<String, Unfit> {
        let alloc = self.alloc;
        let bytes = bytes_of(alloc, line)?;
        let asked = Bytes {
            before: &self.before,
            bytes: &bytes,
        };
        Ok(self.sweep.report(alloc, &asked)?)
    }

    fn serving(&mut self, line: &str) -> Result<String, Unfit> {
        let alloc = self.alloc;
        let bytes = bytes_of(alloc, line)?;
        match Serving::of(alloc, &self.before, &bytes)? {
            Some(serving) => Ok(self.sweep.report(alloc, &serving)?),
            None => said(alloc, "no hub"),
        }
    }

    /// Runs the list of a block over each shelf. Returns none for the first block, for which nothing is printed.
    fn end_block(&mut self) -> Result<Option<String>, AllocError> {
        let alloc = self.alloc;
        if self.block.is_empty() {
            return Ok(None);
        }
        let own = asked_by(alloc, &self.block, MOMENT)?;
        self.block = Vec::new(alloc);
        match &self.world {
            Some(world) => run_list(alloc, &mut self.sweep, world, &own).map(Some),
            None => {
                self.world = Some(own);
                Ok(None)
            }
        }
    }
}

/// Returns what a hub writes for these bytes after those requests, or none if there is no hub.
fn written_behind(
    alloc: Global,
    before: &[Vec<u8>],
    bytes: &[u8],
) -> Result<Option<Vec<u8>>, AllocError> {
    match hub_behind(alloc, before)? {
        Some(mut hub) => written(alloc, &mut hub, bytes).map(Some),
        None => Ok(None),
    }
}

/// Runs a list over each shelf. Returns what is printed for it.
fn run_list(
    alloc: Global,
    sweep: &mut Sweep,
    world: &[Asked],
    own: &[Asked],
) -> Result<String, AllocError> {
    match List::of(alloc, world, own)? {
        Some(list) => run_over_each(alloc, sweep, &list),
        None => String::from_str(alloc, "no world"),
    }
}

fn run_over_each(alloc: Global, sweep: &mut Sweep, list: &List<'_>) -> Result<String, AllocError> {
    let in_lists = sweep.report(alloc, &InLists { list })?;
    let in_tables = sweep.report(alloc, &InTables { list })?;
    let in_rows = sweep.report(alloc, &InRows { list })?;
    format!(in alloc; "in memory {in_lists}\nin tables {in_tables}\nwith rows in memory {in_rows}")
}
