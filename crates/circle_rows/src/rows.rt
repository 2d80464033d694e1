//! A directory in memory: its rows in sorted vectors, which are searched by halving.
ghost use Rattle.std.specs.Prelude.{◌≡◌, IfOk, IfErr, OnOk, OnErr};
ghost use Rattle.circle.specs.Directory.{empty};
ghost use Rattle.circle.specs.Aftermath.{edited_rows};

use crate::sets::Sets;
use circle::command::RowEdit;
use std::alloc::{AllocError, Global};
use std::marker::Model;

/// A directory in memory. Contracts see its nine lists of rows, each in the order of its key.
#[derive(Drop)]
pub struct DirectoryRows {
    pub(crate) sets: Sets,
}

impl Model for DirectoryRows {
    ghost use Rattle.circle.specs.Directory.{Directory};

    ghost Value = { Directory };

    ghost use Rattle.circle_rows.specs.Rows.{directory_of, IsAscending};

    ghost view = { λ r. directory_of r.sets };

    ghost invariant = { λ r. IsAscending (directory_of r.sets) };
}

impl DirectoryRows {
    /// Returns the directory without a row. Allocates nothing.
    pub fn new(alloc: Global) -> DirectoryRows
        ensures { result ≡ empty }
    {
        DirectoryRows {
            sets: Sets::new(alloc),
        }
    }

    /// Makes the edits one after another. Fails if memory runs out; then it makes none.
    pub fn apply(&mut self, edits: Vec<RowEdit>) -> Result<(), AllocError>
        ensures made { OnOk result (self.new ≡ edited_rows edits.items self.old) }
        ensures none { OnErr result (self.new ≡ self.old) }
    {
        // Room for all edits first, so that nothing can fail between two of them.
        self.sets.reserve(edits.len())?;
        self.sets.edit_all(edits);
        Ok(())
    }

    /// Takes the memory for the edits, and makes none. Fails with the directory as it was if memory runs out.
    pub fn ready(self, edits: Vec<RowEdit>) -> Result<ReadyRows, (AllocError, DirectoryRows)>
        ensures ready { IfOk result (λ r. r ≡ record { rows = self; edits = edits.items }) }
        ensures none { IfErr result (λ e. e.1 ≡ self) }
    {
        let DirectoryRows { mut sets } = self;
        match sets.reserve(edits.len()) {
            Ok(()) => Ok(ReadyRows { sets, edits }),
            Err(refused) => Err((refused, DirectoryRows { sets })),
        }
    }
}

/// A directory in memory, and edits for which the memory is taken. Contracts see the directory before them.
#[derive(Drop)]
pub struct ReadyRows {
    sets: Sets,
    edits: Vec<RowEdit>,
}

impl Model for ReadyRows {
    ghost use Rattle.std.specs.Prelude.{length};
    ghost use Rattle.circle_rows.specs.Rows.{directory_of, HasRoom, IsAscending, Ready};

    ghost Value = { Ready };

    ghost view = { λ r. record { rows = directory_of r.sets; edits = r.edits.items } };

    ghost invariant = { λ r. IsAscending (directory_of r.sets) × HasRoom (length r.edits.items) r.sets };
}

impl ReadyRows {
    /// Makes the edits one after another.
    pub fn make(self) -> DirectoryRows
        ensures { result ≡ edited_rows self.edits self.rows }
    {
        let ReadyRows { mut sets, edits } = self;
        sets.edit_all(edits);
        DirectoryRows { sets }
    }

    /// Returns the directory as it was, and makes no edit.
    pub fn into_rows(self) -> DirectoryRows
        ensures { result ≡ self.rows }
    {
        DirectoryRows { sets: self.sets }
    }
}
