//! The two files of a store, in memory, of which one may stop.

use sqlite_disk::{Crash, Disk, Files, Fuse, Memory};
use std::alloc::{AllocError, Global};

/// A file that refuses each call after so many. It is the only kind of file here, also if none stops, so that one proof
/// covers the store.
pub type Stopping = Fuse<Memory>;

/// After how many calls each file stops.
#[derive(Clone, Copy)]
pub struct Stop {
    pub log: u64,
    pub db: u64,
}

/// No stop.
pub const NEVER: Stop = Stop {
    log: u64::MAX,
    db: u64::MAX,
};

/// The bytes of the log and of the database file.
#[derive(Drop)]
pub struct Kept {
    log: Vec<u8>,
    db: Vec<u8>,
}

/// Makes a file with these bytes, all of them synced.
fn file(alloc: Global, bytes: &[u8], calls: u64) -> Result<Stopping, AllocError> {
    let mut memory = Memory::new(alloc);
    if memory.write_at(0, bytes).is_err() || memory.sync().is_err() {
        return Err(AllocError);
    }
    Ok(Fuse::new(memory, calls))
}

impl Kept {
    /// Returns the bytes of two files that were never written.
    pub fn nothing(alloc: Global) -> Kept {
        Kept {
            log: Vec::new(alloc),
            db: Vec::new(alloc),
        }
    }

    /// Returns all that was written, synced or not, as a process that dies leaves it.
    pub fn of(alloc: Global, files: &Files<Stopping>) -> Result<Kept, AllocError> {
        Ok(Kept {
            log: files.log.inner().bytes().to_vec(alloc)?,
            db: files.db.inner().bytes().to_vec(alloc)?,
        })
    }

    /// Returns all that was synced, as a failure of the power leaves it.
    pub fn from_synced(alloc: Global, mut files: Files<Stopping>) -> Result<Kept, AllocError> {
        files.log.crash();
        files.db.crash();
        Kept::of(alloc, &files)
    }

    pub fn is_same(&self, other: &Kept) -> bool {
        self.log.as_slice() == other.log.as_slice() && self.db.as_slice() == other.db.as_slice()
    }

    pub fn files(&self, alloc: Global, stop: Stop) -> Result<Files<Stopping>, AllocError> {
        Ok(Files {
            log: file(alloc, &self.log, stop.log)?,
            db: file(alloc, &self.db, stop.db)?,
        })
    }
}

/// Returns whether neither file has refused a call: both take one more.
pub fn take_calls(files: &mut Files<Stopping>) -> bool {
    files.may_be_used() && files.log.len().is_ok() && files.db.len().is_ok()
}
