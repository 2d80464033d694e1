//! The file that `init` makes, and removes if it gets no store.

use crate::store::system_fault;
use hub_service::Fault;
use std::fs;
use std::fs::{Metadata, OpenOptions};
use std::io::ErrorKind;
use std::os::unix::fs::{MetadataExt, OpenOptionsExt};

/// The most bytes of a store's file that has no tables.
const MOST_OF_BLANK: u64 = 4096;

/// More bytes than a log has with its head and one page, and fewer than with a store's pages.
const BLANK_LOG: usize = 8192;

/// Which file it is, whatever its name.
#[derive(Clone, Copy, PartialEq, Eq)]
struct Identity {
    device: u64,
    inode: u64,
}

impl Identity {
    fn of(found: &Metadata) -> Identity {
        Identity {
            device: found.dev(),
            inode: found.ino(),
        }
    }
}

/// What this start of the program made for a store.
#[derive(Drop)]
pub struct NewFile {
    path: String,
    log: String,
    /// The file that it made, or none if a file was there.
    made: Option<Identity>,
    /// Whether a file of the log's name was there.
    had_log: bool,
}

impl NewFile {
    /// Makes the file, for its owner only, if there is none of that name. The connection refuses the names that it
    /// doesn't take for files, so none is made for them.
    pub fn make(rt: &HostRuntime, path: &str) -> Result<NewFile, Fault> {
        let alloc = rt.alloc();
        let log = format!(in alloc; "{path}-wal")?;
        let had_log = is_there(rt, log.as_str());
        let path = String::from_str(alloc, path)?;
        let made = make_file(rt, path.as_str())?;
        Ok(NewFile {
            path,
            log,
            made,
            had_log,
        })
    }

    /// Removes the file and its log if this start made them and no store was put there. What can't be removed stays.
    pub fn remove(&self, rt: &HostRuntime) {
        let Some(made) = self.made else {
            return;
        };
        if !is_blank(rt, self.path.as_str(), made) || !is_blank_log(rt, self.log.as_str()) {
            return;
        }
        let _ = fs::remove_file(rt, self.path.as_str());
        if !self.had_log {
            let _ = fs::remove_file(rt, self.log.as_str());
        }
    }
}

/// Returns whether something has this name, or may have it.
fn is_there(rt: &HostRuntime, path: &str) -> bool {
    match fs::symlink_metadata(rt, path) {
        Ok(_) => true,
        Err(error) => error.kind() != ErrorKind::NotFound,
    }
}

/// Makes the file if there is none of that name. Returns which one it made.
fn make_file(rt: &HostRuntime, path: &str) -> Result<Option<Identity>, Fault> {
    if path == ":memory:" || path.starts_with("file:") {
        return Ok(None);
    }
    match OpenOptions::new()
        .write(true)
        .create_new(true)
        .mode(0o600)
        .open(rt, path)
    {
        Ok(file) => match file.metadata() {
            Ok(found) => Ok(Some(Identity::of(&found))),
            Err(_) => Ok(None),
        },
        Err(error) if error.kind() == ErrorKind::AlreadyExists => Ok(None),
        Err(error) => Err(system_fault(error.kind())),
    }
}

/// Returns whether this is the file, and it has no more bytes than one without tables.
fn is_blank(rt: &HostRuntime, path: &str, made: Identity) -> bool {
    match fs::symlink_metadata(rt, path) {
        Ok(found) => made == Identity::of(&found) && found.len() <= MOST_OF_BLANK,
        Err(_) => false,
    }
}

/// Returns whether no tables are in the log: behind its first page it has zeros alone, as room that is reserved. A log
/// that isn't there has none.
fn is_blank_log(rt: &HostRuntime, path: &str) -> bool {
    match fs::read(rt, path) {
        Ok(bytes) => bytes.iter().skip(BLANK_LOG).all(|byte| *byte == 0),
        Err(error) => error.kind() == ErrorKind::NotFound,
    }
}
