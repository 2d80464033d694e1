//! The file of the store.

use crate::texts::field_of;
use std::os::unix::fs::PermissionsExt;
use std::{env, fs, io, process};

/// The store's file, whose name no other program has, its log, and a second name for the file.
#[derive(Drop)]
pub struct Place {
    path: String,
    log: String,
    second: String,
}

impl Place {
    /// Returns a place without a file.
    pub fn new(rt: &HostRuntime) -> io::Result<Place> {
        let alloc = rt.alloc();
        let id = process::id(rt.process());
        let name = format!(in alloc; "iodef-hub-cases-{id}.db")?;
        let path = env::temp_dir(rt)?.join(alloc, name.as_str())?;
        let path = String::from_str(alloc, path.to_string_lossy())?;
        let log = format!(in alloc; "{path}-wal")?;
        let second = format!(in alloc; "{path}-second")?;
        let place = Place { path, log, second };
        place.clear(rt);
        Ok(place)
    }

    pub fn path(&self) -> &str {
        self.path.as_str()
    }

    pub fn log(&self) -> &str {
        self.log.as_str()
    }

    /// Removes the files, if they are there.
    pub fn clear(&self, rt: &HostRuntime) {
        let _ = fs::remove_file(rt, self.path.as_str());
        let _ = fs::remove_file(rt, self.log.as_str());
        let _ = fs::remove_file(rt, self.second.as_str());
    }

    /// Gives the store's file its second name, or takes it away if it is there. Returns the line that says so.
    pub fn link(&self, rt: &HostRuntime) -> io::Result<String> {
        if fs::remove_file(rt, self.second.as_str()).is_err() {
            fs::hard_link(rt, self.path.as_str(), self.second.as_str())?;
        }
        Ok(String::from_str(rt.alloc(), "done\n")?)
    }

    /// Puts these bytes into the store's file. Returns the line that says so.
    pub fn put(&self, rt: &HostRuntime, field: &str) -> io::Result<String> {
        let bytes = field_of(rt, field)?;
        fs::write(rt, self.path.as_str(), &bytes)?;
        Ok(String::from_str(rt.alloc(), "done\n")?)
    }

    /// Returns the mode of the file of this name, and of its log.
    pub fn modes(&self, rt: &HostRuntime, word: &str) -> io::Result<String> {
        let path = if word == "STORE" { self.path() } else { word };
        let log = format!(in rt.alloc(); "{path}-wal")?;
        let file = mode_of(rt, path)?;
        let log = mode_of(rt, log.as_str())?;
        Ok(format!(in rt.alloc(); "file {file}, log {log}\n")?)
    }
}

/// Returns who may read and write a file, in octal digits, or `none` if it isn't there.
fn mode_of(rt: &HostRuntime, path: &str) -> io::Result<String> {
    match fs::metadata(rt, path) {
        Ok(found) => {
            let mode = found.permissions().mode() & 0o777;
            Ok(format!(in rt.alloc(); "{mode:o}")?)
        }
        Err(_) => Ok(String::from_str(rt.alloc(), "none")?),
    }
}
