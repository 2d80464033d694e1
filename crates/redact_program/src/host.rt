//! The machine beside the streams of a run: the files by name.
ghost use Rattle.std.specs.Prelude.{◌≡◌, ◌⊎◌, ℕ, List, [], ◌∷◌, ◌++◌, OnErr, OnOk, Option, None, Some, Err, Result, find, map, option_copied, string_bytes, ⊤};
ghost use Rattle.std.specs.Str.{bytes_eq};
ghost use Rattle.std.specs.declared.io.ErrorKind.{ErrorKind};
ghost use Rattle.redact_program.specs.Hosts.{MemoryGives, memory_opened};
ghost use Rattle.redact_program.specs.Streams.{Logs, copied_content, ok_by};

use crate::input::read_some;
use std::alloc::{AllocError, Global};
use std::fs;
use std::io::ErrorKind;

/// A machine with files.
pub trait Host {
    // What reading the file of this name may give.
    ghost may_give: { Self → List ℕ → Result (List ℕ) ErrorKind → Type 0 } = { λ _ _ _. ⊤ };

    // The names of the files that were opened, or were to be opened, in order, where they are known.
    ghost opened: { Self → Option (List (List ℕ)) } = { λ _. None };

    /// Returns all bytes of the file of this name, or more than [`INPUT_LIMIT`](crate::INPUT_LIMIT).
    fn read_file(&mut self, alloc: Global, name: &str) -> Result<Vec<u8>, ErrorKind>
        ensures gives { may_give self.old name.now (ok_by (λ v. v.items) result) }
        ensures logs { Logs (opened self.old) (opened self.new) name.now };
}

/// The operating system, of whose files nothing is known.
#[derive(Drop)]
pub struct System<'a> {
    rt: &'a HostRuntime,
}

impl<'a> System<'a> {
    /// Returns the operating system.
    pub fn new(rt: &'a HostRuntime) -> System<'a> {
        System { rt }
    }
}

impl Host for System<'_> {
    fn read_file(&mut self, alloc: Global, name: &str) -> Result<Vec<u8>, ErrorKind> {
        match fs::open(self.rt, name) {
            Ok(mut file) => read_some(alloc, &mut file),
            Err(error) => Err(error.kind()),
        }
    }
}

/// A file in memory.
#[derive(Clone, Copy)]
pub struct File<'a> {
    /// Its name.
    pub name: &'a str,
    /// Its bytes, or the error of reading it.
    pub content: Result<&'a [u8], ErrorKind>,
}

/// A host in memory: files, of which all is known.
#[derive(Drop)]
pub struct Memory<'a> {
    files: &'a [File<'a>],
    opened: Vec<String>,
}

impl<'a> Memory<'a> {
    /// Returns a host with these files, none of which was opened.
    pub fn new(alloc: Global, files: &'a [File<'a>]) -> Memory<'a>
        ensures { (result.files ≡ files.entry) × (memory_opened result ≡ []) }
    {
        Memory {
            files,
            opened: Vec::new(alloc),
        }
    }

    /// Returns the names of the files that were opened, or were to be opened, in order.
    pub fn opened(&self) -> &[String]
        ensures { map string_bytes result.now ≡ memory_opened self.now }
    {
        self.opened.as_slice()
    }
}

/// Notes a name behind others.
fn note(alloc: Global, opened: &mut Vec<String>, name: &str) -> Result<(), AllocError>
    ensures ok { OnOk result (map string_bytes opened.new.items
        ≡ map string_bytes opened.old.items ++ name.now ∷ []) }
    ensures err { OnErr result (opened.new.items ≡ opened.old.items) }
{
    let name = String::from_str(alloc, name)?;
    opened.push(name)?;
    Ok(())
}

/// Returns the first file of a name.
fn file_named<'a>(files: &'a [File<'a>], name: &str) -> Option<&'a File<'a>>
    ensures { option_copied result ≡ find (λ f. bytes_eq f.name.now name.now) files.entry.now }
{
    files.iter().find(|file| file.name == name)
}

/// Returns a copy of what a file gives.
fn read_copy(alloc: Global, file: &File<'_>) -> Result<Vec<u8>, ErrorKind>
    ensures { (ok_by (λ v. v.items) result ≡ copied_content file.now.content)
        ⊎ (result ≡ Err ErrorKind.OutOfMemory) }
{
    match file.content {
        Ok(bytes) => match Vec::from_slice(alloc, bytes) {
            Ok(copy) => Ok(copy),
            Err(_) => Err(ErrorKind::OutOfMemory),
        },
        Err(kind) => Err(kind),
    }
}

impl Host for Memory<'_> {
    ghost may_give = { MemoryGives };

    ghost opened = { λ m. Some (memory_opened m) };

    fn read_file(&mut self, alloc: Global, name: &str) -> Result<Vec<u8>, ErrorKind> {
        if note(alloc, &mut self.opened, name).is_err() {
            return Err(ErrorKind::OutOfMemory);
        }
        match file_named(self.files, name) {
            Some(file) => read_copy(alloc, file),
            None => Err(ErrorKind::NotFound),
        }
    }
}
