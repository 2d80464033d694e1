//! The bytes of a field.

use std::{fs, io};
use trying::bytes_of;

/// Returns the bytes of a field, which may be those of a file.
pub fn field_of(rt: &HostRuntime, field: &str) -> io::Result<Vec<u8>> {
    match field.strip_prefix('@') {
        Some(name) => fs::read(rt, name),
        None => Ok(bytes_of(rt.alloc(), field)?),
    }
}

/// Returns the fields of a line, each as its bytes.
pub fn fields_of(rt: &HostRuntime, line: &str) -> io::Result<Vec<Vec<u8>>> {
    let mut all = Vec::new(rt.alloc());
    for field in line.split('|') {
        all.push(field_of(rt, field)?)?;
    }
    Ok(all)
}
