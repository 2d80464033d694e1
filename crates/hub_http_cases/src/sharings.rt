//! How a report is shared, as a line names it.
//!
//! NUMBER|REVISION|COMMUNITY|IDENT|GATES|RECIPIENTS|PERMISSIONS. The community is 0 for none. Gates are
//! LEVEL:GROUP:POINTER, recipients KIND NUMBER, permissions `KIND NUMBER UNTIL live POINTER`, or `ended` for `live`; with
//! a comma between them. UNTIL is `-` for no end.

use circle::text::Text;
use hub_core::{Naming, Recipients, Reply, SharedPermission, SharedPermissions, Sharing, Target};
use iodef_tree::Path;
use policy::{Gate, Gates, Grantee, Permission};
use std::alloc::{AllocError, Global};
use trying::{number_if_any, number_of};

/// Returns the path of a pointer, and that of the root if it is none.
fn path_of(alloc: Global, pointer: &str) -> Path {
    match Path::parse(alloc, pointer) {
        Ok(path) => path,
        Err(_) => Path::root(alloc),
    }
}

fn gates_of(alloc: Global, words: &str) -> Result<Gates, AllocError> {
    let mut gates = Vec::new(alloc);
    for word in words.split(',') {
        let (level, rest) = word.split_once(':').unwrap_or((word, ""));
        let (group, pointer) = rest.split_once(':').unwrap_or((rest, ""));
        gates.push(Gate {
            path: path_of(alloc, pointer),
            level: u8::try_from(number_of(level)).unwrap_or(0),
            group: number_if_any(group),
        })?;
    }
    Ok(Gates::new(gates))
}

fn recipients_of(alloc: Global, words: &str) -> Result<Recipients, AllocError> {
    let mut targets = Vec::new(alloc);
    for word in words.split(',') {
        match word.split_once(' ') {
            Some(("org", number)) => targets.push(Target::Org(number_of(number)))?,
            Some((_, number)) => targets.push(Target::Person(number_of(number)))?,
            None => {}
        }
    }
    Ok(Recipients::new(targets))
}

fn grantee_of(kind: &str, number: u32) -> Grantee {
    match kind {
        "person" => Grantee::Person(number),
        "org" => Grantee::Org(number),
        "community" => Grantee::Community(number),
        _ => Grantee::Group(number),
    }
}

fn permission_of(alloc: Global, words: &str) -> SharedPermission {
    let mut parts = words.split(' ');
    let kind = parts.next().unwrap_or("");
    let number = number_of(parts.next().unwrap_or(""));
    let until = parts.next().unwrap_or("").parse::<i64>().ok();
    let ended = parts.next() == Some("ended");
    let path = path_of(alloc, parts.next().unwrap_or(""));
    let permission = Permission {
        path,
        grantee: grantee_of(kind, number),
        until,
    };
    SharedPermission { permission, ended }
}

fn permissions_of(alloc: Global, words: &str) -> Result<SharedPermissions, AllocError> {
    let mut all = Vec::new(alloc);
    if !words.is_empty() {
        for word in words.split(',') {
            all.push(permission_of(alloc, word))?;
        }
    }
    Ok(SharedPermissions::new(all))
}

/// Returns the reply of the fields.
pub fn sharing_of(alloc: Global, fields: &str) -> Result<Option<Reply>, AllocError> {
    let mut parts = fields.split('|');
    let number = number_of(parts.next().unwrap_or(""));
    let revision = number_of(parts.next().unwrap_or(""));
    let community = match number_of(parts.next().unwrap_or("")) {
        0 => None,
        community => Some(community),
    };
    let ident = Text::of(alloc, parts.next().unwrap_or(""))?;
    let naming = Naming {
        number,
        source: 0,
        ident,
        revision,
        community,
    };
    Ok(Some(Reply::Sharing(Sharing {
        naming,
        gates: gates_of(alloc, parts.next().unwrap_or(""))?,
        recipients: recipients_of(alloc, parts.next().unwrap_or(""))?,
        permissions: permissions_of(alloc, parts.next().unwrap_or(""))?,
    })))
}
