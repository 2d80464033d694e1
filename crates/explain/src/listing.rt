//! The permissions of a trace, in the order in which they are written.

ghost use Rattle.std.specs.Prelude.{◌≡◌, ◌≤◌, length, map, IfOk, OnOk};
ghost use Rattle.std.specs.List.{insert};
ghost use Rattle.explain.specs.Listing as spec;

use iodef_tree::Text;
use policy::{Grantee, Permission};
use std::alloc::{AllocError, Global};

/// A permission as its line writes it.
#[derive(Drop)]
pub(crate) struct PrintedPermission {
    /// The JSON pointer of its path.
    pub(crate) pointer: Text,
    /// The readers whom it is given to.
    pub(crate) grantee: Grantee,
    /// When it ends, in seconds since the beginning of 1970 (UTC).
    pub(crate) until: Option<i64>,
}

/// Returns the place of its kind in the order.
fn kind_place(grantee: Grantee) -> u8
    ensures { result ≡ spec.kind_place grantee }
{
    match grantee {
        Grantee::Person(_) => 0,
        Grantee::Org(_) => 1,
        Grantee::Community(_) => 2,
        Grantee::Group(_) => 3,
    }
}

/// Returns the word for its kind.
pub(crate) fn kind_name(grantee: Grantee) -> &'static str
    ensures { result.now ≡ spec.kind_name grantee }
{
    match grantee {
        Grantee::Person(_) => "person",
        Grantee::Org(_) => "org",
        Grantee::Community(_) => "community",
        Grantee::Group(_) => "group",
    }
}

/// Returns its number.
pub(crate) fn grantee_number(grantee: Grantee) -> u32
    ensures { result ≡ spec.grantee_number grantee }
{
    match grantee {
        Grantee::Person(number) => number,
        Grantee::Org(number) => number,
        Grantee::Community(number) => number,
        Grantee::Group(number) => number,
    }
}

/// Returns whether one permission comes before another.
fn comes_before(entry: &PrintedPermission, other: &PrintedPermission) -> bool
    ensures { result ≡ spec.comes_before entry.now other.now }
{
    let kinds = kind_place(entry.grantee).cmp(&kind_place(other.grantee));
    let numbers = grantee_number(entry.grantee).cmp(&grantee_number(other.grantee));
    entry
        .pointer
        .as_str()
        .cmp(other.pointer.as_str())
        .then(kinds.then(numbers))
        .is_lt()
}

/// Returns the place of an entry: before the first that comes after it.
fn place_for(entries: &[PrintedPermission], entry: &PrintedPermission) -> usize
    ensures within { result ≤ length entries.now }
    ensures is { insert entries.now result entry.now ≡ spec.put entry.now entries.now }
{
    for (place, other) in entries.iter().enumerate() {
        if comes_before(entry, other) {
            return place;
        }
    }
    entries.len()
}

/// Puts an entry at its place.
fn put(entries: &mut Vec<PrintedPermission>, entry: PrintedPermission) -> Result<(), AllocError>
    ensures { OnOk result (entries.new.items ≡ spec.put entry entries.old.items) }
{
    let place = place_for(entries.as_slice(), &entry);
    entries.insert(place, entry)?;
    Ok(())
}

/// Returns the entry of a permission.
fn entry_of(alloc: Global, permission: &Permission) -> Result<PrintedPermission, AllocError>
    ensures { IfOk result (λ e. e ≡ spec.entry_of permission.now) }
{
    let pointer = Text::new(permission.path.print(alloc)?);
    Ok(PrintedPermission {
        pointer,
        grantee: permission.grantee,
        until: permission.until,
    })
}

/// Returns the permissions in order of the bytes of the pointer, then by kind and number. Those that are alike in
/// these stay in the order of the case.
pub(crate) fn sort_permissions(
    alloc: Global,
    permissions: &[Permission],
) -> Result<Vec<PrintedPermission>, AllocError>
    ensures { IfOk result (λ v. v.items ≡
        spec.permissions_in_order (map spec.entry_of permissions.now)) }
{
    let mut entries = Vec::new(alloc);
    // An incident has at most 64 permissions, and those here are all at prefixes of one path. So they are put in one
    // by one, as the definition does.
    for permission in permissions {
        put(&mut entries, entry_of(alloc, permission)?)?;
    }
    Ok(entries)
}
