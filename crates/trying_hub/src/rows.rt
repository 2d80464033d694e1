//! Edits that put organisations and persons, and the rows that a hub begins with.

use circle::command::RowEdit;
use circle::directory::{Account, Org, Person, Role};
use circle::name::Name;
use hub_core::{Edit, ListShelf, Shelf};
use std::alloc::{AllocError, Global};

/// The SHA-256 of `abc`.
pub const ABC: [u8; 32] = [
    0xba, 0x78, 0x16, 0xbf, 0x8f, 0x01, 0xcf, 0xea, 0x41, 0x41, 0x40, 0xde, 0x5d, 0xae, 0x22, 0x23,
    0xb0, 0x03, 0x61, 0xa3, 0x96, 0x17, 0x7a, 0x9c, 0xb4, 0x10, 0xff, 0x61, 0xf2, 0x00, 0x15, 0xad,
];

/// Returns an edit that puts an organisation. If the name is out of the limits, returns an edit that changes nothing.
pub fn put_org(alloc: Global, number: u32, name: &str) -> Result<Edit, AllocError> {
    Ok(Edit::Directory(match Name::of(alloc, name)? {
        Some(name) => RowEdit::PutOrg(Org { number, name }),
        None => RowEdit::Suspend(0),
    }))
}

/// Returns an edit that puts a person, who is active and not nominated. If the name is out of the limits, returns an
/// edit that changes nothing.
pub fn put_person(
    alloc: Global,
    number: u32,
    org: u32,
    name: &str,
    role: Role,
    key: [u8; 32],
) -> Result<Edit, AllocError> {
    Ok(Edit::Directory(match Name::of(alloc, name)? {
        Some(name) => {
            let person = Person {
                number,
                org,
                name,
                role,
                active: true,
                nominated: false,
            };
            RowEdit::PutAccount(Account { person, key })
        }
        None => RowEdit::Suspend(0),
    }))
}

/// Returns organisation 1 and its administrator, person 1, who has this key.
pub fn first_rows(alloc: Global, key: [u8; 32]) -> Result<Vec<Edit>, AllocError> {
    let mut edits = Vec::new(alloc);
    edits.push(put_org(alloc, 1, "Hub")?)?;
    edits.push(put_person(alloc, 1, 1, "admin", Role::Administrator, key)?)?;
    Ok(edits)
}

/// Returns the shelf with these rows, or none if it wasn't made.
pub fn first_shelf(alloc: Global, key: [u8; 32]) -> Result<Option<ListShelf>, AllocError> {
    let edits = first_rows(alloc, key)?;
    let mut shelf = ListShelf::new(alloc);
    match shelf.apply(&edits) {
        Ok(()) => Ok(Some(shelf)),
        Err(_) => Ok(None),
    }
}
