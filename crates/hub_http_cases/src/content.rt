//! The content of a hub, as its callers read it.

use crate::serving::NOW;
use hub::Hub;
use hub_core::ListShelf;
use hub_http::serve_one;
use std::alloc::{AllocError, Global};

/// The keys of the persons.
const KEYS: [&str; 6] = ["abc", "key-2", "key-3", "key-4", "key-5", "key-6"];

/// The targets that each of them asks for.
const TARGETS: [&str; 6] = [
    "/me",
    "/me/groups",
    "/me/addressed",
    "/incidents",
    "/incidents/1",
    "/incidents/2",
];

fn push_told(
    all: &mut Vec<u8>,
    alloc: Global,
    hub: &mut Hub<ListShelf>,
    key: &str,
) -> Result<(), AllocError> {
    for target in TARGETS {
        let bytes = format!(in alloc;
            "GET {target} HTTP/1.1\r\nAuthorization: Bearer {key}\r\n\r\n"
        )?;
        let mut reader = bytes.as_bytes();
        let _ = serve_one(alloc, &mut reader, all, hub, NOW);
    }
    Ok(())
}

/// Returns the bytes of all replies to the persons, about themselves, their groups and the incidents.
pub fn content(alloc: Global, hub: &mut Hub<ListShelf>) -> Result<Vec<u8>, AllocError> {
    let mut all = Vec::new(alloc);
    for key in KEYS {
        push_told(&mut all, alloc, hub, key)?;
    }
    Ok(all)
}
