//! A heap that can be asked to refuse one growth.

use std::alloc::Global;

/// More bytes than any heap has. The number of the growth to be refused is added to it.
const ARMS: usize = 0x4000_0000_0000_0000;

/// If a growth was refused since the heap was armed, a heap that understands such sizes returns a block for this size.
const ASKS: usize = 0x5000_0000_0000_0000;

/// Has the n-th growth from now on refused, or none for 0. A heap that doesn't understand sizes refuses only this one.
pub fn arm(alloc: Global, n: u32) {
    let _ = Vec::<u8>::with_capacity(alloc, ARMS + n as usize);
}

/// Returns whether a growth was refused since the heap was armed. From now on none is.
pub fn disarm(alloc: Global) -> bool {
    let refused = Vec::<u8>::with_capacity(alloc, ASKS).is_ok();
    arm(alloc, 0);
    refused
}
