//! The hub in memory that gives the replies that are due.

use hub_core::Reply;
use std::alloc::Global;
use trying_shelves::{Asked, Asks, Lists};

/// Returns whether a reply says that a change is made.
pub fn is_made(reply: &Reply) -> bool {
    matches!(reply, Reply::Done | Reply::Numbers(_) | Reply::Revision(_))
}

/// Returns whether each request is answered as a change that is made.
pub fn are_made(alloc: Global, hub: &mut Lists, asked: &[Asked]) -> bool {
    for (now, key, request) in asked {
        if !is_made(&hub.answer(alloc, *now, key, request)) {
            return false;
        }
    }
    true
}
