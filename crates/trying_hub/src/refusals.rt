//! Refusals as text.

use hub_core::Refusal;
use std::alloc::{AllocError, Global};

/// Returns the code and, if there is one, the detail.
pub fn refusal_text(alloc: Global, refusal: &Refusal) -> Result<String, AllocError> {
    let code = refusal.code.name();
    let detail = refusal.detail.as_str();
    if detail.is_empty() {
        return String::from_str(alloc, code);
    }
    format!(in alloc; "{code} {detail}")
}
