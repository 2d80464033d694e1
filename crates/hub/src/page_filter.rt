//! Which incidents a page lists.

use redact::Want;

/// Which incidents a page lists.
#[derive(Clone, Copy)]
pub struct PageFilter<'a> {
    /// Only those of which the person or its organisation is a recipient.
    pub addressed: bool,
    /// Only those that meet this for the person.
    pub want: &'a Want,
}
