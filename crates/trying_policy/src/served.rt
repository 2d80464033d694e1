//! What a reader is served, in words.

use iodef_tree::{Document, Path};
use policy::Rule;
use std::alloc::{AllocError, Global};

fn push_pair(all: &mut String, alloc: Global, place: &Path, rule: Rule) -> Result<(), AllocError> {
    let pointer = place.print(alloc)?;
    let rule = rule.name();
    let pair = format!(in alloc; " {pointer}:{rule}")?;
    all.push_str(pair.as_str())
}

/// Returns how many classes are visible, the document, and each withheld pair.
pub fn served_text(
    alloc: Global,
    classes: u32,
    document: &Document,
    withheld: &[(Path, Rule)],
) -> Result<String, AllocError> {
    let text = document.text(alloc)?;
    let mut all = format!(in alloc; "{classes} {text}")?;
    for (place, rule) in withheld {
        push_pair(&mut all, alloc, place, *rule)?;
    }
    Ok(all)
}
