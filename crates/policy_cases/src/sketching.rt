//! What the sketch of a report says of a want.

use crate::probing::text_of;
use iodef_tree::Document;
use policy::Reach;
use redact::Want;
use sketch::{Judged, Sketch};
use std::alloc::{AllocError, Global};
use trying_policy::{Asker, Unfit};

/// Returns a want by its words. The needle and the class are none if they are empty.
fn want_of(alloc: Global, needle: &str, class: Option<&str>) -> Result<Want, AllocError> {
    let needle = text_of(alloc, needle)?;
    let class = text_of(alloc, class.unwrap_or(""))?;
    Ok(Want { needle, class })
}

fn judged_text(judged: Judged) -> &'static str {
    match judged {
        Judged::Met => "met",
        Judged::Unmet => "not met",
        Judged::Unsure => "unsure",
    }
}

fn held_text(may_hold: bool) -> &'static str {
    if may_hold { "may hold it" } else { "misses it" }
}

/// Returns whether the report may hold what is wanted, and whether the reader's want is met, as its sketch says it.
pub fn sketched(
    alloc: Global,
    document: &Document,
    asker: &Asker,
    needle: &str,
    class: Option<&str>,
) -> Result<String, Unfit> {
    let want = want_of(alloc, needle, class)?;
    let sketch = Sketch::of(alloc, document)?;
    let held = held_text(sketch.may_hold(&want));
    let reach = Reach::of(&asker.case, &asker.standing);
    let judged = judged_text(sketch.judge(reach, &asker.standing, &want));
    Ok(format!(in alloc; "{held}, {judged}")?)
}
