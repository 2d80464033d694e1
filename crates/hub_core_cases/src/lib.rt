//! Answers the cases of a table, one a line, and prints each answer. It prints a line that begins with `#` as it is, and
//! skips an empty one. `<3*0,>` means `0,0,0,` in a line.
//!
//! A case is ROLE ORG|FACTS|REQUEST|FIELD|FIELD.. with the fields of the request in their order: who asks (always
//! person 2), the facts that the shelf found, and the request.
//!
//! - FACTS are words: `exists`, `stands` and the other flags if they hold, `count=4`, `posted=1`, `gates=17`,
//!   `recipients=65`, `permissions=65`; `known=2,1,"2"` is an incident of organisation 2 in revision 1 with that
//!   IncidentID, `document=JSON` its document. What isn't named is false, 0 or none.
//! - The level of a post is `1@3` if it names community 3. A group is `-` for none. Gates are LEVEL:GROUP:POINTER with
//!   a space between them. Targets and grantees are `person 4`, `org 3`, `community 1` or `group 1`. A class is `-` for
//!   none. `DOC1` and its kin are documents (`documents.rt` of `trying_hub`).
//!
//! The answer is the refusal, its code and perhaps its detail, or the edits with a semicolon between them.
//!
//! Or it is `world;` and steps with a semicolon between them, over a shelf in memory that holds the test world
//! (`world.rt`):
//!
//! - PERSON REQUEST|FIELD..: a request by the person who has the key of this number, `key-7` in a request. The answer
//!   is the refusal, `nothing` to a request that only reads, the numbers of new incidents, the revision, or `done`. It
//!   is `nobody` if no person has the key.
//! - `facts` before it: the facts that the shelf finds about it, in the words above.
//! - `case 1`, `standing 4 1` (a person, an incident; then a moment other than 0), `document 1`, `entries 0 100` (above
//!   a number, at most so many), `groups 4` and `person 4` (persons by their keys), `failures`: the shelf's answer. A
//!   case or an incident that names community 3 is `in 3`. A person who shares a `community` with the source and isn't
//!   in the one that is named is a `neighbour`. A person who is only in that one is a `peer`.
#![tactic(auto)]

mod facts;
mod judged;
mod seen;
mod story;
mod told;
mod world;

use std::alloc::{AllocError, Global};
use std::io;
use trying::{print_answers, written_out};

/// Prints the answers to a table.
pub fn run(rt: &HostRuntime, table: &str) -> io::Result<()> {
    let alloc = rt.alloc();
    print_answers(rt, table, |line| answer(alloc, line))
}

fn answer(alloc: Global, line: &str) -> Result<String, AllocError> {
    let line = written_out(alloc, line)?;
    match line.as_str().strip_prefix("world;") {
        Some(steps) => story::answer(alloc, steps),
        None => judged::answer(alloc, line.as_str()),
    }
}
