//! How often each outcome of each kind of request was met.

use crate::outcomes::{outcome_of, reply_name, request_name, rule_in};
use hub_core::{Reply, Request};
use std::alloc::{AllocError, Global};
use trying::Tally;

/// The rows of the tally. Each kind of request has the outcomes that it may have if the caller is known. The other rows
/// are whether the caller is known, the kinds of replies, and the rules by which classes are withheld and explained.
const KINDS: [(&str, &str); 39] = [
    ("AddOrg", "done,W1,B1 name,S1,L1"),
    ("AddPerson", "done,W1,B1 name,N2,S1"),
    ("SuspendPerson", "done,W1,B1 person,N2,S1"),
    ("AddClient", "done,W1,B1 client,N2,S1"),
    ("RemoveClient", "done,W1,B1 client,N2,S2"),
    ("AddCommunity", "done,W1,B1 name,S1,L1"),
    ("Join", "done,W1,N2,S1"),
    ("Leave", "done,W1,N2,S2"),
    ("Link", "done,W1,B1 other,N2,S1"),
    ("Unlink", "done,W1,B1 other,N2,S2"),
    ("NewGroup", "done,W1,B1 name,B1 releasability,S1,L1"),
    ("GroupAdd", "done,W1,N2,W2,S1"),
    ("GroupRemove", "done,W1,N2,W2,S2"),
    ("GroupActive", "done,W1,N2,W2,S1"),
    ("Arrange", "done,W1,B1 org,N2,S1"),
    ("CancelArrange", "done,W1,N2,S2"),
    ("Nominate", "done,W1,N2,W3,S1"),
    ("Unnominate", "done,W1,N2,W3,S2"),
    ("NewKey", "done,S1"),
    (
        "Post",
        "done,W1,B1 level,B1 group,B1 gates,B1 NotJson,B1 NotDocument,B1 Missing,B1 NotWhole,B1 NestedClass,B1 TooDeep,B1 TooManyLines,B1 IncidentID,B1 BadMarking,N2,N3,S1,L1",
    ),
    (
        "Replace",
        "done,W1,B1 level,B1 group,B1 gates,B1 NotJson,B1 NotDocument,B1 Missing,B1 NotWhole,B1 NestedClass,B1 TooDeep,B1 TooManyLines,B1 document,B1 BadMarking,N1,N2,N3,S2,S3,L1",
    ),
    (
        "Redistribute",
        "done,W1,B1 path,B1 level,B1 group,N1,N2,N3,S1,S3,L1",
    ),
    ("Address", "done,W1,N1,N2,S1,L1"),
    ("Unaddress", "done,W1,N1,S2"),
    ("Grant", "done,W1,B1 path,N1,N2,N3,S1,S3,L1"),
    ("Withdraw", "done,W1,B1 path,N1,S2"),
    ("View", "done,N1"),
    ("List", "done"),
    ("Search", "done,B1 needle,B1 class"),
    ("Addressed", "done"),
    ("Sharing", "done,N1"),
    ("MyGroups", "done"),
    ("MyCommunities", "done"),
    ("WhoAmI", "done"),
    ("Explain", "done,W1,B1 path,N1,N2,N3"),
    ("callers", "known,unknown"),
    (
        "replies",
        "Done,Numbers,Revision,View,Incidents,empty page,Groups,Communities,Sharing,Caller,Trace,Refused",
    ),
    (
        "withheld by",
        "G0,G1,G2,G4,G4X,H-GREEN,H-AMBER,H-STRICT,H-RED",
    ),
    (
        "explained by",
        "SRC,P,O,C,M,A,X,G0,G1,G2,G4,G4X,H-GREEN,H-AMBER,H-STRICT,H-RED",
    ),
];

/// Notes the reply to a request.
pub fn note(
    tally: &mut Tally,
    alloc: Global,
    request: &Request,
    reply: &Reply,
) -> Result<(), AllocError> {
    let outcome = outcome_of(alloc, reply)?;
    if outcome.as_str() == "K1" {
        return tally.note("callers", "unknown");
    }
    tally.note("callers", "known")?;
    tally.note(request_name(request), outcome.as_str())?;
    tally.note("replies", reply_name(reply))?;
    if let Reply::View(view) = reply {
        for (_, rule) in view.withheld.as_slice() {
            tally.note("withheld by", rule.name())?;
        }
    }
    if let Reply::Trace(text) = reply {
        tally.note("explained by", rule_in(text.as_str()))?;
    }
    Ok(())
}

/// Returns a line for each kind: its name, and how often each of its outcomes was met.
pub fn lines_of(alloc: Global, tally: &Tally) -> Result<Vec<String>, AllocError> {
    let mut lines = Vec::new(alloc);
    for (kind, outcomes) in KINDS {
        lines.push(line_of(alloc, tally, kind, outcomes)?)?;
    }
    Ok(lines)
}

fn line_of(alloc: Global, tally: &Tally, kind: &str, outcomes: &str) -> Result<String, AllocError> {
    let mut line = String::from_str(alloc, kind)?;
    for (place, outcome) in outcomes.split(',').enumerate() {
        line.push_str(if place == 0 { ": " } else { ", " })?;
        push_met(alloc, &mut line, outcome, tally.met(kind, outcome))?;
    }
    Ok(line)
}

fn push_met(alloc: Global, line: &mut String, outcome: &str, met: u32) -> Result<(), AllocError> {
    let text = format!(in alloc; "{outcome} {met}")?;
    line.push_str(text.as_str())
}

/// Returns whether each outcome was met, and no other.
pub fn is_full(tally: &Tally) -> bool {
    for (kind, outcomes) in KINDS {
        for outcome in outcomes.split(',') {
            if tally.met(kind, outcome) == 0 {
                return false;
            }
        }
    }
    tally.is_among(&KINDS)
}
