//! The kind of a request, and the outcome of its reply, as they are counted.

use hub_core::{Code, Reply, Request};
use std::alloc::{AllocError, Global};
use trying_hub::command_name;

/// Returns the kind of a request; a command of the directory has its own name.
pub fn request_name(request: &Request) -> &'static str {
    match request {
        Request::Circle(command) => command_name(command),
        Request::Post(_) => "Post",
        Request::Replace(_) => "Replace",
        Request::Redistribute(_) => "Redistribute",
        Request::Address(_) => "Address",
        Request::Unaddress(_) => "Unaddress",
        Request::Grant(_) => "Grant",
        Request::Withdraw(_) => "Withdraw",
        Request::View { .. } => "View",
        Request::List { .. } => "List",
        Request::Search(_) => "Search",
        Request::Addressed { .. } => "Addressed",
        Request::Sharing { .. } => "Sharing",
        Request::MyGroups => "MyGroups",
        Request::MyCommunities => "MyCommunities",
        Request::WhoAmI => "WhoAmI",
        Request::Explain(_) => "Explain",
    }
}

/// Returns the kind of a reply.
pub fn reply_name(reply: &Reply) -> &'static str {
    match reply {
        Reply::Done => "Done",
        Reply::Numbers(_) => "Numbers",
        Reply::Revision(_) => "Revision",
        Reply::View(_) => "View",
        Reply::Incidents(entries) if entries.as_slice().is_empty() => "empty page",
        Reply::Incidents(_) => "Incidents",
        Reply::Groups(_) => "Groups",
        Reply::Communities(_) => "Communities",
        Reply::Sharing(_) => "Sharing",
        Reply::Caller(_) => "Caller",
        Reply::Trace(_) => "Trace",
        Reply::Refused(_) => "Refused",
    }
}

/// Returns the rule by which an explanation says that a class is shown or hidden. Its first line is `verdict SIDE
/// RULE`.
pub fn rule_in(explanation: &str) -> &str {
    let line = explanation.lines().next().unwrap_or("");
    line.split(' ').nth(2).unwrap_or("")
}

/// Returns that it is done, or the refusal's code; with a word of its detail if a field or a body is bad.
pub fn outcome_of(alloc: Global, reply: &Reply) -> Result<String, AllocError> {
    let Reply::Refused(refusal) = reply else {
        return String::from_str(alloc, "done");
    };
    let code = refusal.code.name();
    if refusal.code != Code::B1 {
        return String::from_str(alloc, code);
    }
    let word = refusal.detail.as_str().split(' ').next().unwrap_or("");
    format!(in alloc; "{code} {word}")
}
