//! Refusals, edits and rows in words. A refusal is its code and, if there is one, its detail.
//!
//! - An organisation or a community is its number and its name. Texts are in quotes, and unusual characters are
//!   escaped.
//! - A person is `2 of 3 "p" reader active nominated`: its number, its organisation, name and role, `active` or
//!   `suspended`, and `nominated` if it is. If the person is put, its key follows: `32*7` is 32 bytes that are 7.
//! - A group is `2 of 3 "h" "all" inactive`: its number, its owner, name and releasability, `active` or `inactive`.
//! - A client is `5 of 2`, a member `4 of community 1` or `4 of group 1 extend`, a connection `1 and 2`, an arrangement
//!   `of 2 for 3 GREEN`: how 3 handles what 2 marks `default`.
//!
//! An edit puts, takes or sets one of these; `found` is the group with its owner as a member. Rows have a semicolon
//! between them; `none` is no row.
use circle::command::{Edit, RowEdit};
use circle::directory::{
    Account, Arrangement, Client, Community, Connection, Group, GroupMember, Handling, Membership,
    Org, Person, Role,
};
use circle::refusal::Refusal;
use std::alloc::{AllocError, Global};

/// A row of the directory, which has words.
pub trait Row {
    fn words(&self, alloc: Global) -> Result<String, AllocError>;
}

/// Returns the rows of a set.
pub fn rows<T: Row>(alloc: Global, rows: &[T]) -> Result<String, AllocError> {
    let mut all = String::new(alloc);
    for row in rows {
        if !all.is_empty() {
            all.push_str("; ")?;
        }
        all.push_str(row.words(alloc)?.as_str())?;
    }
    if all.is_empty() {
        all.push_str("none")?;
    }
    Ok(all)
}

/// Returns a row that may be there.
pub fn row_if_any<T: Row>(alloc: Global, row: Option<&T>) -> Result<String, AllocError> {
    match row {
        Some(row) => row.words(alloc),
        None => String::from_str(alloc, "none"),
    }
}

impl Row for u32 {
    fn words(&self, alloc: Global) -> Result<String, AllocError> {
        format!(in alloc; "{self}")
    }
}

impl Row for Handling {
    fn words(&self, alloc: Global) -> Result<String, AllocError> {
        String::from_str(alloc, handling_name(*self))
    }
}

impl Row for Org {
    fn words(&self, alloc: Global) -> Result<String, AllocError> {
        named(alloc, self.number, self.name.as_str())
    }
}

impl Row for Community {
    fn words(&self, alloc: Global) -> Result<String, AllocError> {
        named(alloc, self.number, self.name.as_str())
    }
}

impl Row for Person {
    fn words(&self, alloc: Global) -> Result<String, AllocError> {
        let (number, org, name) = (self.number, self.org, self.name.as_str());
        let role = role_name(self.role);
        let active = if self.active { "active" } else { "suspended" };
        let nominated = if self.nominated { " nominated" } else { "" };
        format!(in alloc; "{number} of {org} {name:?} {role} {active}{nominated}")
    }
}

impl Row for Account {
    fn words(&self, alloc: Global) -> Result<String, AllocError> {
        let person = self.person.words(alloc)?;
        let key = key_text(alloc, &self.key)?;
        format!(in alloc; "{person} key {key}")
    }
}

impl Row for Group {
    fn words(&self, alloc: Global) -> Result<String, AllocError> {
        let (number, owner) = (self.number, self.owner);
        let (name, releasability) = (self.name.as_str(), self.releasability.as_str());
        let active = active_or_not(self.active);
        format!(in alloc; "{number} of {owner} {name:?} {releasability:?} {active}")
    }
}

impl Row for Client {
    fn words(&self, alloc: Global) -> Result<String, AllocError> {
        let (org, client) = (self.org, self.client);
        format!(in alloc; "{client} of {org}")
    }
}

impl Row for Membership {
    fn words(&self, alloc: Global) -> Result<String, AllocError> {
        let (community, org) = (self.community, self.org);
        format!(in alloc; "{org} of community {community}")
    }
}

impl Row for Connection {
    fn words(&self, alloc: Global) -> Result<String, AllocError> {
        let (low, high) = (self.low, self.high);
        format!(in alloc; "{low} and {high}")
    }
}

impl Row for GroupMember {
    fn words(&self, alloc: Global) -> Result<String, AllocError> {
        let (group, org) = (self.group, self.org);
        let extend = if self.extend { " extend" } else { "" };
        format!(in alloc; "{org} of group {group}{extend}")
    }
}

impl Row for Arrangement {
    fn words(&self, alloc: Global) -> Result<String, AllocError> {
        let (source, org) = (self.source, self.org);
        let handling = handling_name(self.handling);
        format!(in alloc; "of {source} for {org} {handling}")
    }
}

fn named(alloc: Global, number: u32, name: &str) -> Result<String, AllocError> {
    format!(in alloc; "{number} {name:?}")
}

/// Returns the key as the table writes a byte that is repeated, or each byte if they differ.
fn key_text(alloc: Global, key: &[u8; 32]) -> Result<String, AllocError> {
    match key.first() {
        Some(first) if key.iter().all(|byte| byte == first) => format!(in alloc; "32*{first}"),
        _ => format!(in alloc; "{key:?}"),
    }
}

fn role_name(role: Role) -> &'static str {
    match role {
        Role::Administrator => "administrator",
        Role::Coordinator => "coordinator",
        Role::Poster => "poster",
        Role::Reader => "reader",
    }
}

fn handling_name(handling: Handling) -> &'static str {
    match handling {
        Handling::Clear => "CLEAR",
        Handling::Green => "GREEN",
        Handling::Amber => "AMBER",
        Handling::Strict => "STRICT",
        Handling::Red => "RED",
    }
}

fn active_or_not(active: bool) -> &'static str {
    if active { "active" } else { "inactive" }
}

/// Returns the code and, if there is one, the detail.
pub fn refusal(alloc: Global, refusal: &Refusal) -> Result<String, AllocError> {
    let code = refusal.code.name();
    let detail = refusal.detail.as_str();
    if detail.is_empty() {
        return String::from_str(alloc, code);
    }
    format!(in alloc; "{code} {detail}")
}

/// Returns the whole change that a command makes.
pub fn edit(alloc: Global, edit: &Edit) -> Result<String, AllocError> {
    match edit {
        Edit::Row(row) => row_edit(alloc, row),
        Edit::Found(group) => of_row(alloc, "found group", group),
    }
}

/// Returns the verb and the row.
fn of_row<T: Row>(alloc: Global, verb: &str, row: &T) -> Result<String, AllocError> {
    let row = row.words(alloc)?;
    format!(in alloc; "{verb} {row}")
}

fn row_edit(alloc: Global, edit: &RowEdit) -> Result<String, AllocError> {
    match edit {
        RowEdit::PutOrg(row) => of_row(alloc, "put org", row),
        RowEdit::PutAccount(row) => of_row(alloc, "put person", row),
        RowEdit::Suspend(person) => of_row(alloc, "suspend person", person),
        RowEdit::PutClient(row) => of_row(alloc, "put client", row),
        RowEdit::TakeClient(row) => of_row(alloc, "take client", row),
        RowEdit::PutCommunity(row) => of_row(alloc, "put community", row),
        RowEdit::PutMembership(row) => of_row(alloc, "put member", row),
        RowEdit::TakeMembership(row) => of_row(alloc, "take member", row),
        RowEdit::PutConnection(row) => of_row(alloc, "put connection", row),
        RowEdit::TakeConnection(row) => of_row(alloc, "take connection", row),
        RowEdit::PutGroup(row) => of_row(alloc, "put group", row),
        RowEdit::PutGroupMember(row) => of_row(alloc, "put member", row),
        RowEdit::TakeGroupMember { group, org } => {
            format!(in alloc; "take member {org} of group {group}")
        }
        RowEdit::SetGroupActive { group, active } => {
            let active = active_or_not(*active);
            format!(in alloc; "set group {group} {active}")
        }
        RowEdit::PutArrangement(row) => of_row(alloc, "put arrangement", row),
        RowEdit::TakeArrangement { source, org } => {
            format!(in alloc; "take arrangement of {source} for {org}")
        }
        RowEdit::SetNominated { person, nominated } => {
            let nominated = if *nominated {
                "nominated"
            } else {
                "not nominated"
            };
            format!(in alloc; "set person {person} {nominated}")
        }
        RowEdit::SetKey { person, key } => {
            let key = key_text(alloc, key)?;
            format!(in alloc; "set person {person} key {key}")
        }
    }
}
