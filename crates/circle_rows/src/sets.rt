//! The nine sets of a directory in memory, each in the order of its key.
ghost use Rattle.std.specs.Prelude.{◌≡◌, ◌+◌, ◌==◌, ℕ, false, OnOk, if◌then◌else◌, length};
ghost use Rattle.std.specs.Vec.{vec_len, vec_capacity};
ghost use Rattle.circle.specs.Directory.{empty};
ghost use Rattle.circle.specs.Aftermath.{edited_row, exchange_account, exchange_group, exchange_key};

use crate::keyed::{Keyed, put_row, take_rows};
use circle::command::RowEdit;
use circle::directory::{
    Account, Arrangement, Client, Community, Connection, Group, GroupMember, Membership, Org,
};
use std::alloc::{AllocError, Global};

/// The rows of each set, in the order of its key.
#[derive(Drop)]
pub(crate) struct Sets {
    pub orgs: Vec<Org>,
    pub accounts: Vec<Account>,
    pub clients: Vec<Client>,
    pub communities: Vec<Community>,
    pub memberships: Vec<Membership>,
    pub connections: Vec<Connection>,
    pub groups: Vec<Group>,
    pub group_members: Vec<GroupMember>,
    pub arrangements: Vec<Arrangement>,
}

impl Sets {
    ghost use Rattle.circle_rows.specs.Rows.{directory_of, IsAscending, HasRoom};

    /// Returns the sets without a row. Allocates nothing.
    pub fn new(alloc: Global) -> Sets
        ensures { directory_of result ≡ empty }
    {
        Sets {
            orgs: Vec::new(alloc),
            accounts: Vec::new(alloc),
            clients: Vec::new(alloc),
            communities: Vec::new(alloc),
            memberships: Vec::new(alloc),
            connections: Vec::new(alloc),
            groups: Vec::new(alloc),
            group_members: Vec::new(alloc),
            arrangements: Vec::new(alloc),
        }
    }

    /// Allocates room for this many rows more in each set.
    pub fn reserve(&mut self, more: usize) -> Result<(), AllocError>
        ensures same { directory_of self.new ≡ directory_of self.old }
        ensures room { OnOk result (HasRoom more self.new) }
    {
        self.orgs.reserve(more)?;
        self.accounts.reserve(more)?;
        self.clients.reserve(more)?;
        self.communities.reserve(more)?;
        self.memberships.reserve(more)?;
        self.connections.reserve(more)?;
        self.groups.reserve(more)?;
        self.group_members.reserve(more)?;
        self.arrangements.reserve(more)
    }

    /// Makes the edit. There is room for a row in each set.
    pub fn edit(&mut self, edit: RowEdit)
        requires room { HasRoom 1 self.old }
        requires order { IsAscending (directory_of self.old) }
        ensures value { directory_of self.new ≡ edited_row edit (directory_of self.old) }
        ensures left { (n : ℕ) → HasRoom (n + 1) self.old → HasRoom n self.new }
    {
        match edit {
            RowEdit::PutOrg(org) => put_row(&mut self.orgs, org),
            RowEdit::PutAccount(account) => put_row(&mut self.accounts, account),
            RowEdit::Suspend(person) => suspend(&mut self.accounts, person),
            RowEdit::PutClient(client) => put_row(&mut self.clients, client),
            RowEdit::TakeClient(client) => take_rows(&mut self.clients, client.key()),
            RowEdit::PutCommunity(community) => put_row(&mut self.communities, community),
            RowEdit::PutMembership(membership) => put_row(&mut self.memberships, membership),
            RowEdit::TakeMembership(membership) => {
                take_rows(&mut self.memberships, membership.key())
            }
            RowEdit::PutConnection(link) => put_row(&mut self.connections, link),
            RowEdit::TakeConnection(link) => take_rows(&mut self.connections, link.key()),
            RowEdit::PutGroup(group) => put_row(&mut self.groups, group),
            RowEdit::PutGroupMember(member) => put_row(&mut self.group_members, member),
            RowEdit::TakeGroupMember { group, org } => {
                take_rows(&mut self.group_members, (group, org))
            }
            RowEdit::SetGroupActive { group, active } => switch(&mut self.groups, group, active),
            RowEdit::PutArrangement(arrangement) => put_row(&mut self.arrangements, arrangement),
            RowEdit::TakeArrangement { source, org } => {
                take_rows(&mut self.arrangements, (source, org))
            }
            RowEdit::SetNominated { person, nominated } => {
                nominate(&mut self.accounts, person, nominated)
            }
            RowEdit::SetKey { person, key } => set_key(&mut self.accounts, person, key),
        }
    }
}

impl Sets {
    ghost use Rattle.circle.specs.Aftermath.{edited_rows};
    ghost use Rattle.circle_rows.specs.Rows.{directory_of, IsAscending, HasRoom};

    /// Makes the edits one after another. There is room for a row for each.
    pub fn edit_all(&mut self, edits: Vec<RowEdit>)
        requires room { HasRoom (length edits.items) self.old }
        requires order { IsAscending (directory_of self.old) }
        ensures value { directory_of self.new ≡ edited_rows edits.items (directory_of self.old) }
        ensures kept { IsAscending (directory_of self.new) }
    {
        for edit in edits {
            self.edit(edit);
        }
    }
}

/// Makes the person inactive.
fn suspend(rows: &mut Vec<Account>, person: u32)
    ensures items { rows.new.items ≡
        exchange_account person (λ p. record p { active = false }) rows.old.items }
    ensures len { vec_len rows.new ≡ vec_len rows.old }
    ensures capacity { vec_capacity rows.new ≡ vec_capacity rows.old }
{
    for row in rows.iter_mut() {
        suspend_row(row, person);
    }
}

/// Makes the person of the row inactive, if it is this one.
fn suspend_row(row: &mut Account, person: u32)
    ensures { row.new ≡ (if row.old.person.number == person then record
        (row.old) { person = record (row.old.person) { active = false } } else row.old) }
{
    if row.person.number == person {
        row.person.active = false;
    }
}

/// Sets whether the person is nominated.
fn nominate(rows: &mut Vec<Account>, person: u32, nominated: bool)
    ensures items { rows.new.items ≡
        exchange_account person (λ p. record p { nominated = nominated }) rows.old.items }
    ensures len { vec_len rows.new ≡ vec_len rows.old }
    ensures capacity { vec_capacity rows.new ≡ vec_capacity rows.old }
{
    for row in rows.iter_mut() {
        nominate_row(row, person, nominated);
    }
}

/// The same of the person of the row, if it is this one.
fn nominate_row(row: &mut Account, person: u32, nominated: bool)
    ensures { row.new ≡ (if row.old.person.number == person then record
        (row.old) { person = record (row.old.person) { nominated = nominated } } else row.old) }
{
    if row.person.number == person {
        row.person.nominated = nominated;
    }
}

/// Exchanges the key of the person.
fn set_key(rows: &mut Vec<Account>, person: u32, key: [u8; 32])
    ensures items { rows.new.items ≡ exchange_key person key rows.old.items }
    ensures len { vec_len rows.new ≡ vec_len rows.old }
    ensures capacity { vec_capacity rows.new ≡ vec_capacity rows.old }
{
    for row in rows.iter_mut() {
        set_row_key(row, person, key);
    }
}

/// The same of the person of the row, if it is this one.
fn set_row_key(row: &mut Account, person: u32, key: [u8; 32])
    ensures { row.new ≡ (if row.old.person.number == person then record
        (row.old) { key = key } else row.old) }
{
    if row.person.number == person {
        row.key = key;
    }
}

/// Sets whether the group is active.
fn switch(rows: &mut Vec<Group>, group: u32, active: bool)
    ensures items { rows.new.items ≡
        exchange_group group (λ g. record g { active = active }) rows.old.items }
    ensures len { vec_len rows.new ≡ vec_len rows.old }
    ensures capacity { vec_capacity rows.new ≡ vec_capacity rows.old }
{
    for row in rows.iter_mut() {
        switch_row(row, group, active);
    }
}

/// The same of the group of the row, if it is this one.
fn switch_row(row: &mut Group, group: u32, active: bool)
    ensures { row.new ≡ (if row.old.number == group then record
        (row.old) { active = active } else row.old) }
{
    if row.number == group {
        row.active = active;
    }
}
