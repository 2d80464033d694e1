//! Edits of the directory, with one statement each.

ghost use Rattle.std.specs.Prelude.{◌≡◌, pos, [], ◌∷◌, IsTrue, OnOk};
ghost use Rattle.sqlite_value.specs.declared.value.Value.TheVariants.{Int, Text};
ghost use Rattle.sqlite.specs.State.{HasCleanDisk};
ghost use Rattle.sqlite.specs.Held.{state};
ghost use Rattle.circle.specs.declared.command.RowEdit.TheVariants.{PutOrg, PutAccount, Suspend, PutClient, TakeClient, PutCommunity, PutMembership};
ghost use Rattle.circle.specs.declared.command.RowEdit.TheVariants.{TakeMembership, PutConnection, TakeConnection, PutGroup, PutGroupMember, TakeGroupMember};
ghost use Rattle.circle.specs.declared.command.RowEdit.TheVariants.{SetGroupActive, PutArrangement, TakeArrangement, SetNominated, SetKey};
ghost use Rattle.hub_state.specs.State.{State};
ghost use Rattle.hub_state.specs.Edits.{edited};
ghost use Rattle.hub_state.specs.declared.edit.Edit.TheVariants.{Directory};
ghost use Rattle.hub_store.specs.Pairs.{pair_row, put_pair, take_pair};
ghost use Rattle.hub_store.specs.inner.PairKinds.{kind_name};
ghost use Rattle.hub_store.specs.Means.{Holds};
ghost use Rattle.hub_store.specs.Keeps.{Goes, HasRun};
ghost use Rattle.hub_store.specs.inner.Makes.{Makes};

use crate::numbers::{handling_number, one_if, role_number};
use crate::pair_kind::PairKind;
use crate::statement::run;
use circle::command::RowEdit;
use circle::directory::{
    Account, Arrangement, Client, Community, Connection, Group, GroupMember, Membership, Org,
};
use sqlite::{Alter, Error, Transaction, params};

fn put_org<S: Alter>(tx: &mut Transaction<'_, S>, org: &Org) -> Result<(), Error>
    ensures same_reference { tx.new.conn.ghost_name ≡ tx.old.conn.ghost_name }
    ensures made { (s : State) →
        Makes (state S.Store tx.old.conn.now) (state S.Store tx.new.conn.now) (λ db.
        Holds db s) (λ db. Holds db (edited (Directory (PutOrg org.now)) s)) result }
{
    run(
        tx,
        "INSERT INTO org (number, name) VALUES (?1, ?2)",
        params![org.number, org.name.as_str()],
    )
}

fn put_person<S: Alter>(tx: &mut Transaction<'_, S>, account: &Account) -> Result<(), Error>
    ensures same_reference { tx.new.conn.ghost_name ≡ tx.old.conn.ghost_name }
    ensures made { (s : State) →
        Makes (state S.Store tx.old.conn.now) (state S.Store tx.new.conn.now) (λ db.
        Holds db s) (λ db. Holds db (edited (Directory (PutAccount account.now)) s)) result }
{
    let person = &account.person;
    run(
        tx,
        "INSERT INTO person (number, org, name, role, key, active, nominated) VALUES (?1, ?2, ?3, ?4, ?5, ?6, ?7)",
        params![
            person.number,
            person.org,
            person.name.as_str(),
            role_number(person.role),
            account.key.as_slice(),
            person.active,
            person.nominated,
        ],
    )
}

fn put_community<S: Alter>(tx: &mut Transaction<'_, S>, community: &Community) -> Result<(), Error>
    ensures same_reference { tx.new.conn.ghost_name ≡ tx.old.conn.ghost_name }
    ensures made { (s : State) →
        Makes (state S.Store tx.old.conn.now) (state S.Store tx.new.conn.now) (λ db.
        Holds db s) (λ db. Holds db (edited (Directory (PutCommunity community.now)) s)) result }
{
    run(
        tx,
        "INSERT INTO community (number, name) VALUES (?1, ?2)",
        params![community.number, community.name.as_str()],
    )
}

fn put_group<S: Alter>(tx: &mut Transaction<'_, S>, group: &Group) -> Result<(), Error>
    ensures same_reference { tx.new.conn.ghost_name ≡ tx.old.conn.ghost_name }
    ensures made { (s : State) →
        Makes (state S.Store tx.old.conn.now) (state S.Store tx.new.conn.now) (λ db.
        Holds db s) (λ db. Holds db (edited (Directory (PutGroup group.now)) s)) result }
{
    run(
        tx,
        "INSERT INTO grp (number, owner, name, releasability, active) VALUES (?1, ?2, ?3, ?4, ?5)",
        params![
            group.number,
            group.owner,
            group.name.as_str(),
            group.releasability.as_str(),
            group.active,
        ],
    )
}

fn suspend<S: Alter>(tx: &mut Transaction<'_, S>, person: u32) -> Result<(), Error>
    ensures same_reference { tx.new.conn.ghost_name ≡ tx.old.conn.ghost_name }
    ensures made { (s : State) →
        Makes (state S.Store tx.old.conn.now) (state S.Store tx.new.conn.now) (λ db.
        Holds db s) (λ db. Holds db (edited (Directory (Suspend person)) s)) result }
{
    run(
        tx,
        "UPDATE person SET active = ?2 WHERE number = ?1",
        params![person, false],
    )
}

fn nominate<S: Alter>(
    tx: &mut Transaction<'_, S>,
    person: u32,
    nominated: bool,
) -> Result<(), Error>
    ensures same_reference { tx.new.conn.ghost_name ≡ tx.old.conn.ghost_name }
    ensures made { (s : State) →
        Makes (state S.Store tx.old.conn.now) (state S.Store tx.new.conn.now) (λ db.
        Holds db s) (λ db. Holds db (edited (Directory (SetNominated person nominated)) s)) result }
{
    run(
        tx,
        "UPDATE person SET nominated = ?2 WHERE number = ?1",
        params![person, nominated],
    )
}

fn set_key<S: Alter>(tx: &mut Transaction<'_, S>, person: u32, key: &[u8; 32]) -> Result<(), Error>
    ensures same_reference { tx.new.conn.ghost_name ≡ tx.old.conn.ghost_name }
    ensures made { (s : State) →
        Makes (state S.Store tx.old.conn.now) (state S.Store tx.new.conn.now) (λ db.
        Holds db s) (λ db. Holds db (edited (Directory (SetKey person key.now)) s)) result }
{
    run(
        tx,
        "UPDATE person SET key = ?2 WHERE number = ?1",
        params![person, key.as_slice()],
    )
}

fn switch<S: Alter>(tx: &mut Transaction<'_, S>, group: u32, active: bool) -> Result<(), Error>
    ensures same_reference { tx.new.conn.ghost_name ≡ tx.old.conn.ghost_name }
    ensures made { (s : State) →
        Makes (state S.Store tx.old.conn.now) (state S.Store tx.new.conn.now) (λ db.
        Holds db s) (λ db. Holds db (edited (Directory (SetGroupActive group active)) s)) result }
{
    run(
        tx,
        "UPDATE grp SET active = ?2 WHERE number = ?1",
        params![group, active],
    )
}

fn insert_pair<S: Alter>(
    tx: &mut Transaction<'_, S>,
    kind: PairKind,
    a: u32,
    b: u32,
    value: Option<u32>,
) -> Result<(), Error>
    ensures same_reference { tx.new.conn.ghost_name ≡ tx.old.conn.ghost_name }
    ensures goes { Goes (state S.Store tx.old.conn.now) (state S.Store tx.new.conn.now) result }
    ensures ran { HasCleanDisk (state S.Store tx.new.conn.now) →
        IsTrue (state S.Store tx.old.conn.now).in_transaction →
        OnOk result (HasRun S.Store put_pair
        (pair_row (kind_name kind) ((a, b), value)) tx.old.conn.now tx.new.conn.now) }
{
    run(
        tx,
        "INSERT INTO pair (kind, a, b, value) VALUES (?1, ?2, ?3, ?4)",
        params![kind.name(), a, b, value],
    )
}

fn remove_pair<S: Alter>(
    tx: &mut Transaction<'_, S>,
    kind: PairKind,
    a: u32,
    b: u32,
) -> Result<(), Error>
    ensures same_reference { tx.new.conn.ghost_name ≡ tx.old.conn.ghost_name }
    ensures goes { Goes (state S.Store tx.old.conn.now) (state S.Store tx.new.conn.now) result }
    ensures ran { HasCleanDisk (state S.Store tx.new.conn.now) →
        IsTrue (state S.Store tx.old.conn.now).in_transaction →
        OnOk result (HasRun S.Store take_pair
        (Text (kind_name kind) ∷ Int (pos a) ∷ Int (pos b) ∷ []) tx.old.conn.now tx.new.conn.now) }
{
    run(
        tx,
        "DELETE FROM pair WHERE kind = ?1 AND a = ?2 AND b = ?3",
        params![kind.name(), a, b],
    )
}

fn put_client<S: Alter>(tx: &mut Transaction<'_, S>, row: &Client) -> Result<(), Error>
    ensures same_reference { tx.new.conn.ghost_name ≡ tx.old.conn.ghost_name }
    ensures made { (s : State) →
        Makes (state S.Store tx.old.conn.now) (state S.Store tx.new.conn.now) (λ db.
        Holds db s) (λ db. Holds db (edited (Directory (PutClient row.now)) s)) result }
{
    insert_pair(tx, PairKind::Client, row.org, row.client, None)
}

fn put_membership<S: Alter>(tx: &mut Transaction<'_, S>, row: &Membership) -> Result<(), Error>
    ensures same_reference { tx.new.conn.ghost_name ≡ tx.old.conn.ghost_name }
    ensures made { (s : State) →
        Makes (state S.Store tx.old.conn.now) (state S.Store tx.new.conn.now) (λ db.
        Holds db s) (λ db. Holds db (edited (Directory (PutMembership row.now)) s)) result }
{
    insert_pair(tx, PairKind::Membership, row.community, row.org, None)
}

fn put_connection<S: Alter>(tx: &mut Transaction<'_, S>, row: &Connection) -> Result<(), Error>
    ensures same_reference { tx.new.conn.ghost_name ≡ tx.old.conn.ghost_name }
    ensures made { (s : State) →
        Makes (state S.Store tx.old.conn.now) (state S.Store tx.new.conn.now) (λ db.
        Holds db s) (λ db. Holds db (edited (Directory (PutConnection row.now)) s)) result }
{
    insert_pair(tx, PairKind::Connection, row.low, row.high, None)
}

fn put_group_member<S: Alter>(tx: &mut Transaction<'_, S>, row: &GroupMember) -> Result<(), Error>
    ensures same_reference { tx.new.conn.ghost_name ≡ tx.old.conn.ghost_name }
    ensures made { (s : State) →
        Makes (state S.Store tx.old.conn.now) (state S.Store tx.new.conn.now) (λ db.
        Holds db s) (λ db. Holds db (edited (Directory (PutGroupMember row.now)) s)) result }
{
    insert_pair(
        tx,
        PairKind::GroupMember,
        row.group,
        row.org,
        Some(one_if(row.extend)),
    )
}

fn put_arrangement<S: Alter>(tx: &mut Transaction<'_, S>, row: &Arrangement) -> Result<(), Error>
    ensures same_reference { tx.new.conn.ghost_name ≡ tx.old.conn.ghost_name }
    ensures made { (s : State) →
        Makes (state S.Store tx.old.conn.now) (state S.Store tx.new.conn.now) (λ db.
        Holds db s) (λ db. Holds db (edited (Directory (PutArrangement row.now)) s)) result }
{
    insert_pair(
        tx,
        PairKind::Arrangement,
        row.source,
        row.org,
        Some(handling_number(row.handling)),
    )
}

fn take_client<S: Alter>(tx: &mut Transaction<'_, S>, row: &Client) -> Result<(), Error>
    ensures same_reference { tx.new.conn.ghost_name ≡ tx.old.conn.ghost_name }
    ensures made { (s : State) →
        Makes (state S.Store tx.old.conn.now) (state S.Store tx.new.conn.now) (λ db.
        Holds db s) (λ db. Holds db (edited (Directory (TakeClient row.now)) s)) result }
{
    remove_pair(tx, PairKind::Client, row.org, row.client)
}

fn take_membership<S: Alter>(tx: &mut Transaction<'_, S>, row: &Membership) -> Result<(), Error>
    ensures same_reference { tx.new.conn.ghost_name ≡ tx.old.conn.ghost_name }
    ensures made { (s : State) →
        Makes (state S.Store tx.old.conn.now) (state S.Store tx.new.conn.now) (λ db.
        Holds db s) (λ db. Holds db (edited (Directory (TakeMembership row.now)) s)) result }
{
    remove_pair(tx, PairKind::Membership, row.community, row.org)
}

fn take_connection<S: Alter>(tx: &mut Transaction<'_, S>, row: &Connection) -> Result<(), Error>
    ensures same_reference { tx.new.conn.ghost_name ≡ tx.old.conn.ghost_name }
    ensures made { (s : State) →
        Makes (state S.Store tx.old.conn.now) (state S.Store tx.new.conn.now) (λ db.
        Holds db s) (λ db. Holds db (edited (Directory (TakeConnection row.now)) s)) result }
{
    remove_pair(tx, PairKind::Connection, row.low, row.high)
}

fn take_group_member<S: Alter>(
    tx: &mut Transaction<'_, S>,
    group: u32,
    org: u32,
) -> Result<(), Error>
    ensures same_reference { tx.new.conn.ghost_name ≡ tx.old.conn.ghost_name }
    ensures made { (s : State) →
        Makes (state S.Store tx.old.conn.now) (state S.Store tx.new.conn.now) (λ db.
        Holds db s) (λ db. Holds db (edited (Directory (TakeGroupMember group org)) s)) result }
{
    remove_pair(tx, PairKind::GroupMember, group, org)
}

fn take_arrangement<S: Alter>(
    tx: &mut Transaction<'_, S>,
    source: u32,
    org: u32,
) -> Result<(), Error>
    ensures same_reference { tx.new.conn.ghost_name ≡ tx.old.conn.ghost_name }
    ensures made { (s : State) →
        Makes (state S.Store tx.old.conn.now) (state S.Store tx.new.conn.now) (λ db.
        Holds db s) (λ db. Holds db (edited (Directory (TakeArrangement source org)) s)) result }
{
    remove_pair(tx, PairKind::Arrangement, source, org)
}

/// Makes one edit of the directory.
pub(crate) fn make_row<S: Alter>(tx: &mut Transaction<'_, S>, edit: &RowEdit) -> Result<(), Error>
    ensures same_reference { tx.new.conn.ghost_name ≡ tx.old.conn.ghost_name }
    ensures made { (s : State) →
        Makes (state S.Store tx.old.conn.now) (state S.Store tx.new.conn.now) (λ db.
        Holds db s) (λ db. Holds db (edited (Directory edit.now) s)) result }
{
    match edit {
        RowEdit::PutOrg(org) => put_org(tx, org),
        RowEdit::PutAccount(account) => put_person(tx, account),
        RowEdit::Suspend(person) => suspend(tx, *person),
        RowEdit::PutClient(row) => put_client(tx, row),
        RowEdit::TakeClient(row) => take_client(tx, row),
        RowEdit::PutCommunity(community) => put_community(tx, community),
        RowEdit::PutMembership(row) => put_membership(tx, row),
        RowEdit::TakeMembership(row) => take_membership(tx, row),
        RowEdit::PutConnection(row) => put_connection(tx, row),
        RowEdit::TakeConnection(row) => take_connection(tx, row),
        RowEdit::PutGroup(group) => put_group(tx, group),
        RowEdit::PutGroupMember(row) => put_group_member(tx, row),
        RowEdit::TakeGroupMember { group, org } => take_group_member(tx, *group, *org),
        RowEdit::SetGroupActive { group, active } => switch(tx, *group, *active),
        RowEdit::PutArrangement(row) => put_arrangement(tx, row),
        RowEdit::TakeArrangement { source, org } => take_arrangement(tx, *source, *org),
        RowEdit::SetNominated { person, nominated } => nominate(tx, *person, *nominated),
        RowEdit::SetKey { person, key } => set_key(tx, *person, key),
    }
}
