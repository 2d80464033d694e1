//! The edit of a command whose arguments are good.
ghost use Rattle.std.specs.Prelude.{◌≡◌, ◌==◌, Ok, true, false, not, codes, None, IfOk, IfErr, OnOk};
ghost use Rattle.circle.specs.declared.command.Edit.TheVariants.{Row, Found};
ghost use Rattle.circle.specs.declared.command.RowEdit.TheVariants.{PutOrg, PutAccount, PutCommunity};
ghost use Rattle.circle.specs.Texts.{is_name, is_releasability};
ghost use Rattle.circle.specs.Aftermath.{edit_of, rows_of};
ghost use Rattle.circle.specs.Judgement.{bad_field, field_if};
ghost use Rattle.circle.specs.inner.Unfit.{TellsUnfit};

use crate::command::{CircleCommand, Edit, RowEdit};
use crate::directory::{
    Account, Arrangement, Client, Community, Connection, Group, GroupMember, Membership, Org,
    Person, Role,
};
use crate::name::Name;
use crate::releasability::Releasability;
use crate::text::Text;
use std::alloc::{AllocError, Global};

/// Why there is no edit.
#[derive(Clone, Copy)]
pub enum Unfit {
    /// The first bad field.
    BadField(&'static str),
    /// Memory ran out.
    NoMemory,
}

impl CircleCommand {
    /// Returns the edit of the command, whose new row gets this number. Fails with the first bad field.
    pub(crate) fn edit(&self, alloc: Global, actor: &Person, number: u32) -> Result<Edit, Unfit>
        ensures good { OnOk result (bad_field self.now actor.now ≡ None) }
        ensures value { IfOk result (λ edit. edit ≡ edit_of number actor.now self.now) }
        ensures bad { IfErr result (TellsUnfit (bad_field self.now actor.now)) }
    {
        // A table with an arm for each command. In two halves, each would have to say which commands it gets, and
        // prove that it never meets the others.
        match *self {
            CircleCommand::AddOrg { ref name } => new_org(alloc, number, name),
            CircleCommand::AddPerson {
                org,
                ref name,
                role,
                key,
            } => new_account(alloc, number, org, name, role, key),
            CircleCommand::AddCommunity { ref name } => new_community(alloc, number, name),
            CircleCommand::NewGroup {
                ref name,
                ref releasability,
            } => new_group(alloc, number, actor.org, name, releasability),
            CircleCommand::SuspendPerson { person } => {
                unless_same(person, actor.number, "person", RowEdit::Suspend(person))
            }
            CircleCommand::AddClient { org, client } => {
                let row = Client { org, client };
                unless_same(org, client, "client", RowEdit::PutClient(row))
            }
            CircleCommand::RemoveClient { org, client } => {
                let row = Client { org, client };
                unless_same(org, client, "client", RowEdit::TakeClient(row))
            }
            CircleCommand::Link { community, other } => {
                let row = Connection::between(community, other);
                unless_same(community, other, "other", RowEdit::PutConnection(row))
            }
            CircleCommand::Unlink { community, other } => {
                let row = Connection::between(community, other);
                unless_same(community, other, "other", RowEdit::TakeConnection(row))
            }
            CircleCommand::Arrange { org, handling } => {
                let row = Arrangement {
                    source: actor.org,
                    org,
                    handling,
                };
                unless_same(org, actor.org, "org", RowEdit::PutArrangement(row))
            }
            CircleCommand::Join { community, org } => {
                row(RowEdit::PutMembership(Membership { community, org }))
            }
            CircleCommand::Leave { community, org } => {
                row(RowEdit::TakeMembership(Membership { community, org }))
            }
            CircleCommand::GroupAdd { group, org, extend } => {
                row(RowEdit::PutGroupMember(GroupMember { group, org, extend }))
            }
            CircleCommand::GroupRemove { group, org } => {
                row(RowEdit::TakeGroupMember { group, org })
            }
            CircleCommand::GroupActive { group, active } => {
                row(RowEdit::SetGroupActive { group, active })
            }
            CircleCommand::CancelArrange { org } => {
                row(RowEdit::TakeArrangement {
                    source: actor.org,
                    org,
                })
            }
            CircleCommand::Nominate { person } => row(RowEdit::SetNominated {
                person,
                nominated: true,
            }),
            CircleCommand::Unnominate { person } => row(RowEdit::SetNominated {
                person,
                nominated: false,
            }),
            CircleCommand::NewKey { key } => row(RowEdit::SetKey {
                person: actor.number,
                key,
            }),
        }
    }
}

/// Returns the edit of a row that no argument can spoil.
fn row(edit: RowEdit) -> Result<Edit, Unfit>
    ensures { result ≡ Ok (Row edit) }
{
    Ok(Edit::Row(edit))
}

/// Returns the edit of a row. Fails with the field if two numbers that have to differ are the same.
fn unless_same(one: u32, other: u32, field: &'static str, edit: RowEdit) -> Result<Edit, Unfit>
    ensures good { OnOk result (field_if (one == other) field.now None ≡ None) }
    ensures value { IfOk result (λ made. made ≡ Row edit) }
    ensures bad { IfErr result (TellsUnfit (field_if (one == other) field.now None)) }
{
    if one == other {
        Err(Unfit::BadField(field))
    } else {
        row(edit)
    }
}

/// Returns the text as a name. Fails with the field `name`.
fn fit_name(alloc: Global, text: &Text) -> Result<Name, Unfit>
    ensures good { OnOk result (is_name text.now ≡ true) }
    ensures value { IfOk result (λ name. name ≡ text.now) }
    ensures bad { IfErr result (TellsUnfit
        (field_if (not (is_name text.now)) (codes "name") None)) }
{
    match Name::of(alloc, text.as_str()) {
        Ok(Some(name)) => Ok(name),
        Ok(None) => Err(Unfit::BadField("name")),
        Err(_) => Err(Unfit::NoMemory),
    }
}

/// Returns the text as a releasability. Fails with the field `releasability`.
fn fit_releasability(alloc: Global, text: &Text) -> Result<Releasability, Unfit>
    ensures good { OnOk result (is_releasability text.now ≡ true) }
    ensures value { IfOk result (λ found. found ≡ text.now) }
    ensures bad { IfErr result
        (TellsUnfit (field_if (not (is_releasability text.now)) (codes "releasability") None)) }
{
    match Releasability::of(alloc, text.as_str()) {
        Ok(Some(releasability)) => Ok(releasability),
        Ok(None) => Err(Unfit::BadField("releasability")),
        Err(_) => Err(Unfit::NoMemory),
    }
}

/// Returns the edit that puts in an organisation.
fn new_org(alloc: Global, number: u32, name: &Text) -> Result<Edit, Unfit>
    ensures good { OnOk result (field_if (not (is_name name.now)) (codes "name") None ≡ None) }
    ensures value { IfOk result (λ edit. edit ≡
        Row (PutOrg (record { number = number; name = name.now }))) }
    ensures bad { IfErr result (TellsUnfit
        (field_if (not (is_name name.now)) (codes "name") None)) }
{
    let name = fit_name(alloc, name)?;
    Ok(Edit::Row(RowEdit::PutOrg(Org { number, name })))
}

/// Returns the edit that puts in a person, active and not nominated.
fn new_account(
    alloc: Global,
    number: u32,
    org: u32,
    name: &Text,
    role: Role,
    key: [u8; 32],
) -> Result<Edit, Unfit>
    ensures good { OnOk result (field_if (not (is_name name.now)) (codes "name") None ≡ None) }
    ensures value { IfOk result (λ edit. edit ≡
        Row (PutAccount
        (record {
          person = record {
            number = number;
            org = org;
            name = name.now;
            role = role;
            active = true;
            nominated = false;
          };
          key = key;
        }))) }
    ensures bad { IfErr result (TellsUnfit
        (field_if (not (is_name name.now)) (codes "name") None)) }
{
    let name = fit_name(alloc, name)?;
    let person = Person {
        number,
        org,
        name,
        role,
        active: true,
        nominated: false,
    };
    Ok(Edit::Row(RowEdit::PutAccount(Account { person, key })))
}

/// Returns the edit that puts in a community.
fn new_community(alloc: Global, number: u32, name: &Text) -> Result<Edit, Unfit>
    ensures good { OnOk result (field_if (not (is_name name.now)) (codes "name") None ≡ None) }
    ensures value { IfOk result (λ edit. edit ≡
        Row (PutCommunity (record { number = number; name = name.now }))) }
    ensures bad { IfErr result (TellsUnfit
        (field_if (not (is_name name.now)) (codes "name") None)) }
{
    let name = fit_name(alloc, name)?;
    Ok(Edit::Row(RowEdit::PutCommunity(Community { number, name })))
}

/// Returns the edit that founds an active group.
fn new_group(
    alloc: Global,
    number: u32,
    owner: u32,
    name: &Text,
    releasability: &Text,
) -> Result<Edit, Unfit>
    ensures good { OnOk result (field_if (not (is_name name.now)) (codes "name")
        (field_if (not (is_releasability releasability.now)) (codes "releasability") None) ≡ None) }
    ensures value { IfOk result (λ edit. edit ≡
        Found (record {
          number = number;
          owner = owner;
          name = name.now;
          releasability = releasability.now;
          active = true;
        })) }
    ensures bad { IfErr result
        (TellsUnfit (field_if (not (is_name name.now)) (codes "name")
        (field_if (not (is_releasability releasability.now)) (codes "releasability") None))) }
{
    let name = fit_name(alloc, name)?;
    let releasability = fit_releasability(alloc, releasability)?;
    Ok(Edit::Found(Group {
        number,
        owner,
        name,
        releasability,
        active: true,
    }))
}

impl Edit {
    /// Returns the change as edits of rows, which are to be made one after another. Fails if memory runs out.
    pub fn into_rows(self, alloc: Global) -> Result<Vec<RowEdit>, AllocError>
        ensures { IfOk result (λ rows. rows.items ≡ rows_of self) }
    {
        let mut rows = Vec::new(alloc);
        match self {
            Edit::Row(edit) => rows.push(edit)?,
            Edit::Found(group) => {
                let founder = GroupMember {
                    group: group.number,
                    org: group.owner,
                    extend: true,
                };
                rows.push(RowEdit::PutGroup(group))?;
                rows.push(RowEdit::PutGroupMember(founder))?;
            }
        }
        Ok(rows)
    }
}
