//! The rows of a new store.
ghost use Rattle.std.specs.Prelude.{◌≡◌, ◌⊎◌, ◌↔◌, Option, Some, IfOk, OnOk, OnErr};
ghost use Rattle.hub_core.specs.Shelves.{KeepsContent};
ghost use Rattle.hub_core.specs.State.{State, empty};
ghost use Rattle.hub_service.specs.FirstRows as spec;

use circle::command::RowEdit;
use circle::directory::{Account, Org, Person, Role};
use circle::name::Name;
use hub_core::{Edit, Shelf, ShelfFault};
use std::alloc::{AllocError, Global};

/// Person 1 of organisation 1.
fn first_account(alloc: Global, key: [u8; 32]) -> Result<Account, AllocError>
    ensures { IfOk result (λ account. account ≡ spec.first_account key) }
{
    let Some(name) = Name::of(alloc, "admin")? else {
        unreachable!()
    };
    Ok(Account {
        person: Person {
            number: 1,
            org: 1,
            name,
            role: Role::Administrator,
            active: true,
            nominated: false,
        },
        key,
    })
}

fn first_edits(alloc: Global, name: Name, key: [u8; 32]) -> Result<Vec<Edit>, AllocError>
    ensures { IfOk result (λ edits. edits.items ≡ spec.first_edits name key) }
{
    let org = Org { number: 1, name };
    let account = first_account(alloc, key)?;
    let mut edits = Vec::new(alloc);
    edits.push(Edit::Directory(RowEdit::PutOrg(org)))?;
    edits.push(Edit::Directory(RowEdit::PutAccount(account)))?;
    Ok(edits)
}

/// Puts organisation 1 with this name, and its administrator, whose key has this SHA-256, into a shelf without rows. If
/// it fails, the shelf has what it had.
#[tactic(auto, using(crate::proofs::FirstRows::first_is_sound))]
pub fn put_first_rows<Sh: Shelf>(
    alloc: Global,
    shelf: &mut Sh,
    name: Name,
    key: [u8; 32],
) -> Result<(), ShelfFault>
    ensures made { Sh.doubts shelf.new ≡ 0 → Sh.has shelf.old empty →
        OnOk result (Sh.has shelf.new (spec.first_state name key)) }
    ensures none { OnErr result
        (KeepsContent Sh.has Sh.doubts Sh.failed Sh.may_remain shelf.old shelf.new) }
    ensures durable { Sh.doubts shelf.new ≡ 0 → Sh.has shelf.old empty →
        OnOk result ((left : Option State) → Sh.may_remain shelf.new left ↔
        (left ≡ Some (spec.first_state name key))) }
    ensures crash { Sh.doubts shelf.new ≡ 0 → Sh.has shelf.old empty → (left : Option State) →
        Sh.may_remain shelf.new left → Sh.may_remain shelf.old left ⊎
        (left ≡ Some (spec.first_state name key)) }
{
    match first_edits(alloc, name, key) {
        Ok(edits) => shelf.apply(edits.as_slice()),
        Err(_) => Err(ShelfFault::NoMemory),
    }
}
