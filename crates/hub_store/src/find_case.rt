//! The case of an incident: what it is judged by, without its document.

ghost use Rattle.std.specs.Prelude.{◌≡◌, false};
ghost use Rattle.sqlite.specs.Held.{state};
ghost use Rattle.hub_state.specs.Reads.{case_of, its_gates};
ghost use Rattle.hub_store.specs.inner.Queries.{IsReadInside, IsReadOutside};
ghost use Rattle.hub_store.specs.inner.Shown.{IsCase};

use crate::find_gates::read_gates;
use crate::find_naming::read_naming;
use crate::find_permissions::read_permissions;
use crate::from_row::STRANGE;
use hub_state::Naming;
use policy::{Case, Gates};
use sqlite::{Alter, Connection, Error, Transaction};
use std::alloc::Global;

/// Whether one of the gates is at the root.
fn has_root_gate(gates: &Gates) -> bool {
    gates
        .as_slice()
        .iter()
        .any(|gate| gate.path.tokens().is_empty())
}

/// The gates of an incident. Fails if none is at its root: the others would let everybody pass, and a sound state has
/// one there. Looking the gates up for a request of the source doesn't fail, so that it can set the missing one.
fn read_rooted_gates<S: Alter>(
    tx: &mut Transaction<'_, S>,
    alloc: Global,
    incident: u32,
) -> Result<Gates, Error>
    ensures same_reference { tx.new.conn.ghost_name ≡ tx.old.conn.ghost_name }
    ensures read { IsReadInside (state S.Store tx.old.conn.now)
        (state S.Store tx.new.conn.now) (λ s found. found ≡ its_gates incident s.gates) result }
{
    let gates = read_gates(tx, alloc, incident)?;
    if !has_root_gate(&gates) {
        return Err(STRANGE);
    }
    Ok(gates)
}

/// The gates and the permissions of an incident, with its naming.
fn read_policy<S: Alter>(
    tx: &mut Transaction<'_, S>,
    alloc: Global,
    naming: &Naming,
    incident: u32,
) -> Result<Case, Error>
    ensures same_reference { tx.new.conn.ghost_name ≡ tx.old.conn.ghost_name }
    ensures read { IsReadInside (state S.Store tx.old.conn.now)
        (state S.Store tx.new.conn.now) (λ s case. IsCase naming.now incident s case) result }
{
    let gates = read_rooted_gates(tx, alloc, incident)?;
    let permissions = read_permissions(tx, alloc, incident)?;
    Ok(Case {
        source: naming.source,
        community: naming.community,
        gates,
        permissions,
    })
}

fn read_case<S: Alter>(
    tx: &mut Transaction<'_, S>,
    alloc: Global,
    incident: u32,
) -> Result<Option<Case>, Error>
    ensures same_reference { tx.new.conn.ghost_name ≡ tx.old.conn.ghost_name }
    ensures read { IsReadInside (state S.Store tx.old.conn.now)
        (state S.Store tx.new.conn.now) (λ s found. found ≡ case_of incident s) result }
{
    let naming = read_naming(tx, alloc, incident)?;
    match naming {
        None => Ok(None),
        Some(naming) => {
            let case = read_policy(tx, alloc, &naming, incident)?;
            Ok(Some(case))
        }
    }
}

/// The case of an incident. None if it is missing.
pub(crate) fn find_case<S: Alter>(
    conn: &mut Connection<S>,
    alloc: Global,
    incident: u32,
) -> Result<Option<Case>, Error>
    requires { conn.old.in_transaction ≡ false }
    ensures idle { conn.new.in_transaction ≡ false }
    ensures answers { IsReadOutside (state S.Store conn.old)
        (state S.Store conn.new) (λ s found. found ≡ case_of incident s) result }
{
    let mut tx = conn.transaction();
    let found = read_case(&mut tx, alloc, incident);
    tx.rollback();
    found
}
