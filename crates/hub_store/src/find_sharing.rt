//! How an incident is shared.

ghost use Rattle.std.specs.Prelude.{◌≡◌, false};
ghost use Rattle.sqlite.specs.Held.{state};
ghost use Rattle.hub_state.specs.Reads.{sharing_of};
ghost use Rattle.hub_store.specs.inner.Queries.{IsReadInside, IsReadOutside};

use crate::find_naming::read_naming;
use crate::find_recipients::read_recipients;
use hub_state::Shared;
use sqlite::{Alter, Connection, Error, Transaction};
use std::alloc::Global;

fn read_sharing<S: Alter>(
    tx: &mut Transaction<'_, S>,
    alloc: Global,
    incident: u32,
) -> Result<Option<Shared>, Error>
    ensures same_reference { tx.new.conn.ghost_name ≡ tx.old.conn.ghost_name }
    ensures read { IsReadInside (state S.Store tx.old.conn.now)
        (state S.Store tx.new.conn.now) (λ s found. found ≡ sharing_of incident s) result }
{
    let found = read_naming(tx, alloc, incident)?;
    match found {
        None => Ok(None),
        Some(naming) => {
            let recipients = read_recipients(tx, alloc, naming.number)?;
            Ok(Some(Shared { naming, recipients }))
        }
    }
}

/// The naming and the recipients of an incident. None if it is missing.
pub(crate) fn find_sharing<S: Alter>(
    conn: &mut Connection<S>,
    alloc: Global,
    incident: u32,
) -> Result<Option<Shared>, Error>
    requires { conn.old.in_transaction ≡ false }
    ensures idle { conn.new.in_transaction ≡ false }
    ensures answers { IsReadOutside (state S.Store conn.old)
        (state S.Store conn.new) (λ s found. found ≡ sharing_of incident s) result }
{
    let mut tx = conn.transaction();
    let found = read_sharing(&mut tx, alloc, incident);
    tx.rollback();
    found
}
