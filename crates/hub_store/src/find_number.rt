//! The number of an incident by its source and its ident.

ghost use Rattle.std.specs.Prelude.{◌≡◌, false, option_map};
ghost use Rattle.sqlite.specs.Held.{state};
ghost use Rattle.hub_state.specs.State.{incident_named, incident_number};
ghost use Rattle.hub_store.specs.inner.Queries.{IsReadInside, IsReadOutside};

use crate::from_row::first;
use crate::query::ask;
use circle::text::Text;
use sqlite::{Alter, Connection, Error, Transaction, params};
use std::alloc::Global;

/// The number of the incident that a source has posted under an ident, in a transaction.
pub(crate) fn read_number_of<S: Alter>(
    tx: &mut Transaction<'_, S>,
    alloc: Global,
    source: u32,
    ident: &Text,
) -> Result<Option<u32>, Error>
    ensures same_reference { tx.new.conn.ghost_name ≡ tx.old.conn.ghost_name }
    ensures read { IsReadInside (state S.Store tx.old.conn.now)
        (state S.Store tx.new.conn.now) (λ s found. found ≡
        option_map incident_number (incident_named source ident.now s)) result }
{
    let rows = ask(
        tx,
        "SELECT number FROM incident WHERE source = ?1 AND ident = ?2",
        params![source, ident.as_str()],
    )?;
    first(alloc, &rows)
}

/// The number of the incident that a source has posted under an ident.
pub(crate) fn number_of<S: Alter>(
    conn: &mut Connection<S>,
    alloc: Global,
    source: u32,
    ident: &Text,
) -> Result<Option<u32>, Error>
    requires { conn.old.in_transaction ≡ false }
    ensures idle { conn.new.in_transaction ≡ false }
    ensures answers { IsReadOutside (state S.Store conn.old)
        (state S.Store conn.new) (λ s found. found ≡
        option_map incident_number (incident_named source ident.now s)) result }
{
    let mut tx = conn.transaction();
    let found = read_number_of(&mut tx, alloc, source, ident);
    tx.rollback();
    found
}
