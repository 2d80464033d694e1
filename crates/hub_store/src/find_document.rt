//! The document of an incident.

ghost use Rattle.std.specs.Prelude.{◌≡◌, false};
ghost use Rattle.sqlite.specs.Held.{state};
ghost use Rattle.hub_state.specs.Reads.{document_of};
ghost use Rattle.hub_store.specs.inner.Queries.{IsReadInside, IsReadOutside};

use crate::item_rows::document_in;
use crate::query::ask;
use iodef_tree::Document;
use sqlite::{Alter, Connection, Error, Transaction, params};
use std::alloc::Global;

fn read_document<S: Alter>(
    tx: &mut Transaction<'_, S>,
    alloc: Global,
    incident: u32,
) -> Result<Option<Document>, Error>
    ensures same_reference { tx.new.conn.ghost_name ≡ tx.old.conn.ghost_name }
    ensures read { IsReadInside (state S.Store tx.old.conn.now)
        (state S.Store tx.new.conn.now) (λ s found. found ≡ document_of incident s) result }
{
    let rows = ask(
        tx,
        "SELECT place, depth, name, in_array, kind, text FROM item WHERE incident = ?1 ORDER BY place",
        params![incident],
    )?;
    document_in(alloc, &rows)
}

/// The document of an incident. None if it is missing.
pub(crate) fn find_document<S: Alter>(
    conn: &mut Connection<S>,
    alloc: Global,
    incident: u32,
) -> Result<Option<Document>, Error>
    requires { conn.old.in_transaction ≡ false }
    ensures idle { conn.new.in_transaction ≡ false }
    ensures answers { IsReadOutside (state S.Store conn.old)
        (state S.Store conn.new) (λ s found. found ≡ document_of incident s) result }
{
    let mut tx = conn.transaction();
    let found = read_document(&mut tx, alloc, incident);
    tx.rollback();
    found
}
