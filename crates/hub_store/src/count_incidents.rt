//! How many incidents there are.

ghost use Rattle.std.specs.Prelude.{◌≡◌, false, length};
ghost use Rattle.sqlite.specs.Held.{state};
ghost use Rattle.hub_store.specs.inner.Queries.{IsReadInside, IsReadOutside};

use crate::counts::number_in;
use crate::query::ask;
use sqlite::{Alter, Connection, Error, Transaction};

/// How many incidents there are, in a transaction: the highest number, as there is no gap.
pub(crate) fn read_incident_count<S: Alter>(tx: &mut Transaction<'_, S>) -> Result<u32, Error>
    ensures same_reference { tx.new.conn.ghost_name ≡ tx.old.conn.ghost_name }
    ensures read { IsReadInside (state S.Store tx.old.conn.now)
        (state S.Store tx.new.conn.now) (λ s found. found ≡ length s.incidents) result }
{
    let rows = ask(
        tx,
        "SELECT number FROM incident WHERE number > 0 ORDER BY number DESC LIMIT 1",
        &[],
    )?;
    number_in(&rows)
}

/// How many incidents there are.
pub(crate) fn incident_count<S: Alter>(conn: &mut Connection<S>) -> Result<u32, Error>
    requires { conn.old.in_transaction ≡ false }
    ensures idle { conn.new.in_transaction ≡ false }
    ensures answers { IsReadOutside (state S.Store conn.old)
        (state S.Store conn.new) (λ s found. found ≡ length s.incidents) result }
{
    let mut tx = conn.transaction();
    let found = read_incident_count(&mut tx);
    tx.rollback();
    found
}
