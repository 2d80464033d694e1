//! What a reader may see of an incident.

ghost use Rattle.std.specs.Prelude.{◌≡◌, false, None, option_map, IfOk};
ghost use Rattle.sqlite.specs.Held.{state};
ghost use Rattle.redact.specs.Excerpts.{told_by, served_of};
ghost use Rattle.hub_state.specs.Reads.{served_of_incident};
ghost use Rattle.hub_store.specs.inner.Queries.{IsReadOutside};

use crate::feed_rows::feed_rows;
use crate::item_rows::error_of;
use policy::{Case, Standing};
use redact::{Excerpt, RowPass};
use sqlite::{Alter, Connection, Error};
use std::alloc::Global;

/// The excerpt of the lines that came to a pass.
fn finish_pass(pass: RowPass) -> Result<Option<Excerpt>, Error>
    requires { pass.fed.fault ≡ None }
    ensures { IfOk result (λ found.
        option_map told_by found ≡ served_of pass.fed.lines pass.case pass.standing) }
{
    match pass.finish() {
        Ok(found) => Ok(found),
        Err(fault) => Err(error_of(fault)),
    }
}

/// What a reader of this standing may see of an incident that is judged by this case, made of its lines as they come.
pub(crate) fn find_excerpt<S: Alter>(
    conn: &mut Connection<S>,
    alloc: Global,
    incident: u32,
    case: Case,
    standing: Standing,
) -> Result<Option<Excerpt>, Error>
    requires { conn.old.in_transaction ≡ false }
    ensures idle { conn.new.in_transaction ≡ false }
    ensures answers { IsReadOutside (state S.Store conn.old) (state S.Store conn.new) (λ s found.
        option_map told_by found ≡ served_of_incident incident case standing s) result }
{
    // for the proof: outside a transaction the rows seen are the committed ones
    let settled = conn.is_autocommit();
    prove!(settled);
    let mut pass = RowPass::new(alloc, case, standing)?;
    feed_rows(conn, alloc, incident, &mut pass)?;
    finish_pass(pass)
}
