//! Whether an incident meets a want.

ghost use Rattle.std.specs.Prelude.{◌≡◌, ℕ, true, false, None, IfOk};
ghost use Rattle.sqlite.specs.Held.{state};
ghost use Rattle.redact.specs.Probed.{IsSure};
ghost use Rattle.hub_state.specs.State.{State};
ghost use Rattle.hub_state.specs.Sound.{IsSound};
ghost use Rattle.hub_state.specs.Reads.{met_by_incident};
ghost use Rattle.hub_store.specs.inner.ProbesRows.{AreFirst};
ghost use Rattle.hub_store.specs.inner.Queries.{IsReadOutside};

use crate::item_rows::error_of;
use crate::probe_rows::probe_rows;
use iodef_tree::laws::lines_are_an_outline;
use policy::{Case, Standing};
use redact::{Probe, Want};
use sqlite::{Alter, Connection, Error};
use std::alloc::Global;

/// Whether an incident meets the want, by a search that read all its lines, or as many as made the result sure.
fn is_met(probe: Probe) -> Result<bool, Error>
    requires unfaulted { probe.fed.fault ≡ None }
    requires sure { probe.met ≡ true → IsSure probe.want probe.fed.lines probe.case probe.standing }
    ensures { IfOk result (λ met.
        (n : ℕ) (s : State) → IsSound s → AreFirst n s probe →
        met ≡ met_by_incident n probe.case probe.standing probe.want s) }
{
    // what is sure of the lines read is sure of the document, whose lines are an outline
    lines_are_an_outline();
    match probe.finish() {
        Ok(met) => Ok(met),
        Err(fault) => Err(error_of(fault)),
    }
}

/// Whether an incident that is judged by this case meets a want, for a reader of this standing. It reads the lines as
/// they come.
pub(crate) fn find_met<S: Alter>(
    conn: &mut Connection<S>,
    alloc: Global,
    incident: u32,
    case: Case,
    standing: Standing,
    want: Want,
) -> Result<bool, Error>
    requires { conn.old.in_transaction ≡ false }
    ensures idle { conn.new.in_transaction ≡ false }
    ensures answers { IsReadOutside (state S.Store conn.old)
        (state S.Store conn.new) (λ s met. met ≡
        met_by_incident incident case standing want s) result }
{
    // for the proof: outside a transaction the rows seen are the committed ones
    let settled = conn.is_autocommit();
    prove!(settled);
    let mut probe = Probe::new(alloc, case, standing, want)?;
    probe_rows(conn, alloc, incident, &mut probe)?;
    is_met(probe)
}
