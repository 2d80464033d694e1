//! What organisations arranged, and the organisations whose client one is.

ghost use Rattle.std.specs.Prelude.{◌≡◌};
ghost use Rattle.sqlite.specs.Held.{state};
ghost use Rattle.circle.specs.Reads as spec;
ghost use Rattle.hub_store.specs.inner.Queries.{IsReadInside};

use crate::ask_pairs::ask_between;
use crate::from_row::first;
use crate::pair_kind::PairKind;
use crate::read_pairs::read_firsts;
use circle::directory::Handling;
use sqlite::{Alter, Error, Transaction};
use std::alloc::Global;

/// The handling of `default` that the source arranged with the organisation, in a transaction.
pub(crate) fn read_arranged<S: Alter>(
    tx: &mut Transaction<'_, S>,
    alloc: Global,
    source: u32,
    org: u32,
) -> Result<Option<Handling>, Error>
    ensures same_reference { tx.new.conn.ghost_name ≡ tx.old.conn.ghost_name }
    ensures read { IsReadInside (state S.Store tx.old.conn.now)
        (state S.Store tx.new.conn.now) (λ s found. found ≡
        spec.arranged source org s.directory) result }
{
    let rows = ask_between(tx, PairKind::Arrangement, source, org)?;
    first(alloc, &rows)
}

/// The organisations whose client this one is, in the order of their numbers, in a transaction.
pub(crate) fn read_orgs_whose_client<S: Alter>(
    tx: &mut Transaction<'_, S>,
    alloc: Global,
    client: u32,
) -> Result<Vec<u32>, Error>
    ensures same_reference { tx.new.conn.ghost_name ≡ tx.old.conn.ghost_name }
    ensures read { IsReadInside (state S.Store tx.old.conn.now)
        (state S.Store tx.new.conn.now) (λ s found.
        found.items ≡ spec.orgs_whose_client client s.directory) result }
{
    read_firsts(tx, alloc, PairKind::Client, client)
}
