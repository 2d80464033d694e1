//! The steps from version 2 of the tables to the newest. Each makes one table anew, by its texts.

ghost use Rattle.std.specs.Prelude.{◌≡◌, ◌≤◌, ◌<◌, ◌+◌};
ghost use Rattle.sqlite.specs.Held.{state};
ghost use Rattle.hub_state.specs.State.{State};
ghost use Rattle.hub_state.specs.Sound.{IsSound};
ghost use Rattle.hub_store.specs.Fit.{AreTaken};
ghost use Rattle.hub_store.specs.Keeps.{Goes};
ghost use Rattle.hub_store.specs.Layout.{newest, bare_by};
ghost use Rattle.hub_store.specs.Means.{HoldsAs};
ghost use Rattle.hub_store.specs.Parts.{HoldsParts};
ghost use Rattle.hub_store.specs.inner.Makes.{Makes, FailsOnly, Creates};

use crate::remake::{Texts, make_anew, remake};
use sqlite::{Alter, Error, Transaction};
use std::alloc::Global;

const READ_PERMISSIONS: &str = "SELECT incident, path, kind, target FROM permission";

const DROP_PERMISSIONS: &str = "DROP TABLE permission";

const CREATE_PERMISSIONS: &str =
    "CREATE TABLE permission (incident INTEGER NOT NULL, path TEXT NOT NULL, kind INTEGER NOT NULL, target INTEGER NOT NULL, until INTEGER, UNIQUE (incident, path, kind, target)) STRICT";

const PUT_PERMISSION: &str =
    "INSERT INTO permission (incident, path, kind, target) VALUES (?1, ?2, ?3, ?4)";

/// To version 3: a permission gets a column for its end, which is NULL in each old row.
const PERMISSIONS: Texts = Texts {
    read: READ_PERMISSIONS,
    drop: DROP_PERMISSIONS,
    create: CREATE_PERMISSIONS,
    put: PUT_PERMISSION,
};

const READ_INCIDENTS: &str = "SELECT number, source, ident, revision FROM incident";

const DROP_INCIDENTS: &str = "DROP TABLE incident";

const CREATE_INCIDENTS: &str =
    "CREATE TABLE incident (number INTEGER PRIMARY KEY, source INTEGER NOT NULL, ident TEXT NOT NULL, revision INTEGER NOT NULL, community INTEGER, UNIQUE (source, ident)) STRICT";

const PUT_INCIDENT: &str =
    "INSERT INTO incident (number, source, ident, revision) VALUES (?1, ?2, ?3, ?4)";

/// To version 4: an incident gets a column for the community that it names, which is NULL in each old row.
const INCIDENTS: Texts = Texts {
    read: READ_INCIDENTS,
    drop: DROP_INCIDENTS,
    create: CREATE_INCIDENTS,
    put: PUT_INCIDENT,
};

/// Makes the tables of the next version, if those of this one have no row.
pub(crate) fn make_next<S: Alter>(tx: &mut Transaction<'_, S>, from: u32) -> Result<(), Error>
    ensures same_reference { tx.new.conn.ghost_name ≡ tx.old.conn.ghost_name }
    ensures made { 2 ≤ from → from < newest →
        Creates (state S.Store tx.old.conn.now) (state S.Store tx.new.conn.now)
        (HoldsParts (bare_by from)) (HoldsParts (bare_by (from + 1))) result }
{
    if from == 2 {
        make_anew(tx, &PERMISSIONS)
    } else {
        make_anew(tx, &INCIDENTS)
    }
}

/// Brings the tables of a version to the next.
pub(crate) fn go_next<S: Alter>(
    tx: &mut Transaction<'_, S>,
    alloc: Global,
    from: u32,
) -> Result<(), Error>
    ensures same_reference { tx.new.conn.ghost_name ≡ tx.old.conn.ghost_name }
    ensures goes { Goes (state S.Store tx.old.conn.now) (state S.Store tx.new.conn.now) result }
    ensures made { 2 ≤ from → from < newest → (s : State) →
        Makes (state S.Store tx.old.conn.now) (state S.Store tx.new.conn.now) (λ db.
        HoldsAs from db s) (λ db. HoldsAs (from + 1) db s) result }
    ensures cause { 2 ≤ from → from < newest → (s : State) → IsSound s → AreTaken s →
        FailsOnly (state S.Store tx.old.conn.now) (state S.Store tx.new.conn.now) (λ db.
        HoldsAs from db s) result }
{
    if from == 2 {
        remake(tx, alloc, &PERMISSIONS, 3)
    } else {
        remake(tx, alloc, &INCIDENTS, 4)
    }
}
