//! The tables of version 1, made one after another. A new store gets those of the newest version from them, as an old
//! one does.

ghost use Rattle.std.specs.Prelude.{◌≡◌};
ghost use Rattle.sqlite.specs.Held.{state};
ghost use Rattle.hub_store.specs.Tables.{no_schema, up_to_hub, up_to_org, up_to_person, up_to_community, up_to_grp, up_to_pair, up_to_gate, up_to_recipient};
ghost use Rattle.hub_store.specs.Tables.{up_to_permission, schema_by};
ghost use Rattle.hub_store.specs.inner.Makes.{Creates, HasEmpty};

use crate::statement::run;
use sqlite::{Alter, Error, Transaction};

fn make_hub<S: Alter>(tx: &mut Transaction<'_, S>) -> Result<(), Error>
    ensures same_reference { tx.new.conn.ghost_name ≡ tx.old.conn.ghost_name }
    ensures made { Creates (state S.Store tx.old.conn.now) (state S.Store tx.new.conn.now)
        (HasEmpty no_schema) (HasEmpty up_to_hub) result }
{
    run(
        tx,
        "CREATE TABLE hub (version INTEGER NOT NULL) STRICT",
        &[],
    )
}

fn make_org<S: Alter>(tx: &mut Transaction<'_, S>) -> Result<(), Error>
    ensures same_reference { tx.new.conn.ghost_name ≡ tx.old.conn.ghost_name }
    ensures made { Creates (state S.Store tx.old.conn.now) (state S.Store tx.new.conn.now)
        (HasEmpty up_to_hub) (HasEmpty up_to_org) result }
{
    run(
        tx,
        "CREATE TABLE org (number INTEGER PRIMARY KEY, name TEXT NOT NULL UNIQUE) STRICT",
        &[],
    )
}

fn make_person<S: Alter>(tx: &mut Transaction<'_, S>) -> Result<(), Error>
    ensures same_reference { tx.new.conn.ghost_name ≡ tx.old.conn.ghost_name }
    ensures made { Creates (state S.Store tx.old.conn.now) (state S.Store tx.new.conn.now)
        (HasEmpty up_to_org) (HasEmpty up_to_person) result }
{
    run(
        tx,
        "CREATE TABLE person (number INTEGER PRIMARY KEY, org INTEGER NOT NULL, name TEXT NOT NULL, role INTEGER NOT NULL, key BLOB NOT NULL UNIQUE, active INTEGER NOT NULL, nominated INTEGER NOT NULL) STRICT",
        &[],
    )
}

fn make_community<S: Alter>(tx: &mut Transaction<'_, S>) -> Result<(), Error>
    ensures same_reference { tx.new.conn.ghost_name ≡ tx.old.conn.ghost_name }
    ensures made { Creates (state S.Store tx.old.conn.now) (state S.Store tx.new.conn.now)
        (HasEmpty up_to_person) (HasEmpty up_to_community) result }
{
    run(
        tx,
        "CREATE TABLE community (number INTEGER PRIMARY KEY, name TEXT NOT NULL UNIQUE) STRICT",
        &[],
    )
}

fn make_grp<S: Alter>(tx: &mut Transaction<'_, S>) -> Result<(), Error>
    ensures same_reference { tx.new.conn.ghost_name ≡ tx.old.conn.ghost_name }
    ensures made { Creates (state S.Store tx.old.conn.now) (state S.Store tx.new.conn.now)
        (HasEmpty up_to_community) (HasEmpty up_to_grp) result }
{
    run(
        tx,
        "CREATE TABLE grp (number INTEGER PRIMARY KEY, owner INTEGER NOT NULL, name TEXT NOT NULL, releasability TEXT NOT NULL, active INTEGER NOT NULL, UNIQUE (owner, name)) STRICT",
        &[],
    )
}

fn make_pair<S: Alter>(tx: &mut Transaction<'_, S>) -> Result<(), Error>
    ensures same_reference { tx.new.conn.ghost_name ≡ tx.old.conn.ghost_name }
    ensures made { Creates (state S.Store tx.old.conn.now) (state S.Store tx.new.conn.now)
        (HasEmpty up_to_grp) (HasEmpty up_to_pair) result }
{
    run(
        tx,
        // the second UNIQUE is the index by which a pair is found from its other end
        "CREATE TABLE pair (kind TEXT NOT NULL, a INTEGER NOT NULL, b INTEGER NOT NULL, value INTEGER, UNIQUE (kind, a, b), UNIQUE (kind, b, a)) STRICT",
        &[],
    )
}

fn make_gate<S: Alter>(tx: &mut Transaction<'_, S>) -> Result<(), Error>
    ensures same_reference { tx.new.conn.ghost_name ≡ tx.old.conn.ghost_name }
    ensures made { Creates (state S.Store tx.old.conn.now) (state S.Store tx.new.conn.now)
        (HasEmpty up_to_pair) (HasEmpty up_to_gate) result }
{
    run(
        tx,
        "CREATE TABLE gate (incident INTEGER NOT NULL, path TEXT NOT NULL, level INTEGER NOT NULL, grp INTEGER, UNIQUE (incident, path)) STRICT",
        &[],
    )
}

fn make_recipient<S: Alter>(tx: &mut Transaction<'_, S>) -> Result<(), Error>
    ensures same_reference { tx.new.conn.ghost_name ≡ tx.old.conn.ghost_name }
    ensures made { Creates (state S.Store tx.old.conn.now) (state S.Store tx.new.conn.now)
        (HasEmpty up_to_gate) (HasEmpty up_to_recipient) result }
{
    run(
        tx,
        "CREATE TABLE recipient (incident INTEGER NOT NULL, kind INTEGER NOT NULL, target INTEGER NOT NULL, UNIQUE (incident, kind, target)) STRICT",
        &[],
    )
}

fn make_permission<S: Alter>(tx: &mut Transaction<'_, S>) -> Result<(), Error>
    ensures same_reference { tx.new.conn.ghost_name ≡ tx.old.conn.ghost_name }
    ensures made { Creates (state S.Store tx.old.conn.now) (state S.Store tx.new.conn.now)
        (HasEmpty up_to_recipient) (HasEmpty up_to_permission) result }
{
    run(
        tx,
        "CREATE TABLE permission (incident INTEGER NOT NULL, path TEXT NOT NULL, kind INTEGER NOT NULL, target INTEGER NOT NULL, UNIQUE (incident, path, kind, target)) STRICT",
        &[],
    )
}

fn make_incident<S: Alter>(tx: &mut Transaction<'_, S>) -> Result<(), Error>
    ensures same_reference { tx.new.conn.ghost_name ≡ tx.old.conn.ghost_name }
    ensures made { Creates (state S.Store tx.old.conn.now) (state S.Store tx.new.conn.now)
        (HasEmpty up_to_permission) (HasEmpty (schema_by 1)) result }
{
    run(
        tx,
        "CREATE TABLE incident (number INTEGER PRIMARY KEY, source INTEGER NOT NULL, ident TEXT NOT NULL, revision INTEGER NOT NULL, text TEXT NOT NULL, UNIQUE (source, ident)) STRICT",
        &[],
    )
}

/// Makes the tables of the directory.
fn make_directory<S: Alter>(tx: &mut Transaction<'_, S>) -> Result<(), Error>
    ensures same_reference { tx.new.conn.ghost_name ≡ tx.old.conn.ghost_name }
    ensures made { Creates (state S.Store tx.old.conn.now) (state S.Store tx.new.conn.now)
        (HasEmpty no_schema) (HasEmpty up_to_grp) result }
{
    make_hub(tx)?;
    make_org(tx)?;
    make_person(tx)?;
    make_community(tx)?;
    make_grp(tx)
}

/// Makes the other tables. Those that a later version changes come last.
fn make_incidents<S: Alter>(tx: &mut Transaction<'_, S>) -> Result<(), Error>
    ensures same_reference { tx.new.conn.ghost_name ≡ tx.old.conn.ghost_name }
    ensures made { Creates (state S.Store tx.old.conn.now) (state S.Store tx.new.conn.now)
        (HasEmpty up_to_grp) (HasEmpty (schema_by 1)) result }
{
    make_pair(tx)?;
    make_gate(tx)?;
    make_recipient(tx)?;
    make_permission(tx)?;
    make_incident(tx)
}

/// Makes all tables of version 1, without any row.
pub(crate) fn make_tables<S: Alter>(tx: &mut Transaction<'_, S>) -> Result<(), Error>
    ensures same_reference { tx.new.conn.ghost_name ≡ tx.old.conn.ghost_name }
    ensures made { Creates (state S.Store tx.old.conn.now) (state S.Store tx.new.conn.now)
        (HasEmpty no_schema) (HasEmpty (schema_by 1)) result }
{
    make_directory(tx)?;
    make_incidents(tx)
}
