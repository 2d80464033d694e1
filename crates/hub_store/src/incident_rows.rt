//! Incidents, their gates, recipients and permissions as rows.

ghost use Rattle.std.specs.Prelude.{◌≡◌, ℕ, ℤ, Option, IfOk};
ghost use Rattle.sqlite_value.specs.Order.{column};
ghost use Rattle.iodef_tree.specs.Pointer.{pointer_text};
ghost use Rattle.iodef_tree.specs.Text.{Tokens};
ghost use Rattle.hub_state.specs.State.{target_key, grantee_key};
ghost use Rattle.hub_store.specs.Rows.{gate_row, recipient_row, permission_row};
ghost use Rattle.hub_store.specs.inner.Shown.{IsShownBy, entry_shown, naming_shown, gate_shown, target_shown, permission_shown};
ghost use Rattle.hub_store.specs.Values.{number_or_null, moment_or_null};

use crate::from_row::{FromRow, NO_MEMORY, STRANGE};
use circle::text::Text;
use hub_state::{Entry, Naming, Recipient, Target};
use iodef_tree::{Path, PathFault};
use policy::{Gate, Grantee, Permission};
use sqlite::{Error, Row};
use std::alloc::Global;

fn path_of(alloc: Global, text: &str) -> Result<Path, Error>
    ensures { IfOk result (λ path. (p : Tokens) → text.now ≡ pointer_text p → path ≡ p) }
{
    match Path::parse(alloc, text) {
        Ok(path) => Ok(path),
        Err(PathFault::NoMemory) => Err(NO_MEMORY),
        Err(PathFault::BadPath) => Err(STRANGE),
    }
}

fn target_of(kind: u32, number: u32) -> Result<Target, Error>
    ensures { IfOk result (λ target. target_key target ≡ (kind, number)) }
{
    match kind {
        0 => Ok(Target::Person(number)),
        1 => Ok(Target::Org(number)),
        _ => Err(STRANGE),
    }
}

fn grantee_of(kind: u32, number: u32) -> Result<Grantee, Error>
    ensures { IfOk result (λ grantee. grantee_key grantee ≡ (kind, number)) }
{
    match kind {
        0 => Ok(Grantee::Person(number)),
        1 => Ok(Grantee::Org(number)),
        2 => Ok(Grantee::Community(number)),
        3 => Ok(Grantee::Group(number)),
        _ => Err(STRANGE),
    }
}

fn level_of(number: u32) -> Result<u8, Error>
    ensures { IfOk result (λ level. level ≡ number) }
{
    if number > 255 {
        return Err(STRANGE);
    }
    Ok(number as u8)
}

fn number_if_any(row: &Row, at: usize) -> Result<Option<u32>, Error>
    ensures { IfOk result (λ found.
        (number : Option ℕ) → column row.now at ≡ number_or_null number → found ≡ number) }
{
    row.get(at)
}

fn moment_if_any(row: &Row, at: usize) -> Result<Option<i64>, Error>
    ensures { IfOk result (λ found.
        (moment : Option ℤ) → column row.now at ≡ moment_or_null moment → found ≡ moment) }
{
    row.get(at)
}

impl FromRow for Entry {
    ghost shows = { IsShownBy entry_shown };

    fn from_row(_alloc: Global, row: &Row) -> Result<Entry, Error> {
        Ok(Entry {
            number: row.get(0)?,
            revision: row.get(1)?,
            source: row.get(2)?,
        })
    }
}

impl FromRow for Naming {
    ghost shows = { IsShownBy naming_shown };

    fn from_row(_alloc: Global, row: &Row) -> Result<Naming, Error> {
        Ok(Naming {
            number: row.get(0)?,
            source: row.get(1)?,
            ident: Text::new(row.get(2)?),
            revision: row.get(3)?,
            community: number_if_any(row, 4)?,
        })
    }
}

impl FromRow for Gate {
    ghost shows = { IsShownBy gate_shown };

    fn from_row(alloc: Global, row: &Row) -> Result<Gate, Error> {
        let path: String = row.get(0)?;
        Ok(Gate {
            path: path_of(alloc, path.as_str())?,
            level: level_of(row.get(1)?)?,
            group: number_if_any(row, 2)?,
        })
    }
}

impl FromRow for Target {
    ghost shows = { IsShownBy target_shown };

    fn from_row(_alloc: Global, row: &Row) -> Result<Target, Error> {
        let kind: u32 = row.get(0)?;
        target_of(kind, row.get(1)?)
    }
}

impl FromRow for Permission {
    ghost shows = { IsShownBy permission_shown };

    fn from_row(alloc: Global, row: &Row) -> Result<Permission, Error> {
        let path: String = row.get(0)?;
        let kind: u32 = row.get(1)?;
        Ok(Permission {
            path: path_of(alloc, path.as_str())?,
            grantee: grantee_of(kind, row.get(2)?)?,
            until: moment_if_any(row, 3)?,
        })
    }
}

impl FromRow for hub_state::Gate {
    ghost shows = { IsShownBy gate_row };

    fn from_row(alloc: Global, row: &Row) -> Result<hub_state::Gate, Error> {
        let path: String = row.get(1)?;
        Ok(hub_state::Gate {
            incident: row.get(0)?,
            gate: Gate {
                path: path_of(alloc, path.as_str())?,
                level: level_of(row.get(2)?)?,
                group: number_if_any(row, 3)?,
            },
        })
    }
}

impl FromRow for Recipient {
    ghost shows = { IsShownBy recipient_row };

    fn from_row(_alloc: Global, row: &Row) -> Result<Recipient, Error> {
        let kind: u32 = row.get(1)?;
        Ok(Recipient {
            incident: row.get(0)?,
            target: target_of(kind, row.get(2)?)?,
        })
    }
}

impl FromRow for hub_state::Permission {
    ghost shows = { IsShownBy permission_row };

    fn from_row(alloc: Global, row: &Row) -> Result<hub_state::Permission, Error> {
        let path: String = row.get(1)?;
        let kind: u32 = row.get(2)?;
        Ok(hub_state::Permission {
            incident: row.get(0)?,
            permission: Permission {
                path: path_of(alloc, path.as_str())?,
                grantee: grantee_of(kind, row.get(3)?)?,
                until: moment_if_any(row, 4)?,
            },
        })
    }
}
