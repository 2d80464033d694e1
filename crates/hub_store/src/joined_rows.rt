//! Numbers, handlings, groups and their members as rows.

ghost use Rattle.std.specs.Prelude.{◌≡◌, IfOk};
ghost use Rattle.hub_store.specs.Rows as spec;
ghost use Rattle.hub_store.specs.inner.Shown.{IsShownBy};
ghost use Rattle.hub_store.specs.inner.ShownPairs.{ShowsNumber, handling_shown, joined_shown, group_shown};

use crate::from_row::{FromRow, STRANGE};
use crate::person_rows::name_of;
use circle::directory::{Group, Handling};
use circle::releasability::Releasability;
use sqlite::{Error, Row};
use std::alloc::Global;

/// A group of which an organisation is a member, and whether it may add others to it.
#[derive(Clone, Copy, Debug, PartialEq, Eq)]
pub(crate) struct Joined {
    pub(crate) group: u32,
    pub(crate) extend: bool,
}

pub(crate) fn handling_of(number: u32) -> Result<Handling, Error>
    ensures { IfOk result (λ handling. spec.handling_number handling ≡ number) }
{
    match number {
        0 => Ok(Handling::Clear),
        1 => Ok(Handling::Green),
        2 => Ok(Handling::Amber),
        3 => Ok(Handling::Strict),
        4 => Ok(Handling::Red),
        _ => Err(STRANGE),
    }
}

fn releasability_of(alloc: Global, text: &str) -> Result<Releasability, Error>
    ensures { IfOk result (λ releasability. releasability ≡ text.now) }
{
    match Releasability::of(alloc, text)? {
        None => Err(STRANGE),
        Some(releasability) => Ok(releasability),
    }
}

impl FromRow for u32 {
    ghost shows = { ShowsNumber };

    fn from_row(_alloc: Global, row: &Row) -> Result<u32, Error> {
        Ok(row.get(0)?)
    }
}

impl FromRow for Handling {
    ghost shows = { IsShownBy handling_shown };

    fn from_row(_alloc: Global, row: &Row) -> Result<Handling, Error> {
        handling_of(row.get(0)?)
    }
}

impl FromRow for Joined {
    ghost shows = { IsShownBy joined_shown };

    fn from_row(_alloc: Global, row: &Row) -> Result<Joined, Error> {
        Ok(Joined {
            group: row.get(0)?,
            extend: row.get(1)?,
        })
    }
}

impl FromRow for Group {
    ghost shows = { IsShownBy group_shown };

    fn from_row(alloc: Global, row: &Row) -> Result<Group, Error> {
        let name: String = row.get(2)?;
        let releasability: String = row.get(3)?;
        Ok(Group {
            number: row.get(0)?,
            owner: row.get(1)?,
            name: name_of(alloc, name.as_str())?,
            releasability: releasability_of(alloc, releasability.as_str())?,
            active: row.get(4)?,
        })
    }
}
