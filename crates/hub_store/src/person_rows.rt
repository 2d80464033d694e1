//! Persons as rows.

ghost use Rattle.std.specs.Prelude.{◌≡◌, IfOk};
ghost use Rattle.hub_store.specs.Rows as spec;
ghost use Rattle.hub_store.specs.inner.Shown.{IsShownBy, person_shown};

use crate::from_row::{FromRow, STRANGE};
use circle::directory::{Person, Role};
use circle::name::Name;
use sqlite::{Error, Row};
use std::alloc::Global;

pub(crate) fn role_of(number: u32) -> Result<Role, Error>
    ensures { IfOk result (λ role. spec.role_number role ≡ number) }
{
    match number {
        0 => Ok(Role::Administrator),
        1 => Ok(Role::Coordinator),
        2 => Ok(Role::Poster),
        3 => Ok(Role::Reader),
        _ => Err(STRANGE),
    }
}

pub(crate) fn name_of(alloc: Global, text: &str) -> Result<Name, Error>
    ensures { IfOk result (λ name. name ≡ text.now) }
{
    match Name::of(alloc, text)? {
        None => Err(STRANGE),
        Some(name) => Ok(name),
    }
}

impl FromRow for Person {
    ghost shows = { IsShownBy person_shown };

    fn from_row(alloc: Global, row: &Row) -> Result<Person, Error> {
        let name: String = row.get(2)?;
        Ok(Person {
            number: row.get(0)?,
            org: row.get(1)?,
            name: name_of(alloc, name.as_str())?,
            role: role_of(row.get(3)?)?,
            active: row.get(4)?,
            nominated: row.get(5)?,
        })
    }
}
