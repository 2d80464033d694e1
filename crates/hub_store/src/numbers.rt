//! The numbers of names in the tables. They make the order of a key the order of SQL.

ghost use Rattle.std.specs.Prelude.{◌≡◌};
ghost use Rattle.hub_store.specs.Rows as spec;
ghost use Rattle.hub_store.specs.Items.{kind_number as number_of_kind};

use circle::directory::{Handling, Role};
use iodef_tree::Kind;

pub(crate) fn role_number(role: Role) -> u32
    ensures { result ≡ spec.role_number role }
{
    match role {
        Role::Administrator => 0,
        Role::Coordinator => 1,
        Role::Poster => 2,
        Role::Reader => 3,
    }
}

pub(crate) fn handling_number(handling: Handling) -> u32
    ensures { result ≡ spec.handling_number handling }
{
    match handling {
        Handling::Clear => 0,
        Handling::Green => 1,
        Handling::Amber => 2,
        Handling::Strict => 3,
        Handling::Red => 4,
    }
}

pub(crate) fn one_if(flag: bool) -> u32
    ensures { result ≡ spec.one_if flag }
{
    if flag { 1 } else { 0 }
}

pub(crate) fn kind_number(kind: Kind) -> u32
    ensures { result ≡ number_of_kind kind }
{
    match kind {
        Kind::Class => 0,
        Kind::Text => 1,
        Kind::Value => 2,
    }
}
