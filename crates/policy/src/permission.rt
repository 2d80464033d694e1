//! Permissions. By a permission the source lets more readers see a class and what is below it, down to the next
//! written label. It may end at a moment.

ghost use Rattle.std.specs.Prelude.{◌≡◌};
ghost use Rattle.policy.specs.Permissions as spec;

use crate::standing::Standing;
use iodef_tree::Path;
use std::marker::Model;

/// The readers whom a permission is given to, by number.
#[derive(Clone, Copy, PartialEq, Eq)]
pub enum Grantee {
    /// One person.
    Person(u32),
    /// The persons of an organisation.
    Org(u32),
    /// The persons of the organisations in a community.
    Community(u32),
    /// The persons of the organisations in a group, while it is active.
    Group(u32),
}

/// A permission at a class.
#[derive(Drop)]
pub struct Permission {
    /// The path of the class.
    pub path: Path,
    /// The readers whom it is given to.
    pub grantee: Grantee,
    /// When it ends, in seconds since the beginning of 1970 (UTC); from this moment on it covers nothing. `None` if it
    /// has no end.
    pub until: Option<i64>,
}

/// The permissions of an incident. Contracts see a list, so that definitions can make and compare cases.
#[derive(Drop)]
pub struct Permissions {
    permissions: Vec<Permission>,
}

impl Model for Permissions {
    ghost use Rattle.std.specs.Prelude.{List};
    ghost use Rattle.policy.specs.declared.permission.Permission.{Permission};

    ghost Value = { List Permission };

    ghost view = { λ p. p.permissions.items };
}

impl Permissions {
    /// Returns the permissions of a vector. Allocates nothing.
    pub fn new(permissions: Vec<Permission>) -> Permissions
        ensures { result ≡ permissions.items }
    {
        Permissions { permissions }
    }

    /// Returns the permissions, in order.
    pub fn as_slice(&self) -> &[Permission]
        ensures { result.now ≡ self.now }
    {
        self.permissions.as_slice()
    }

    /// Returns the permissions as a vector. Allocates nothing.
    pub fn into_vec(self) -> Vec<Permission>
        ensures { result.items ≡ self }
    {
        self.permissions
    }
}

/// Returns whether the grantee includes the reader: it is the reader, its organisation, a community of its
/// organisation, or an active group of which its organisation is a member. Allocates nothing.
pub fn includes(standing: &Standing, grantee: &Grantee) -> bool
    ensures { result ≡ spec.includes standing.entry.now grantee.now }
{
    match grantee {
        Grantee::Person(number) => standing.who == *number,
        Grantee::Org(number) => standing.org == *number,
        Grantee::Community(number) => standing.communities.contains(*number),
        Grantee::Group(number) => {
            standing.groups.contains(*number) && standing.active_groups.contains(*number)
        }
    }
}

/// Returns whether the permission holds for the reader, whichever class it is at: it includes the reader and hasn't
/// ended. Allocates nothing.
pub fn holds_for(standing: &Standing, permission: &Permission) -> bool
    ensures { result ≡ spec.holds_for standing.entry.now permission.now }
{
    // The only place where the end is asked; the moment is in the standing.
    includes(standing, &permission.grantee) && is_before(standing.now, permission.until)
}

/// Returns whether the moment is before the end, or there is no end.
fn is_before(now: i64, until: Option<i64>) -> bool
    ensures { result ≡ spec.is_before now until }
{
    match until {
        None => true,
        Some(end) => now < end,
    }
}
