//! The sets in the table of pairs.

ghost use Rattle.std.specs.Prelude.{◌≡◌};
ghost use Rattle.hub_store.specs.inner.PairKinds.{kind_name};

/// A set in the table of pairs: its rows have its name.
#[derive(Clone, Copy, Debug, PartialEq, Eq)]
pub(crate) enum PairKind {
    Client,
    Membership,
    Connection,
    GroupMember,
    Arrangement,
}

impl PairKind {
    pub(crate) fn name(self) -> &'static str
        ensures { result.now ≡ kind_name self }
    {
        match self {
            PairKind::Client => "client",
            PairKind::Membership => "member",
            PairKind::Connection => "link",
            PairKind::GroupMember => "grp_member",
            PairKind::Arrangement => "arrangement",
        }
    }
}
