//! Elements of sets as the edits that put them.

ghost use Rattle.std.specs.Prelude.{IfOk};
ghost use Rattle.hub_store.specs.inner.Adds.{ArePut};

use crate::from_row::FromRow;
use circle::command::RowEdit;
use circle::directory::{
    Account, Arrangement, Client, Community, Connection, Group, GroupMember, Membership, Org,
};
use hub_state::{Edit, Gate, Incident, Naming, Permission, Recipient, StateRows};
use iodef_tree::{Document, Object};
use sqlite::{Error, Row};
use std::alloc::Global;

/// An element of a set, which an edit puts.
pub(crate) trait IntoEdit {
    ghost use Rattle.std.specs.Prelude.{◌≡◌};
    ghost use Rattle.hub_state.specs.declared.edit.Edit.{Edit};

    // the edit that puts the element
    ghost edit: { Self → Edit };

    /// Returns the edit that puts the element. Takes no memory.
    fn into_edit(self, alloc: Global) -> Edit
        ensures { result ≡ edit self };
}

/// Puts the elements that the rows show. An edit at a time: the memory for more would be taken in each set.
pub(crate) fn put_shown<T: FromRow + IntoEdit>(
    alloc: Global,
    shown: &[Row],
    mut rows: StateRows,
) -> Result<StateRows, Error>
    ensures { IfOk result (ArePut T.FromRow.shows T.IntoEdit.edit shown.now rows) }
{
    for row in shown {
        let edit = T::from_row(alloc, row)?.into_edit(alloc);
        rows.make(&[edit])?;
    }
    Ok(rows)
}

impl IntoEdit for Org {
    ghost use Rattle.hub_store.specs.inner.Adds.{org_edit};

    ghost edit = { org_edit };

    fn into_edit(self, _alloc: Global) -> Edit {
        Edit::Directory(RowEdit::PutOrg(self))
    }
}

impl IntoEdit for Account {
    ghost use Rattle.hub_store.specs.inner.Adds.{account_edit};

    ghost edit = { account_edit };

    fn into_edit(self, _alloc: Global) -> Edit {
        Edit::Directory(RowEdit::PutAccount(self))
    }
}

impl IntoEdit for Community {
    ghost use Rattle.hub_store.specs.inner.Adds.{community_edit};

    ghost edit = { community_edit };

    fn into_edit(self, _alloc: Global) -> Edit {
        Edit::Directory(RowEdit::PutCommunity(self))
    }
}

impl IntoEdit for Group {
    ghost use Rattle.hub_store.specs.inner.Adds.{group_edit};

    ghost edit = { group_edit };

    fn into_edit(self, _alloc: Global) -> Edit {
        Edit::Directory(RowEdit::PutGroup(self))
    }
}

impl IntoEdit for Client {
    ghost use Rattle.hub_store.specs.inner.Adds.{client_edit};

    ghost edit = { client_edit };

    fn into_edit(self, _alloc: Global) -> Edit {
        Edit::Directory(RowEdit::PutClient(self))
    }
}

impl IntoEdit for Membership {
    ghost use Rattle.hub_store.specs.inner.Adds.{membership_edit};

    ghost edit = { membership_edit };

    fn into_edit(self, _alloc: Global) -> Edit {
        Edit::Directory(RowEdit::PutMembership(self))
    }
}

impl IntoEdit for Connection {
    ghost use Rattle.hub_store.specs.inner.Adds.{connection_edit};

    ghost edit = { connection_edit };

    fn into_edit(self, _alloc: Global) -> Edit {
        Edit::Directory(RowEdit::PutConnection(self))
    }
}

impl IntoEdit for GroupMember {
    ghost use Rattle.hub_store.specs.inner.Adds.{group_member_edit};

    ghost edit = { group_member_edit };

    fn into_edit(self, _alloc: Global) -> Edit {
        Edit::Directory(RowEdit::PutGroupMember(self))
    }
}

impl IntoEdit for Arrangement {
    ghost use Rattle.hub_store.specs.inner.Adds.{arrangement_edit};

    ghost edit = { arrangement_edit };

    fn into_edit(self, _alloc: Global) -> Edit {
        Edit::Directory(RowEdit::PutArrangement(self))
    }
}

impl IntoEdit for Naming {
    ghost use Rattle.hub_store.specs.inner.Adds.{naming_edit};

    ghost edit = { naming_edit };

    fn into_edit(self, alloc: Global) -> Edit {
        Edit::PutIncident(Incident {
            naming: self,
            document: Document::new(Object {
                members: Vec::new(alloc),
            }),
        })
    }
}

impl IntoEdit for Gate {
    ghost use Rattle.hub_store.specs.inner.Adds.{gate_edit};

    ghost edit = { gate_edit };

    fn into_edit(self, _alloc: Global) -> Edit {
        Edit::PutGate(self)
    }
}

impl IntoEdit for Recipient {
    ghost use Rattle.hub_store.specs.inner.Adds.{recipient_edit};

    ghost edit = { recipient_edit };

    fn into_edit(self, _alloc: Global) -> Edit {
        Edit::PutRecipient(self)
    }
}

impl IntoEdit for Permission {
    ghost use Rattle.hub_store.specs.inner.Adds.{permission_edit};

    ghost edit = { permission_edit };

    fn into_edit(self, _alloc: Global) -> Edit {
        Edit::PutPermission(self)
    }
}
