//! How many class gates, recipients and permissions an incident would have after a request.
ghost use Rattle.std.specs.Prelude.{◌≡◌, ◌∷◌, [], true, false, ℕ, is_some};
ghost use Rattle.circle.specs.declared.directory.Person.{Person as ThePerson};
ghost use Rattle.iodef_tree.specs.Pointer.{pointer_tokens};
ghost use Rattle.hub_state.specs.Aftermath.{put_gate, put_permission};
ghost use Rattle.hub_state.specs.Documents.{made_at};
ghost use Rattle.hub_state.specs.Edits.{with_edits};
ghost use Rattle.hub_state.specs.Reads.{its_gates, its_permissions};
ghost use Rattle.hub_state.specs.Requests.{looked_up, incident_asked};
ghost use Rattle.hub_state.specs.inner.Shared.{counts_in, counts_of, path_asked, sharing_asked, sharing_named};
ghost use Rattle.hub_state.specs.Sound.{IsSound};
ghost use Rattle.hub_state.specs.State.{State, class_gates, permissions_of};
ghost use Rattle.hub_state.specs.declared.edit.Edit.TheVariants as edit;

use crate::questions::{
    count_class_gates, count_class_gates_with, count_permissions_beside, count_targets_beside,
};
use crate::request::{Grant, Redistribute, Request, Withdraw};
use crate::sharing::Sharing;
use crate::small_counts::capped;
use iodef_tree::Path;
use policy::{Gate, Permission};

/// How many of an incident's rows there would be.
#[derive(Drop)]
pub(crate) struct Counts {
    pub(crate) gates: u32,
    pub(crate) recipients: u32,
    pub(crate) permissions: u32,
}

/// How many class gates there would be with the one asked for. A text that is no pointer adds none.
fn gates_with(path: &Option<Path>, asked: &Redistribute, gates: &[Gate]) -> u32
    requires { path.now ≡ pointer_tokens asked.now.path }
    ensures { (s : State) → IsSound s → gates.now ≡ its_gates asked.now.incident s.gates →
        result ≡
        class_gates asked.now.incident
        (with_edits (made_at (λ p.
        edit.TakeGate
        (record {
          incident = asked.now.incident;
          path = p;
        }) ∷ put_gate asked.now.incident asked.now.level asked.now.group p)
        asked.now.path) s).gates }
{
    match path {
        None => capped(count_class_gates(gates)),
        Some(path) => capped(count_class_gates_with(gates, path)),
    }
}

/// How many permissions there would be with the one asked for. A text that is no pointer adds none.
fn permissions_with(path: &Option<Path>, asked: &Grant, permissions: &[Permission]) -> u32
    requires { path.now ≡ pointer_tokens asked.now.path }
    ensures { (s : State) → IsSound s →
        permissions.now ≡ its_permissions asked.now.incident s.permissions →
        result ≡
        permissions_of asked.now.incident
        (with_edits (made_at (λ p.
        put_permission
        (record {
          incident = asked.now.incident;
          path = p;
          grantee = asked.now.grantee;
        }) asked.now.until) asked.now.path) s).permissions }
{
    match path {
        None => capped(permissions.len()),
        Some(path) => {
            let beside = count_permissions_beside(permissions, path, asked.grantee);
            capped(beside).saturating_add(1)
        }
    }
}

/// How many permissions there would be without the one named. A text that is no pointer names none.
fn permissions_without(path: &Option<Path>, asked: &Withdraw, permissions: &[Permission]) -> u32
    requires { path.now ≡ pointer_tokens asked.now.path }
    ensures { (s : State) → IsSound s →
        permissions.now ≡ its_permissions asked.now.incident s.permissions →
        result ≡
        permissions_of asked.now.incident
        (with_edits (made_at (λ p.
        edit.TakePermission
        (record {
          incident = asked.now.incident;
          path = p;
          grantee = asked.now.grantee;
        }) ∷ []) asked.now.path) s).permissions }
{
    match path {
        None => capped(permissions.len()),
        Some(path) => {
            let beside = count_permissions_beside(permissions, path, asked.grantee);
            capped(beside)
        }
    }
}

/// How many rows there are.
fn standing_counts(sharing: &Sharing) -> Counts
    ensures { (s : State) → (n : ℕ) → IsSound s → sharing.now ≡ sharing_named n s →
        result ≡ counts_of n s }
{
    Counts {
        gates: capped(count_class_gates(sharing.gates.as_slice())),
        recipients: capped(sharing.recipients.as_slice().len()),
        permissions: capped(sharing.permissions.as_slice().len()),
    }
}

/// How many rows the incident that the request names would have. It is there.
fn counts_there(path: &Option<Path>, request: &Request, sharing: &Sharing) -> Counts
    requires { path.now ≡ path_asked request.now }
    ensures { (s : State) → IsSound s → sharing.now ≡ sharing_asked (incident_asked request.now) s →
        is_some (looked_up s (incident_asked request.now)) ≡ true → (actor : ThePerson) →
        result ≡ counts_in s actor request.now }
{
    let counts = standing_counts(sharing);
    let targets = sharing.recipients.as_slice();
    let permissions = sharing.permissions.as_slice();
    match request {
        Request::Replace(asked) => Counts {
            gates: capped(asked.distribution.gates.as_slice().len()),
            // an exchange of the document takes all permissions out
            permissions: 0,
            ..counts
        },
        Request::Redistribute(asked) => Counts {
            gates: gates_with(path, asked, sharing.gates.as_slice()),
            ..counts
        },
        Request::Address(asked) => Counts {
            recipients: capped(count_targets_beside(targets, asked.target)).saturating_add(1),
            ..counts
        },
        Request::Unaddress(asked) => Counts {
            recipients: capped(count_targets_beside(targets, asked.target)),
            ..counts
        },
        Request::Grant(asked) => Counts {
            permissions: permissions_with(path, asked, permissions),
            ..counts
        },
        Request::Withdraw(asked) => Counts {
            permissions: permissions_without(path, asked, permissions),
            ..counts
        },
        _ => counts,
    }
}

/// How many rows there would be if the request names no incident that is there. Each incident of a Post would have as
/// many class gates as the request asks for.
fn counts_apart(request: &Request) -> Counts
    ensures { (s : State) → (actor : ThePerson) →
        is_some (looked_up s (incident_asked request.now)) ≡ false →
        result ≡ counts_in s actor request.now }
{
    let gates = match request {
        Request::Post(asked) => capped(asked.distribution.gates.as_slice().len()),
        _ => 0,
    };
    Counts {
        gates,
        recipients: 0,
        permissions: 0,
    }
}

/// How many rows there would be after a request at this path, if at any. `sharing` is that of the incident that the
/// request names, and `is_there` says whether there is one.
pub(crate) fn counts_then(
    path: &Option<Path>,
    request: &Request,
    sharing: &Sharing,
    is_there: bool,
) -> Counts
    requires { path.now ≡ path_asked request.now }
    ensures { (s : State) → IsSound s → sharing.now ≡ sharing_asked (incident_asked request.now) s →
        is_there ≡ is_some (looked_up s (incident_asked request.now)) → (actor : ThePerson) →
        result ≡ counts_in s actor request.now }
{
    if is_there {
        counts_there(path, request, sharing)
    } else {
        counts_apart(request)
    }
}
