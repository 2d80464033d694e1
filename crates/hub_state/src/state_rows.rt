//! The rows of a state in memory.
ghost use Rattle.std.specs.Prelude.{◌≡◌, OnOk, OnErr, IfOk, IfErr, length, map, min, option_map, ℕ, List};
ghost use Rattle.std.specs.Option.{option_copied};
ghost use Rattle.circle.specs.Sound.{Differ};
ghost use Rattle.policy.specs.Reach.{reach_of};
ghost use Rattle.hub_state.specs.State.{State, empty, has_recipient, incident_of, incident_named, incident_number};
ghost use Rattle.hub_state.specs.Reads.{its_gates, its_permissions, its_recipients, entries_after};
ghost use Rattle.hub_state.specs.Bare.{bare_edit};
ghost use Rattle.hub_state.specs.Edits as spec;
ghost use Rattle.hub_state.specs.declared.state.Incident.{Incident as TheIncident};

use crate::change::{RowChange, changes_of};
use crate::edit::Edit;
use crate::lists::Lists;
use crate::recipients::Recipients;
use crate::reply::Entry;
use crate::request::Target;
use crate::rows::Named;
use crate::small_counts::capped;
use crate::state::Incident;
use circle::text::Text;
use circle_rows::{DirectoryRows, ReadyRows};
use policy::{Gates, Permissions, Reach, Standing};
use std::alloc::{AllocError, Global};
use std::marker::Model;

/// The rows of a state in memory, in sorted vectors. That they are in order is an invariant of the type. The state need
/// not be sound: a shelf that keeps documents elsewhere has rows whose incidents have none.
#[derive(Drop)]
pub struct StateRows {
    alloc: Global,
    directory: DirectoryRows,
    lists: Lists,
}

impl Model for StateRows {
    ghost use Rattle.hub_state.specs.State.{State};
    ghost use Rattle.hub_state.specs.Lists.{AreInOrder, with_directory};

    ghost Value = { State };

    ghost view = { λ s. with_directory s.directory s.lists };

    ghost invariant = { λ s. AreInOrder s.lists };
}

impl StateRows {
    /// Returns thirteen empty sets. Takes no memory.
    pub fn new(alloc: Global) -> StateRows
        ensures { result ≡ empty }
    {
        StateRows {
            alloc,
            directory: DirectoryRows::new(alloc),
            lists: Lists::new(alloc),
        }
    }

    /// Returns the rows of the directory.
    pub fn directory(&self) -> &DirectoryRows
        ensures { result.now ≡ self.now.directory }
    {
        &self.directory
    }

    pub(crate) fn alloc(&self) -> Global {
        self.alloc
    }

    pub(crate) fn incident(&self, number: u32) -> Option<&Incident>
        ensures { option_copied result ≡ incident_of number self.now }
    {
        self.lists.incident(number)
    }

    /// Returns how many incidents there are, at most the greatest u32.
    pub fn incident_count(&self) -> u32
        ensures { result ≡ min (length self.now.incidents) 4294967295 }
    {
        capped(self.lists.incidents.as_slice().len())
    }

    /// Returns the number of the incident that a source has posted under an ident, if no source has posted two under
    /// one. Fails if the memory doesn't suffice.
    pub fn number_of(&self, source: u32, ident: &Text) -> Result<Option<u32>, AllocError>
        ensures { Differ {K = ℕ × List ℕ} (λ (i : TheIncident).
            (i.naming.source, i.naming.ident)) self.now.incidents →
            IfOk result (λ found. found ≡ option_map incident_number
            (incident_named source ident.now self.now)) }
    {
        let name = Named {
            source,
            ident: ident.clone()?,
            number: 0,
        };
        Ok(self.number_under(&name))
    }

    fn number_under(&self, name: &Named) -> Option<u32>
        ensures { Differ {K = ℕ × List ℕ} (λ (i : TheIncident).
            (i.naming.source, i.naming.ident)) self.now.incidents →
            result ≡ option_map incident_number
            (incident_named name.now.source name.now.ident self.now) }
    {
        self.lists.number_of(name)
    }

    /// Returns the gates of an incident, as policy has them. Fails if the memory doesn't suffice.
    pub fn case_gates(&self, incident: u32) -> Result<Gates, AllocError>
        ensures { IfOk result (λ v. v ≡ its_gates incident self.now.gates) }
    {
        self.lists.case_gates(self.alloc, incident)
    }

    /// Returns the recipients of an incident. Fails if the memory doesn't suffice.
    pub fn copied_recipients(&self, incident: u32) -> Result<Recipients, AllocError>
        ensures { IfOk result (λ v. v ≡ its_recipients incident self.now.recipients) }
    {
        self.lists.copied_recipients(self.alloc, incident)
    }

    /// Returns the permissions of an incident, as policy has them. Fails if the memory doesn't suffice.
    pub fn case_permissions(&self, incident: u32) -> Result<Permissions, AllocError>
        ensures { IfOk result (λ v. v ≡ its_permissions incident self.now.permissions) }
    {
        self.lists.case_permissions(self.alloc, incident)
    }

    /// Returns how the gates and the permissions of an incident stand to a reader. Allocates nothing.
    pub fn reach(&self, incident: u32, standing: &Standing) -> Reach
        ensures { result ≡ reach_of (its_gates incident self.now.gates)
            (its_permissions incident self.now.permissions) standing.entry.now }
    {
        self.lists.reach(incident, standing)
    }

    pub(crate) fn is_addressed(&self, incident: u32, target: Target) -> bool
        ensures { result ≡ has_recipient incident target self.now }
    {
        self.lists.is_addressed(incident, target)
    }

    /// Returns the first `most` incidents above a number, as they are listed. Fails if the memory doesn't suffice.
    pub fn list_after(&self, number: u32, most: u32) -> Result<Vec<Entry>, AllocError>
        ensures { IfOk result (λ found. found.items ≡ entries_after number most self.now) }
    {
        self.lists.entries_after(self.alloc, number, most)
    }

    /// Makes all edits. Fails with no edit made if the memory doesn't suffice.
    pub fn make(&mut self, edits: &[Edit]) -> Result<(), AllocError>
        ensures made { OnOk result (self.new ≡ spec.with_edits edits.now self.old) }
        ensures none { OnErr result (self.new ≡ self.old) }
    {
        // the copies and the room are taken first, so that nothing can fail once an edit is made
        let changes = changes_of(self.alloc, edits, true)?;
        self.lists.reserve(changes.rows.len())?;
        self.directory.apply(changes.directory)?;
        self.lists.make_all(changes.rows);
        Ok(())
    }

    /// Takes the memory for all edits without the documents that they put, and makes none. Fails with the rows as they
    /// were if it doesn't suffice.
    pub fn ready(self, edits: &[Edit]) -> Result<ReadyState, (AllocError, StateRows)>
        ensures ready { IfOk result (λ r. r ≡
            record { before = self; after = spec.with_edits (map bare_edit edits.now) self }) }
        ensures none { IfErr result (λ e. e.1 ≡ self) }
    {
        let changes = match changes_of(self.alloc, edits, false) {
            Ok(changes) => changes,
            Err(refused) => return Err((refused, self)),
        };
        let StateRows {
            alloc,
            directory,
            mut lists,
        } = self;
        if let Err(refused) = lists.reserve(changes.rows.len()) {
            return Err((
                refused,
                StateRows {
                    alloc,
                    directory,
                    lists,
                },
            ));
        }
        match directory.ready(changes.directory) {
            Ok(directory) => Ok(ReadyState {
                alloc,
                directory,
                lists,
                changes: changes.rows,
            }),
            Err((refused, directory)) => Err((
                refused,
                StateRows {
                    alloc,
                    directory,
                    lists,
                },
            )),
        }
    }
}

/// The rows of a state in memory, and edits for which the memory is taken. Contracts see the state before the edits
/// and the one after them.
#[derive(Drop)]
pub struct ReadyState {
    alloc: Global,
    directory: ReadyRows,
    lists: Lists,
    changes: Vec<RowChange>,
}

impl Model for ReadyState {
    ghost use Rattle.std.specs.Prelude.{length};
    ghost use Rattle.hub_state.specs.Lists.{AreInOrder, HasRoom, Ready, ready_by};

    ghost Value = { Ready };

    ghost view = { λ r. ready_by r.directory r.lists r.changes.items };

    ghost invariant = { λ r. AreInOrder r.lists × HasRoom (length r.changes.items) r.lists };
}

impl ReadyState {
    /// Makes the edits.
    pub fn make(self) -> StateRows
        ensures { result ≡ self.after }
    {
        let ReadyState {
            alloc,
            directory,
            mut lists,
            changes,
        } = self;
        lists.make_all(changes);
        StateRows {
            alloc,
            directory: directory.make(),
            lists,
        }
    }

    /// Returns the rows as they were, and makes no edit.
    pub fn into_rows(self) -> StateRows
        ensures { result ≡ self.before }
    {
        let ReadyState {
            alloc,
            directory,
            lists,
            ..
        } = self;
        StateRows {
            alloc,
            directory: directory.into_rows(),
            lists,
        }
    }
}
