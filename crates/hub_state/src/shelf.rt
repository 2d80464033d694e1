//! What a shelf promises: reads that are functions of the state, and edits that are made whole or not at all.
ghost use Rattle.std.specs.Prelude.{◌≡◌, false, ◌⊎◌, ◌≤◌, ◌↔◌, ℕ, Option, Some, option_map, OnOk, OnErr};
ghost use Rattle.hub_state.specs.State.{State};
ghost use Rattle.hub_state.specs.Edits.{with_edits as state_with_edits};
ghost use Rattle.hub_state.specs.Sound.{IsSound};
ghost use Rattle.hub_state.specs.Facts.{facts_of};
ghost use Rattle.hub_state.specs.Reads.{standing_of, case_of, document_of, served_of_incident, met_by_incident, met_for, entries_after};
ghost use Rattle.hub_state.specs.Reads as spec;
ghost use Rattle.redact.specs.Excerpts.{told_by};
ghost use Rattle.hub_state.specs.Shelves.{HasCause, Reads, KeepsContent};

use crate::edit::Edit;
use crate::facts::Facts;
use crate::look_ups::IncidentSharing;
use crate::reply::{Entry, JoinedCommunity, JoinedGroup};
use crate::request::Request;
use circle::directory::Person;
use iodef_tree::Document;
use policy::{Case, Standing};
use redact::{Excerpt, Want};
use thiserror::Error;

/// Why a shelf returned nothing. The content is as it was.
#[derive(Clone, Copy, Debug, PartialEq, Eq, Error)]
pub enum ShelfFault {
    #[error("no memory")]
    NoMemory,
    /// The store failed.
    #[error("the store failed")]
    Failed,
}

/// What keeps the hub's state. Each read returns its function of the state and changes nothing. A read or an edit
/// fails with `NoMemory` if the memory doesn't suffice, and with `Failed` if the store failed.
pub trait Shelf {
    // The content is this state. A store that an earlier failure has shut has any state, so a read of it can only fail.
    ghost has: { Self → State → Type 0 };

    // What was written is this state, which may be one that isn't sound. Of such a state no read says anything.
    ghost holds: { Self → State → Type 0 };

    // 0 as long as the store has returned what was written to it
    ghost doubts: { Self → ℕ };

    // how often the store has failed
    ghost failed: { Self → ℕ };

    // What a crash at this moment may leave: a sound state, or None for whatever stands for none.
    ghost may_remain: { Self → Option State → Type 0 };

    /// How often the store has failed.
    fn failures(&self) -> u64
        ensures { result ≡ failed self.now };

    /// The person with this key (its SHA-256), active or suspended. None if there is none.
    fn person_by_key(&mut self, key: &[u8; 32]) -> Result<Option<Person>, ShelfFault>
        ensures { Reads has doubts failed may_remain self.old self.new (λ s found. found ≡
            spec.person_by_key key.now s) result };

    /// How a person stands to an incident at a moment, in seconds since the beginning of 1970 (UTC). None if either is
    /// missing.
    fn standing(
        &mut self,
        person: u32,
        incident: u32,
        now: i64,
    ) -> Result<Option<Standing>, ShelfFault>
        ensures { Reads has doubts failed may_remain self.old self.new (λ s found. found ≡
            standing_of person incident now s) result };

    /// The case of an incident: what it is judged by, without its document. None if it is missing.
    fn case(&mut self, incident: u32) -> Result<Option<Case>, ShelfFault>
        ensures { Reads has doubts failed may_remain self.old self.new (λ s found. found ≡
            case_of incident s) result };

    /// How an incident is shared: all that is known of it without its document. None if it is missing.
    fn incident_sharing(&mut self, incident: u32) -> Result<Option<IncidentSharing>, ShelfFault>
        ensures { Reads has doubts failed may_remain self.old self.new (λ s found. found ≡
            spec.incident_sharing incident s) result };

    /// The document of an incident. None if it is missing.
    fn document(&mut self, incident: u32) -> Result<Option<Document>, ShelfFault>
        ensures { Reads has doubts failed may_remain self.old self.new (λ s found. found ≡
            document_of incident s) result };

    /// What a reader of this standing may see of an incident that is judged by this case. None if the incident is
    /// missing, if no class of it is visible, or if its markings aren't accepted.
    fn excerpt(
        &mut self,
        incident: u32,
        case: Case,
        standing: Standing,
    ) -> Result<Option<Excerpt>, ShelfFault>
        ensures { Reads has doubts failed may_remain self.old self.new (λ s found.
            option_map told_by found ≡ served_of_incident incident case standing s) result };

    /// Whether an incident that is judged by this case meets a want, for a reader of this standing. False if it is
    /// missing, or if its markings aren't accepted.
    fn meets(
        &mut self,
        incident: u32,
        case: Case,
        standing: Standing,
        want: Want,
    ) -> Result<bool, ShelfFault>
        ensures { Reads has doubts failed may_remain self.old self.new (λ s met. met ≡
            met_by_incident incident case standing want s) result };

    /// Whether an incident may meet a want for a person at a moment, as far as it is known without the document. False
    /// only if either is missing, or if the incident doesn't meet the want for the person's standing, by its case. By
    /// default nothing is known.
    fn may_meet(
        &mut self,
        person: u32,
        incident: u32,
        now: i64,
        want: &Want,
    ) -> Result<bool, ShelfFault>
        ensures { Reads has doubts failed may_remain self.old self.new (λ s may.
            may ≡ false → met_for person incident now want.now s ≡ false) result }
    {
        // at the last value of the count every call fails
        if self.failures() == u64::MAX {
            return Err(ShelfFault::Failed);
        }
        Ok(true)
    }

    /// The first `most` incidents above a number, in the order of their numbers.
    fn incidents_after(&mut self, number: u32, most: u32) -> Result<Vec<Entry>, ShelfFault>
        ensures { Reads has doubts failed may_remain self.old self.new (λ s found.
            found.items ≡ entries_after number most s) result };

    /// The groups of which the person's organisation is a member, in the order of their numbers.
    fn groups_of(&mut self, person: &Person) -> Result<Vec<JoinedGroup>, ShelfFault>
        ensures { Reads has doubts failed may_remain self.old self.new (λ s found.
            found.items ≡ spec.groups_of person.now s) result };

    /// The communities of which the person's organisation is a member, in the order of their numbers.
    fn joined_communities(&mut self, person: &Person) -> Result<Vec<JoinedCommunity>, ShelfFault>
        ensures { Reads has doubts failed may_remain self.old self.new (λ s found.
            found.items ≡ spec.joined_communities person.now s) result };

    /// The facts of a person's request.
    fn facts(&mut self, actor: &Person, request: &Request) -> Result<Facts, ShelfFault>
        ensures { Reads has doubts failed may_remain self.old self.new (λ s facts. facts ≡
            facts_of s actor.now request.now) result };

    /// Makes all edits, or none: without Ok the content is as it was. If the edits lead to a state that isn't sound, this
    /// is promised after Ok: it was written, with all its rows. What later calls return, and what a crash may leave,
    /// isn't. A table refuses some rows that no sound state has.
    fn apply(&mut self, edits: &[Edit]) -> Result<(), ShelfFault>
        ensures made { doubts self.new ≡ 0 → (s : State) → has self.old s →
            IsSound (state_with_edits edits.now s) →
            OnOk result (has self.new (state_with_edits edits.now s)) }
        ensures written { doubts self.new ≡ 0 → (s : State) → has self.old s →
            OnOk result (holds self.new (state_with_edits edits.now s)) }
        ensures none { OnErr result (KeepsContent has doubts failed may_remain self.old self.new) }
        ensures cause { HasCause (failed self.old) (failed self.new) result }
        ensures doubt { doubts self.old ≤ doubts self.new }
        // After Ok a crash may leave only the content after the edits. Without Ok it may leave what it could have left
        // before, or that content.
        ensures durable { doubts self.new ≡ 0 → (s : State) → has self.old s →
            IsSound (state_with_edits edits.now s) →
            OnOk result ((left : Option State) →
            may_remain self.new left ↔ (left ≡ Some (state_with_edits edits.now s))) }
        ensures crash { doubts self.new ≡ 0 → (s : State) → has self.old s →
            IsSound (state_with_edits edits.now s) → (left : Option State) →
            may_remain self.new left →
            may_remain self.old left ⊎ (left ≡ Some (state_with_edits edits.now s)) };
}
