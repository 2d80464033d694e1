//! A shelf that counts how often it is asked for a report. One of its calls may fail.

ghost use Rattle.std.specs.Prelude.{◌≡◌, ◌<◌, ◌+◌, IfErr, OnOk};
ghost use Rattle.hub_core.specs.Shelves.{HasCause, last_count};

use circle::directory::Person;
use hub::Hub;
use hub_core::{
    Edit, Entry, Facts, IncidentSharing, JoinedCommunity, JoinedGroup, ListShelf, Reply, Request,
    Shelf, ShelfFault,
};
use hub_state::{StateRows, WholeRows};
use iodef_tree::Document;
use policy::{Case, Standing};
use redact::{Excerpt, Want};
use std::alloc::Global;
use std::cell::Cell;
use trying_shelves::{Asked, answer_over, run_over};

/// A shelf that has its calls answered by another one. After so many calls, one fails and does nothing.
#[derive(Drop)]
pub struct Watched<'a, Sh: Shelf> {
    shelf: Sh,
    /// How many calls are answered before the one that fails.
    calls: u64,
    failures: u64,
    /// How often it was asked for a document, an excerpt, or whether a report meets a want.
    reports: &'a Cell<u64>,
}

impl<'a, Sh: Shelf> Watched<'a, Sh> {
    /// Watches a shelf of which no call is made to fail. Counts in the cell how often it is asked for a document, an
    /// excerpt, or whether a report meets a want.
    pub fn over(shelf: Sh, reports: &'a Cell<u64>) -> Watched<'a, Sh> {
        Watched {
            shelf,
            calls: u64::MAX,
            failures: 0,
            reports,
        }
    }

    /// Counts that it is asked for a report.
    fn count_report(&self) {
        self.reports.set(self.reports.get().saturating_add(1));
    }

    /// Counts down to the call that fails. Fails for that one, and for every call at the last value of the count.
    fn ask(&mut self) -> Result<(), ShelfFault>
        ensures shelf { self.new.shelf ≡ self.old.shelf }
        ensures cause { HasCause self.old.failures self.new.failures result }
        ensures answered { OnOk result (self.new.failures ≡ self.old.failures) }
        ensures below { OnOk result (self.old.failures < last_count) }
        ensures fault { IfErr result (λ e. e ≡ ShelfFault.Failed) }
    {
        if self.failures == u64::MAX {
            return Err(ShelfFault::Failed);
        }
        if self.calls > 0 {
            self.calls = self.calls - 1;
            return Ok(());
        }
        self.calls = u64::MAX;
        self.failures = self.failures + 1;
        Err(ShelfFault::Failed)
    }

    /// Returns what the other shelf answered, and counts its failure.
    fn count_failure<T>(&mut self, outcome: Result<T, ShelfFault>) -> Result<T, ShelfFault>
        requires { self.old.failures < last_count }
        ensures same { result ≡ outcome }
        ensures shelf { self.new.shelf ≡ self.old.shelf }
        ensures cause { HasCause self.old.failures self.new.failures result }
    {
        if let Err(ShelfFault::Failed) = outcome {
            self.failures = self.failures + 1;
        }
        outcome
    }
}

impl<'a, Sh: Shelf> Shelf for Watched<'a, Sh> {
    ghost use Rattle.std.specs.Prelude.{◌≡◌};

    ghost has = { λ f s. Sh.has f.shelf s };

    ghost holds = { λ f s. Sh.holds f.shelf s };

    ghost doubts = { λ f. Sh.doubts f.shelf };

    ghost failed = { λ f. f.failures };

    ghost may_remain = { λ f left. Sh.may_remain f.shelf left };

    fn failures(&self) -> u64 {
        self.failures
    }

    fn person_by_key(&mut self, key: &[u8; 32]) -> Result<Option<Person>, ShelfFault> {
        self.ask()?;
        let found = self.shelf.person_by_key(key);
        self.count_failure(found)
    }

    fn standing(
        &mut self,
        person: u32,
        incident: u32,
        now: i64,
    ) -> Result<Option<Standing>, ShelfFault> {
        self.ask()?;
        let found = self.shelf.standing(person, incident, now);
        self.count_failure(found)
    }

    fn case(&mut self, incident: u32) -> Result<Option<Case>, ShelfFault> {
        self.ask()?;
        let found = self.shelf.case(incident);
        self.count_failure(found)
    }

    fn incident_sharing(&mut self, incident: u32) -> Result<Option<IncidentSharing>, ShelfFault> {
        self.ask()?;
        let found = self.shelf.incident_sharing(incident);
        self.count_failure(found)
    }

    fn document(&mut self, incident: u32) -> Result<Option<Document>, ShelfFault> {
        self.count_report();
        self.ask()?;
        let found = self.shelf.document(incident);
        self.count_failure(found)
    }

    fn excerpt(
        &mut self,
        incident: u32,
        case: Case,
        standing: Standing,
    ) -> Result<Option<Excerpt>, ShelfFault> {
        self.count_report();
        self.ask()?;
        let found = self.shelf.excerpt(incident, case, standing);
        self.count_failure(found)
    }

    fn meets(
        &mut self,
        incident: u32,
        case: Case,
        standing: Standing,
        want: Want,
    ) -> Result<bool, ShelfFault> {
        self.count_report();
        self.ask()?;
        let met = self.shelf.meets(incident, case, standing, want);
        self.count_failure(met)
    }

    fn incidents_after(&mut self, number: u32, most: u32) -> Result<Vec<Entry>, ShelfFault> {
        self.ask()?;
        let found = self.shelf.incidents_after(number, most);
        self.count_failure(found)
    }

    fn groups_of(&mut self, person: &Person) -> Result<Vec<JoinedGroup>, ShelfFault> {
        self.ask()?;
        let found = self.shelf.groups_of(person);
        self.count_failure(found)
    }

    fn joined_communities(&mut self, person: &Person) -> Result<Vec<JoinedCommunity>, ShelfFault> {
        self.ask()?;
        let found = self.shelf.joined_communities(person);
        self.count_failure(found)
    }

    fn facts(&mut self, actor: &Person, request: &Request) -> Result<Facts, ShelfFault> {
        self.ask()?;
        let found = self.shelf.facts(actor, request);
        self.count_failure(found)
    }

    fn apply(&mut self, edits: &[Edit]) -> Result<(), ShelfFault> {
        self.ask()?;
        let made = self.shelf.apply(edits);
        self.count_failure(made)
    }
}

impl<'a, Sh: WholeRows> WholeRows for Watched<'a, Sh> {
    fn rows(&mut self) -> Result<StateRows, ShelfFault> {
        self.ask()?;
        let found = self.shelf.rows();
        self.count_failure(found)
    }
}

/// Fails one call of the shelf, after so many others. Returns the replies to the requests, or none if no call failed or
/// the memory doesn't suffice.
pub fn run_failing(
    alloc: Global,
    shelf: ListShelf,
    asked: &[Asked],
    calls: u64,
) -> Option<Vec<Reply>> {
    let reports = Cell::new(0);
    let mut hub = Hub::new(Watched {
        shelf,
        calls,
        failures: 0,
        reports: &reports,
    });
    let outcome = run_over(&mut hub, alloc, asked);
    if hub.into_shelf().failures == 0 {
        return None;
    }
    outcome.ok()
}

/// Answers a request. Returns how often it asks the watched shelf for a report, which counts in this cell.
pub fn reports_of<Sh: Shelf>(
    alloc: Global,
    hub: &mut Hub<Sh>,
    reports: &Cell<u64>,
    asked: &Asked,
) -> u64 {
    let before = reports.get();
    let (now, key, request) = asked;
    answer_over(hub, alloc, *now, key, request);
    reports.get().saturating_sub(before)
}
