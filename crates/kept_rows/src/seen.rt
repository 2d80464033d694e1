//! The person whose page is made, kept from one incident to the next.
ghost use Rattle.std.specs.Prelude.{◌≡◌, ◌==◌, Some, None, IfOk, IfSome, is_none, true};
ghost use Rattle.circle.specs.Reads.{person_of};
ghost use Rattle.circle.specs.declared.directory.Person.{Person};
ghost use Rattle.hub_state.specs.Reads.{standing_for};
ghost use Rattle.hub_state.specs.declared.state.Incident.{Incident};
ghost use Rattle.kept_rows.specs.Seen.{IsSeen, KeepsOnly};

use hub_state::{KeptReader, Naming, StateRows, Ties};
use policy::Standing;
use std::alloc::{AllocError, Global};
use std::collections::HashMap;
use std::hash::{BuildHasherDefault, FoldHasher};

/// The person whose page is made, and the ties of its organisation by the sources' numbers.
#[derive(Drop)]
pub(crate) struct Seen {
    number: u32,
    reader: KeptReader,
    ties: HashMap<u32, Ties, BuildHasherDefault<FoldHasher>, Global>,
}

impl Seen {
    /// Returns the person with this number, without ties. None if it is missing. Fails if the memory doesn't suffice.
    pub(crate) fn of(
        alloc: Global,
        rows: &StateRows,
        person: u32,
    ) -> Result<Option<Seen>, AllocError>
        ensures found { IfOk result (λ found.
            IfSome found (λ k. (k.number ≡ person) × IsSeen k rows.now)) }
        ensures missing { IfOk result (λ found.
            is_none found ≡ true → person_of person rows.now.directory ≡ None) }
    {
        match rows.keep_reader(person)? {
            None => Ok(None),
            Some(reader) => Ok(Some(Seen {
                number: person,
                reader,
                ties: HashMap::new(alloc),
            })),
        }
    }

    /// Whether this is the person of the number.
    pub(crate) fn is_of(&self, person: u32) -> bool
        ensures { result ≡ (self.now.number == person) }
    {
        self.number == person
    }

    /// Returns how the person stands to the incident for which it was set last.
    pub(crate) fn standing(&self) -> &Standing
        ensures { result.now ≡ self.now.reader.standing }
    {
        &self.reader.standing
    }

    /// Sets how the person stands to an incident at a moment. Keeps the ties to the source if the memory suffices.
    pub(crate) fn set_for(&mut self, rows: &StateRows, naming: &Naming, now: i64)
        ensures number { self.new.number ≡ self.old.number }
        ensures stays { IsSeen self.old rows.now → IsSeen self.new rows.now }
        ensures stands { (p : Person) (i : Incident) → IsSeen self.old rows.now →
            person_of self.old.number rows.now.directory ≡ Some p → naming.now ≡ i.naming →
            self.new.reader.standing ≡ standing_for rows.now now p i }
    {
        match self.ties.get(&naming.source) {
            Some(ties) => self.reader.set_for(rows, naming, ties, now),
            None => {
                let ties = rows.ties(self.reader.standing.org, naming.source, None);
                self.reader.set_for(rows, naming, &ties, now);
                self.keep(naming.source, ties);
            }
        }
    }

    /// Keeps the ties to a source, if the memory suffices.
    fn keep(&mut self, source: u32, ties: Ties)
        ensures number { self.new.number ≡ self.old.number }
        ensures reader { self.new.reader ≡ self.old.reader }
        ensures ties { KeepsOnly source ties self.old self.new }
    {
        // without memory for them they are looked up again
        let _ = self.ties.insert(source, ties);
    }
}
