//! A reader that is kept for one incident after another, and judged by the rows where they lie.
ghost use Rattle.std.specs.Prelude.{◌≡◌, ◌==◌, ◌||◌, Some, None, IfOk, IfSome, is_none, true};
ghost use Rattle.std.specs.List.{list_any};
ghost use Rattle.std.specs.Option.{option_map_or};
ghost use Rattle.circle.specs.Directory.{has_membership};
ghost use Rattle.circle.specs.Reads.{person_of};
ghost use Rattle.circle.specs.declared.directory.Person.{Person as ThePerson};
ghost use Rattle.hub_state.specs.KeptReaders.{IsReader};
ghost use Rattle.hub_state.specs.Reads.{standing_for, ties_of};
ghost use Rattle.hub_state.specs.State.{has_recipient};
ghost use Rattle.hub_state.specs.declared.request.Target.TheVariants as target;
ghost use Rattle.hub_state.specs.declared.state.Incident.{Incident as TheIncident};

use crate::look_ups::{Reader, Ties};
use crate::request::Target;
use crate::standing::arrangement_in;
use crate::state::Naming;
use crate::state_rows::StateRows;
use policy::{Numbers, Standing};
use std::alloc::AllocError;

/// A reader, with how it stands to the incident for which it was set last.
#[derive(Drop)]
pub struct KeptReader {
    /// The organisations whose client the reader's organisation is.
    pub served: Numbers,
    /// How the reader stands to the incident for which it was set last; to none at first.
    pub standing: Standing,
}

impl KeptReader {
    /// Returns a reader that is set for no incident. Allocates nothing.
    fn of(reader: Reader) -> KeptReader
        ensures served { result.served ≡ reader.served }
        ensures nominated { result.standing.nominated ≡ reader.person.nominated }
        ensures who { result.standing.who ≡ reader.person.number }
        ensures org { result.standing.org ≡ reader.person.org }
        ensures groups { result.standing.groups ≡ reader.groups }
        ensures active_groups { result.standing.active_groups ≡ reader.active_groups }
        ensures communities { result.standing.communities ≡ reader.communities }
    {
        let standing = Standing {
            source: false,
            person: false,
            nominated: reader.person.nominated,
            addressed: false,
            client: false,
            community: false,
            peer: false,
            connected: false,
            arrangement: None,
            who: reader.person.number,
            org: reader.person.org,
            groups: reader.groups,
            active_groups: reader.active_groups,
            communities: reader.communities,
            now: 0,
        };
        KeptReader {
            served: reader.served,
            standing,
        }
    }

    /// Sets how the reader stands to an incident at a moment, in seconds since the beginning of 1970 (UTC). `ties` are those
    /// of its organisation to the source, if no community is named. Allocates nothing.
    pub fn set_for(&mut self, rows: &StateRows, naming: &Naming, ties: &Ties, now: i64)
        ensures stands { (p : ThePerson) (i : TheIncident) → IsReader self.old p rows.now →
            naming.now ≡ i.naming → ties.now ≡ ties_of p.org i.naming.source None rows.now →
            self.new.standing ≡ standing_for rows.now now p i }
        ensures stays { (p : ThePerson) → IsReader self.old p rows.now →
            IsReader self.new p rows.now }
    {
        let org = self.standing.org;
        let addressed = rows.is_addressed(naming.number, Target::Org(org));
        let person = rows.is_addressed(naming.number, Target::Person(self.standing.who));
        let client = rows.is_client(self.served.as_slice(), naming);
        let peer = rows.is_peer(org, naming.community, ties.community);
        let standing = &mut self.standing;
        standing.source = org == naming.source;
        standing.person = person;
        standing.addressed = addressed;
        standing.client = client;
        standing.community = ties.community;
        standing.peer = peer;
        standing.connected = ties.connected;
        standing.arrangement = arrangement_in(ties.arrangement);
        standing.now = now;
    }
}

impl StateRows {
    /// Returns the person with this number as a reader that is set for no incident. None if it is missing. Fails if the
    /// memory doesn't suffice.
    pub fn keep_reader(&self, person: u32) -> Result<Option<KeptReader>, AllocError>
        ensures found { IfOk result (λ found. IfSome found (λ k.
            (p : ThePerson) × (person_of person self.now.directory ≡ Some p) × IsReader k p self.now)) }
        ensures missing { IfOk result (λ found. is_none found ≡ true →
            person_of person self.now.directory ≡ None) }
    {
        match self.find_reader(person)? {
            None => Ok(None),
            Some(reader) => Ok(Some(KeptReader::of(reader))),
        }
    }

    /// Whether one of the organisations is the source of the incident or addressed.
    fn is_client(&self, served: &[u32], naming: &Naming) -> bool
        ensures { result ≡ list_any (λ org. org == naming.now.source ||
            has_recipient naming.now.number (target.Org org) self.now) served.now }
    {
        served.iter().any(|org| {
            *org == naming.source || self.is_addressed(naming.number, Target::Org(*org))
        })
    }

    /// Whether an organisation is a member of the community that is named. If none is, as `community`.
    fn is_peer(&self, org: u32, named: Option<u32>, community: bool) -> bool
        ensures { result ≡
            option_map_or (λ c. has_membership c org self.now.directory) named community }
    {
        match named {
            None => community,
            Some(named) => self.directory().has_membership(named, org),
        }
    }
}
