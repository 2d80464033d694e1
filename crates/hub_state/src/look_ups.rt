//! What a shelf looks up in its rows.
ghost use Rattle.std.specs.Prelude.{◌≡◌, ◌==◌, ℕ, Option, option_map, length};
ghost use Rattle.circle.specs.Directory.{has_org as is_org, has_person as is_person, has_community as is_community, has_membership as is_membership};
ghost use Rattle.circle.specs.Directory.{has_group_member as is_group_member};
ghost use Rattle.circle.specs.Facts.{facts_of as directory_facts};
ghost use Rattle.circle.specs.Reads as spec;
ghost use Rattle.hub_state.specs.Reads.{document_of, its_gates, its_permissions, its_recipients, naming_of, reader_of, sharing_of, ties_of};
ghost use Rattle.hub_state.specs.Shelves.{Reads, last_count};
ghost use Rattle.hub_state.specs.Sound.{IsSound};
ghost use Rattle.hub_state.specs.State.{State, incident_named, incident_number};

use crate::recipients::Recipients;
use crate::shelf::ShelfFault;
use crate::state::Naming;
use circle::command::{CircleCommand, CircleFacts};
use circle::directory::{Handling, Person};
use circle::text::Text;
use iodef_tree::Document;
use policy::{Gates, Numbers, Permissions};

/// The part of a standing that doesn't depend on the incident; a shelf may keep it for the next one.
#[derive(Drop)]
pub struct Reader {
    pub person: Person,
    /// The organisations whose client the reader's organisation is.
    pub served: Numbers,
    /// The groups of which the reader's organisation is a member.
    pub groups: Numbers,
    /// Those of the groups that are active.
    pub active_groups: Numbers,
    /// The communities of which the reader's organisation is a member.
    pub communities: Numbers,
}

/// How an organisation stands to a source and to the community that an incident names.
#[derive(Drop)]
pub struct Ties {
    /// The organisation and the source are in one community.
    pub community: bool,
    /// The organisation is a member of the community that is named. If none is named, as `community`.
    pub peer: bool,
    /// The organisation is in a community that is connected to one of the source's.
    pub connected: bool,
    /// The handling that the source arranged with the organisation.
    pub arrangement: Option<Handling>,
}

/// How an incident is shared, without its gates and permissions.
#[derive(Drop)]
pub struct Shared {
    pub naming: Naming,
    pub recipients: Recipients,
}

/// How an incident is shared: all that is known of it without its document.
#[derive(Drop)]
pub struct IncidentSharing {
    pub naming: Naming,
    pub gates: Gates,
    pub recipients: Recipients,
    /// Ended ones included.
    pub permissions: Permissions,
}

/// What a shelf looks up in its rows. Standings and facts are made of these, in the same way over each shelf. Each
/// look-up returns its function of the content and changes nothing. It fails with `NoMemory` if the memory doesn't
/// suffice, and with `Failed` if the store failed.
pub trait LookUps {
    // the four members of a shelf, with the same meaning
    ghost has: { Self → State → Type 0 };

    ghost doubts: { Self → ℕ };

    ghost failed: { Self → ℕ };

    ghost may_remain: { Self → Option State → Type 0 };

    /// Whether the count of failures is at its last value. Each look-up fails from then on.
    fn has_ended(&self) -> bool
        ensures { result ≡ (failed self.now == last_count) };

    /// The directory's facts of one of its commands.
    fn circle_facts(
        &mut self,
        actor: &Person,
        command: &CircleCommand,
    ) -> Result<CircleFacts, ShelfFault>
        ensures { Reads has doubts failed may_remain self.old self.new (λ s found. found ≡
            directory_facts s.directory actor.now command.now) result };

    /// The person with this number, active or not.
    fn person_of(&mut self, number: u32) -> Result<Option<Person>, ShelfFault>
        ensures { Reads has doubts failed may_remain self.old self.new (λ s found. found ≡
            spec.person_of number s.directory) result };

    /// Whether there is a person with this number, active or not.
    fn has_person(&mut self, number: u32) -> Result<bool, ShelfFault>
        ensures { Reads has doubts failed may_remain self.old self.new (λ s found. found ≡
            is_person number s.directory) result };

    /// Whether there is an organisation with this number.
    fn has_org(&mut self, number: u32) -> Result<bool, ShelfFault>
        ensures { Reads has doubts failed may_remain self.old self.new (λ s found. found ≡
            is_org number s.directory) result };

    /// Whether there is a community with this number.
    fn has_community(&mut self, number: u32) -> Result<bool, ShelfFault>
        ensures { Reads has doubts failed may_remain self.old self.new (λ s found. found ≡
            is_community number s.directory) result };

    /// Whether an organisation is a member of a community.
    fn has_membership(&mut self, community: u32, org: u32) -> Result<bool, ShelfFault>
        ensures { Reads has doubts failed may_remain self.old self.new (λ s found. found ≡
            is_membership community org s.directory) result };

    /// Whether an organisation is a member of a group.
    fn has_group_member(&mut self, group: u32, org: u32) -> Result<bool, ShelfFault>
        ensures { Reads has doubts failed may_remain self.old self.new (λ s found. found ≡
            is_group_member group org s.directory) result };

    /// The person with this number, active or suspended, with its part of a standing. None if it is missing.
    fn reader_of(&mut self, person: u32) -> Result<Option<Reader>, ShelfFault>
        ensures { Reads has doubts failed may_remain self.old self.new (λ s found. found ≡
            reader_of person s) result };

    /// How an organisation stands to a source, and to a community if one is named.
    fn ties_of(&mut self, org: u32, source: u32, named: Option<u32>) -> Result<Ties, ShelfFault>
        ensures { Reads has doubts failed may_remain self.old self.new (λ s found. found ≡
            ties_of org source named s) result };

    /// The naming and the recipients of an incident. None if it is missing.
    fn sharing_of(&mut self, incident: u32) -> Result<Option<Shared>, ShelfFault>
        ensures { Reads has doubts failed may_remain self.old self.new (λ s found. found ≡
            sharing_of incident s) result };

    /// How many incidents there are.
    fn incident_count(&mut self) -> Result<u32, ShelfFault>
        ensures { Reads has doubts failed may_remain self.old self.new (λ s found. found ≡
            length s.incidents) result };

    /// The naming of an incident: all that it is known by, without its document. None if it is missing.
    fn naming(&mut self, incident: u32) -> Result<Option<Naming>, ShelfFault>
        ensures { Reads has doubts failed may_remain self.old self.new (λ s found. found ≡
            naming_of incident s) result };

    /// The document of an incident. None if it is missing.
    fn stored_document(&mut self, incident: u32) -> Result<Option<Document>, ShelfFault>
        ensures { Reads has doubts failed may_remain self.old self.new (λ s found. found ≡
            document_of incident s) result };

    /// The number of the incident that a source has posted under an ident.
    fn number_of(&mut self, source: u32, ident: &Text) -> Result<Option<u32>, ShelfFault>
        ensures { Reads has doubts failed may_remain self.old self.new (λ s found. found ≡
            option_map incident_number (incident_named source ident.now s)) result };

    /// The gates of an incident.
    fn gates_of(&mut self, incident: u32) -> Result<Gates, ShelfFault>
        ensures { Reads has doubts failed may_remain self.old self.new (λ s found. found ≡
            its_gates incident s.gates) result };

    /// The recipients of an incident.
    fn recipients_of(&mut self, incident: u32) -> Result<Recipients, ShelfFault>
        ensures { Reads has doubts failed may_remain self.old self.new (λ s found. found ≡
            its_recipients incident s.recipients) result };

    /// The permissions of an incident.
    fn permissions_of(&mut self, incident: u32) -> Result<Permissions, ShelfFault>
        ensures { Reads has doubts failed may_remain self.old self.new (λ s found. found ≡
            its_permissions incident s.permissions) result };

    // What a shelf has is sound, so the counts of an incident's rows fit their types.
    ghost sound: { (self : Self) (s : State) → has self s → IsSound s };
}
