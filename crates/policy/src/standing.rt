//! The standing of a reader: what the policy asks of it.
ghost use Rattle.std.specs.Prelude.{◌≡◌};
ghost use Rattle.policy.specs.Standing.{stranger};

use crate::numbers::Numbers;
use marking::Handling;
use std::alloc::Global;

/// What holds between a person, the reader, and an incident and its source, the organisation that posted it.
#[derive(Drop)]
pub struct Standing {
    /// The reader's organisation is the source.
    pub source: bool,
    /// The reader is a recipient.
    pub person: bool,
    /// A coordinator of its own organisation nominated the reader.
    pub nominated: bool,
    /// The reader's organisation is a recipient.
    pub addressed: bool,
    /// The reader's organisation is a client of the source or of an organisation that is a recipient.
    pub client: bool,
    /// The reader's organisation and the source are in one community.
    pub community: bool,
    /// The reader's organisation is a member of the community that the incident names; if it names none, the same as
    /// `community`.
    pub peer: bool,
    /// The reader's organisation is in a community that is connected to one of the source's.
    pub connected: bool,
    /// What the source arranged with the reader's organisation for the label `default`.
    pub arrangement: Option<Handling>,
    /// The number of the reader.
    pub who: u32,
    /// The number of the reader's organisation.
    pub org: u32,
    /// The groups of which the reader's organisation is a member.
    pub groups: Numbers,
    /// The groups that are active. One that isn't in `groups` counts for nothing.
    pub active_groups: Numbers,
    /// The communities of which the reader's organisation is a member.
    pub communities: Numbers,
    /// The moment, in seconds since the beginning of 1970 (UTC).
    pub now: i64,
}

impl Standing {
    /// Returns the standing of a reader, by its number and that of its organisation, of whom nothing else holds, at
    /// the beginning of 1970. Allocates nothing.
    pub fn stranger(alloc: Global, who: u32, org: u32) -> Standing
        ensures { result ≡ stranger who org }
    {
        Standing {
            source: false,
            person: false,
            nominated: false,
            addressed: false,
            client: false,
            community: false,
            peer: false,
            connected: false,
            arrangement: None,
            who,
            org,
            groups: Numbers::new(Vec::new(alloc)),
            active_groups: Numbers::new(Vec::new(alloc)),
            communities: Numbers::new(Vec::new(alloc)),
            now: 0,
        }
    }
}
