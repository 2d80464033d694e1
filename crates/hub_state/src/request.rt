//! The requests. Pointers are texts and documents are bytes, as they came: judging them finds out whether they can be
//! read.
ghost use Rattle.std.specs.Prelude.{◌≡◌};

use crate::bytes::Bytes;
use circle::command::CircleCommand;
use circle::text::Text;
use policy::Grantee;
use std::marker::Model;

/// A gate as a request asks for it.
#[derive(Drop)]
pub struct WantedGate {
    pub level: u32,
    pub group: Option<u32>,
    /// A JSON pointer (RFC 6901).
    pub path: Text,
}

/// Gates as a request asks for them. Contracts see a list.
#[derive(Drop)]
pub struct WantedGates {
    gates: Vec<WantedGate>,
}

impl Model for WantedGates {
    ghost use Rattle.std.specs.Prelude.{List};
    ghost use Rattle.hub_state.specs.declared.request.WantedGate.{WantedGate};

    ghost Value = { List WantedGate };

    ghost view = { λ g. g.gates.items };
}

impl WantedGates {
    /// Makes it of a vector. Takes no memory.
    pub fn new(gates: Vec<WantedGate>) -> WantedGates
        ensures { result ≡ gates.items }
    {
        WantedGates { gates }
    }

    /// Returns the gates.
    pub fn as_slice(&self) -> &[WantedGate]
        ensures { result.now ≡ self.now }
    {
        self.gates.as_slice()
    }
}

/// A recipient: a person or an organisation, by number.
#[derive(Clone, Copy, Debug, PartialEq, Eq)]
pub enum Target {
    Person(u32),
    Org(u32),
}

/// How far an incident reaches: the community that it names, the gate at its root, and the gates at its classes.
#[derive(Drop)]
pub struct Distribution {
    /// The community that TLP:GREEN means. If none is named, it means all communities of the source.
    pub community: Option<u32>,
    pub level: u32,
    /// The group of level 4.
    pub group: Option<u32>,
    pub gates: WantedGates,
}

/// New incidents, one for each Incident of the document; the distribution is that of each.
#[derive(Drop)]
pub struct Post {
    pub distribution: Distribution,
    pub document: Bytes,
}

/// Exchanges the document of an incident, with another distribution; takes its permissions out.
#[derive(Drop)]
pub struct Replace {
    pub incident: u32,
    pub revision: u32,
    pub distribution: Distribution,
    pub document: Bytes,
}

/// Puts a gate at the root or at a class.
#[derive(Drop)]
pub struct Redistribute {
    pub incident: u32,
    pub revision: u32,
    /// A JSON pointer (RFC 6901), as in all requests.
    pub path: Text,
    pub level: u32,
    pub group: Option<u32>,
}

/// Puts a recipient.
#[derive(Drop)]
pub struct Address {
    pub incident: u32,
    pub target: Target,
}

/// Takes a recipient out.
#[derive(Drop)]
pub struct Unaddress {
    pub incident: u32,
    pub target: Target,
}

/// Puts a permission at a class, in place of one for the same grantee with another end.
#[derive(Drop)]
pub struct Grant {
    pub incident: u32,
    pub revision: u32,
    pub path: Text,
    pub grantee: Grantee,
    /// When it ends, in seconds since the beginning of 1970 (UTC); it may be past. None if it never ends.
    pub until: Option<i64>,
}

/// Takes a permission out, ended or not.
#[derive(Drop)]
pub struct Withdraw {
    pub incident: u32,
    pub path: Text,
    pub grantee: Grantee,
}

/// An administrator asks why a person sees a class of an incident, or doesn't.
#[derive(Drop)]
pub struct Explain {
    pub person: u32,
    pub incident: u32,
    pub path: Text,
}

/// Lists the incidents above a number in which a text is found, in classes of one name if that is given.
#[derive(Drop)]
pub struct Search {
    pub needle: Text,
    pub class: Option<Text>,
    pub after: u32,
}

/// What a caller may ask of the hub.
#[derive(Drop)]
pub enum Request {
    /// A change of the directory, by an administrator or a coordinator.
    Circle(CircleCommand),
    Post(Post),
    Replace(Replace),
    Redistribute(Redistribute),
    Address(Address),
    Unaddress(Unaddress),
    Grant(Grant),
    Withdraw(Withdraw),
    View { incident: u32 },
    /// How an incident of the caller's organisation is shared.
    Sharing { incident: u32 },
    Explain(Explain),
    List { after: u32 },
    Search(Search),
    Addressed { after: u32 },
    MyGroups,
    MyCommunities,
    WhoAmI,
}
