//! The codes of refusals, for the whole product, and a refusal with its detail.
ghost use Rattle.std.specs.Prelude.{◌≡◌, ◌⊎◌};
ghost use Rattle.circle.specs.Codes.{name_of, reason_of, status_of};
ghost use Rattle.circle.specs.Outcomes.{no_memory, bare};

use crate::text::Text;
use std::alloc::Global;
use thiserror::Error;

/// Why a request was not done, in the order in which the grounds are asked. `F1` and `F2` may come in place of any
/// other answer.
#[derive(Clone, Copy, Debug, PartialEq, Eq)]
pub enum Code {
    /// The key is unknown, or its person is suspended.
    K1,
    /// The actor's role doesn't allow the request.
    W1,
    /// An argument is bad. The detail names it.
    B1,
    /// There is no such incident for the actor.
    N1,
    /// There is no such organisation, person, community or group.
    N2,
    /// The actor may not extend or change the group.
    W2,
    /// The actor may not nominate the person.
    W3,
    /// There is no such class.
    N3,
    /// It is so already: the row, name, key or flag is there.
    S1,
    /// It is not so: there is nothing to take back.
    S2,
    /// The incident has another revision.
    S3,
    /// A limit would be passed.
    L1,
    /// The store failed.
    F1,
    /// Memory ran out.
    F2,
}

impl Code {
    /// Returns the code's name, as replies show it.
    pub fn name(self) -> &'static str
        ensures { result.now ≡ name_of self }
    {
        match self {
            Code::K1 => "K1",
            Code::W1 => "W1",
            Code::B1 => "B1",
            Code::N1 => "N1",
            Code::N2 => "N2",
            Code::W2 => "W2",
            Code::W3 => "W3",
            Code::N3 => "N3",
            Code::S1 => "S1",
            Code::S2 => "S2",
            Code::S3 => "S3",
            Code::L1 => "L1",
            Code::F1 => "F1",
            Code::F2 => "F2",
        }
    }

    /// Returns the HTTP status of the reply (RFC 9110 section 15).
    pub fn status(self) -> u16
        ensures { result ≡ status_of self }
    {
        match self {
            Code::K1 => 401,
            Code::W1 | Code::W2 | Code::W3 => 403,
            Code::B1 => 422,
            Code::N1 | Code::N2 | Code::N3 => 404,
            Code::S1 | Code::S2 | Code::S3 | Code::L1 => 409,
            Code::F1 | Code::F2 => 503,
        }
    }

    /// Returns the reason in words, as replies show it.
    pub fn reason(self) -> &'static str
        ensures { result.now ≡ reason_of self }
    {
        match self {
            Code::K1 => "unknown or suspended key",
            Code::W1 => "role does not allow it",
            Code::B1 => "bad argument",
            Code::N1 => "no such incident for you",
            Code::N2 => "no such organisation, person, community or group",
            Code::W2 => "group not yours to extend or change",
            Code::W3 => "person not yours to nominate",
            Code::N3 => "no such class",
            Code::S1 => "already so",
            Code::S2 => "not so",
            Code::S3 => "other revision",
            Code::L1 => "limit",
            Code::F1 => "store failed",
            Code::F2 => "no memory",
        }
    }
}

/// A refusal. A refusal of a directory's command has a detail only for `B1`.
#[derive(Debug, Drop, Error)]
#[error("{reason}", reason = .code.reason())]
pub struct Refusal {
    /// The code.
    pub code: Code,
    /// The field of a bad argument, or what else the code has to say.
    pub detail: Text,
}

impl Refusal {
    /// Returns a refusal without a detail. Allocates nothing.
    pub fn bare(alloc: Global, code: Code) -> Refusal
        ensures { result ≡ bare code }
    {
        Refusal {
            code,
            detail: Text::new(String::new(alloc)),
        }
    }

    /// Returns a refusal with this detail, or `F2` if memory runs out.
    pub fn new(alloc: Global, code: Code, detail: &str) -> Refusal
        ensures { (result ≡ record { code = code; detail = detail.now }) ⊎ (result ≡ no_memory) }
    {
        match Text::of(alloc, detail) {
            Ok(detail) => Refusal { code, detail },
            Err(_) => Refusal::bare(alloc, Code::F2),
        }
    }
}
