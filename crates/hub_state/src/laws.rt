//! The value of each limit.
ghost use Rattle.std.specs.Prelude.{◌≡◌};
ghost use Rattle.hub_state.specs.declared.TheConstants.{INCIDENT_LIMIT, REVISION_LIMIT, GATE_LIMIT, RECIPIENT_LIMIT, PERMISSION_LIMIT, WORD_LIMIT};

/// The limits: 1,000,000 incidents. Of an incident 1,000,000 revisions, 16 gates at its classes, 64 recipients and 64
/// permissions. 256 bytes of a word to search for.
pub fn limits_of_the_hub()
    ensures incidents { INCIDENT_LIMIT ≡ 1000000 }
    ensures revisions { REVISION_LIMIT ≡ 1000000 }
    ensures gates { GATE_LIMIT ≡ 16 }
    ensures recipients { RECIPIENT_LIMIT ≡ 64 }
    ensures permissions { PERMISSION_LIMIT ≡ 64 }
    ensures words { WORD_LIMIT ≡ 256 }
{}
