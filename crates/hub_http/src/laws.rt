//! Laws of the definitions, each the contract of a function that does nothing.
ghost use Rattle.hub_http.specs.Laws.{HasOneAnswer, AnswersStand};
ghost use Rattle.hub_http.specs.declared.TheConstants.{HEAD_LIMIT, FIELD_LIMIT, BODY_LIMIT, KEY_LIMIT};
ghost use Rattle.std.specs.Prelude.{◌≡◌};

/// Bytes ask one thing or have one first fault. Only if they end inside a target that no bytes can make whole, two
/// faults are right.
pub fn one_answer()
    ensures { HasOneAnswer }
{}

/// What bytes ask, or a fault of theirs that isn't Truncated, is the same whatever bytes follow.
pub fn answers_stand()
    ensures { AnswersStand }
{}

/// The limits of the wire: how many bytes and fields a head may have, and how many bytes a body and a key.
pub fn limits_of_the_wire()
    ensures head { HEAD_LIMIT ≡ 8192 }
    ensures fields { FIELD_LIMIT ≡ 64 }
    ensures body { BODY_LIMIT ≡ 262144 }
    ensures key { KEY_LIMIT ≡ 128 }
{}
