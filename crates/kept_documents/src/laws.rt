//! The limit of a hub that serves: the contract of a function that does nothing.

ghost use Rattle.std.specs.Prelude.{◌≡◌};
ghost use Rattle.kept_documents.specs.declared.TheConstants.{MOST_WEIGHT};

/// The kept documents of a hub that serves weigh at most 64 MiB together.
pub fn limits_of_keeping()
    ensures { MOST_WEIGHT ≡ 67108864 }
{}
