//! The rules that show and hide classes, with their names.
ghost use Rattle.std.specs.Prelude.{◌≡◌};

/// The rule by which a class is shown, a gate refuses, or a class is hidden.
#[derive(Clone, Copy)]
pub enum Rule {
    /// The reader is of the source.
    Src,
    /// The reader is an addressed person.
    P,
    /// The reader is nominated and its organisation is addressed.
    O,
    /// The reader is nominated and its organisation is a client of the source or of an addressed organisation.
    C,
    /// The reader's organisation is in the community that the incident names, or shares one with the source if it
    /// names none.
    M,
    /// Anybody.
    A,
    /// A permission of the source covers the class.
    X,
    /// A gate that lets only the source pass.
    G0,
    /// A gate that lets the source's communities pass.
    G1,
    /// A gate that lets the source's communities and those connected to them pass.
    G2,
    /// A gate for a group of which the reader's organisation isn't a member.
    G4,
    /// A gate for a group that isn't active.
    G4X,
    /// The class is handled as GREEN.
    HGreen,
    /// The class is handled as AMBER.
    HAmber,
    /// The class is handled as STRICT.
    HStrict,
    /// The class is handled as RED.
    HRed,
}

impl Rule {
    ghost use Rattle.policy.specs.Rule.{name_of};

    /// Returns the rule's name, as replies and explanations write it.
    pub fn name(self) -> &'static str
        ensures { result.now ≡ name_of self }
    {
        match self {
            Rule::Src => "SRC",
            Rule::P => "P",
            Rule::O => "O",
            Rule::C => "C",
            Rule::M => "M",
            Rule::A => "A",
            Rule::X => "X",
            Rule::G0 => "G0",
            Rule::G1 => "G1",
            Rule::G2 => "G2",
            Rule::G4 => "G4",
            Rule::G4X => "G4X",
            Rule::HGreen => "H-GREEN",
            Rule::HAmber => "H-AMBER",
            Rule::HStrict => "H-STRICT",
            Rule::HRed => "H-RED",
        }
    }
}
