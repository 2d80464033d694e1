//! Labels and handlings, and their tables.
use std::alloc::{AllocError, Global};

/// How a class with a label is to be handled, from the widest audience (FIRST TLP 2.0).
#[derive(Clone, Copy, PartialEq, Eq, PartialOrd, Ord)]
pub enum Handling {
    /// For everybody.
    Clear,
    /// For the community.
    Green,
    /// For the recipient's organisation and its clients.
    Amber,
    /// For the recipient's organisation.
    Strict,
    /// For the recipient.
    Red,
}

/// A label as the `restriction` of a class spells it (RFC 7970 section 3.3.1); an extended one has the text of
/// `ext-restriction` (section 5.1.1).
#[derive(Clone, Copy)]
pub enum Label<'a> {
    Public,
    White,
    Partner,
    Green,
    NeedToKnow,
    Amber,
    Private,
    Red,
    Default,
    Ext(&'a str),
}

impl Handling {
    ghost use Rattle.std.specs.Prelude.{◌≡◌};
    ghost use Rattle.marking.specs.Label.{name_of, is_at_most};

    /// Returns whether this handling is no stricter than the other: CLEAR, GREEN, AMBER, STRICT, RED.
    pub fn is_at_most(self, other: Handling) -> bool
        ensures { result ≡ is_at_most self other }
    {
        // The derived order. The law `handlings_ascend` says that it is that of the names.
        self <= other
    }

    /// Returns the handling's name in capital letters.
    pub fn name(self) -> &'static str
        ensures { result.now ≡ name_of self }
    {
        match self {
            Handling::Clear => "CLEAR",
            Handling::Green => "GREEN",
            Handling::Amber => "AMBER",
            Handling::Strict => "STRICT",
            Handling::Red => "RED",
        }
    }
}

impl<'a> Label<'a> {
    ghost use Rattle.std.specs.Prelude.{◌≡◌, option_map, IfOk, string_bytes};
    ghost use Rattle.marking.specs.Label.{marking_of, spelled, handling_of, restriction_of, text_of};

    /// Returns the label that a text in `restriction` spells, with the text in `ext-restriction` beside it, if there
    /// is one (RFC 7970 sections 3.3.1 and 5.1.1). `ext-value` spells a label only with such a text; beside another
    /// value that text has no effect. Texts are compared byte for byte.
    pub fn of(restriction: &str, ext: Option<&'a str>) -> Option<Label<'a>>
        ensures { option_map marking_of result ≡
            spelled restriction.now (option_map (λ t. t.now) ext.entry) }
    {
        match restriction {
            "public" => Some(Label::Public),
            "white" => Some(Label::White),
            "partner" => Some(Label::Partner),
            "green" => Some(Label::Green),
            "need-to-know" => Some(Label::NeedToKnow),
            "amber" => Some(Label::Amber),
            "private" => Some(Label::Private),
            "red" => Some(Label::Red),
            "default" => Some(Label::Default),
            "ext-value" => match ext {
                Some(text) => Some(Label::Ext(text)),
                None => None,
            },
            _ => None,
        }
    }

    /// Returns the value of `restriction`. Allocates nothing.
    pub fn restriction(&self) -> &'static str
        ensures { result.now ≡ restriction_of (marking_of self.now) }
    {
        match self {
            Label::Public => "public",
            Label::White => "white",
            Label::Partner => "partner",
            Label::Green => "green",
            Label::NeedToKnow => "need-to-know",
            Label::Amber => "amber",
            Label::Private => "private",
            Label::Red => "red",
            Label::Default => "default",
            Label::Ext(_) => "ext-value",
        }
    }

    /// Returns the value of `restriction`; for an extended label followed by a space and its text. Fails if memory
    /// runs out.
    pub fn text(&self, alloc: Global) -> Result<String, AllocError>
        ensures { IfOk result (λ s. string_bytes s ≡ text_of (marking_of self.now)) }
    {
        match self {
            Label::Ext(text) => format!(in alloc; "ext-value {text}"),
            Label::Public | Label::White | Label::Partner | Label::Green | Label::NeedToKnow => {
                String::from_str(alloc, self.restriction())
            }
            Label::Amber | Label::Private | Label::Red | Label::Default => {
                String::from_str(alloc, self.restriction())
            }
        }
    }

    /// Returns how the label is to be handled. `arranged` is what the source arranged with the reader's organisation,
    /// if anything.
    ///
    /// `default` is RED if nothing is arranged, and an extended text is RED if it is no TLP label.
    pub fn handling(&self, arranged: Option<Handling>) -> Handling
        ensures { result ≡ handling_of (marking_of self.now) arranged }
    {
        match self {
            Label::Public | Label::White => Handling::Clear,
            Label::Partner | Label::Green => Handling::Green,
            Label::NeedToKnow | Label::Amber => Handling::Strict,
            Label::Private | Label::Red => Handling::Red,
            Label::Default => arranged.unwrap_or(Handling::Red),
            Label::Ext(text) => handling_of_text(text),
        }
    }
}

ghost use Rattle.std.specs.Prelude.{◌≡◌};
ghost use Rattle.marking.specs.Label as spec;

/// Returns the handling of an extended text: a label of TLP 2.0 or TLP:WHITE, but for the case of ASCII letters, else
/// RED.
fn handling_of_text(text: &str) -> Handling
    ensures { result ≡ spec.handling_of_text text.now }
{
    if text.eq_ignore_ascii_case("TLP:CLEAR") || text.eq_ignore_ascii_case("TLP:WHITE") {
        return Handling::Clear;
    }
    if text.eq_ignore_ascii_case("TLP:GREEN") {
        return Handling::Green;
    }
    if text.eq_ignore_ascii_case("TLP:AMBER") {
        return Handling::Amber;
    }
    if text.eq_ignore_ascii_case("TLP:AMBER+STRICT") {
        return Handling::Strict;
    }
    Handling::Red
}
