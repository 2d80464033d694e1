//! The call that is measured, and how often it is made.

/// The calls that are measured.
#[derive(Clone, Copy, PartialEq, Eq)]
pub enum Call {
    /// The text of an excerpt.
    Text,
    Excerpt,
    Finds,
    /// An excerpt for a reader of the source.
    Source,
}

impl Call {
    /// Returns the call of this word.
    fn of(word: &str) -> Option<Call> {
        match word {
            "excerpt" => Some(Call::Excerpt),
            "finds" => Some(Call::Finds),
            "source" => Some(Call::Source),
            _ => None,
        }
    }
}

#[derive(Clone, Copy)]
pub struct Asked {
    pub turns: u32,
    pub call: Call,
    pub gates: u32,
    pub permissions: u32,
}

impl Asked {
    /// Returns what these words ask for.
    pub fn of(words: &[String]) -> Option<Asked> {
        match words {
            [turns] => Some(Asked {
                turns: turns.parse::<u32>().ok()?,
                call: Call::Text,
                gates: 0,
                permissions: 0,
            }),
            [turns, call, gates, permissions] => Some(Asked {
                turns: turns.parse::<u32>().ok()?,
                call: Call::of(call.as_str())?,
                gates: gates.parse::<u32>().ok()?,
                permissions: permissions.parse::<u32>().ok()?,
            }),
            _ => None,
        }
    }
}
