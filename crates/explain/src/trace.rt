//! An explanation: the verdict with all that it rests on.
use iodef_tree::Path;
use marking::Handling;
use policy::{Gate, Permission, Rule, Verdict};

/// Why a reader sees a class or doesn't.
#[derive(Drop)]
pub struct Trace {
    /// The verdict of the class.
    pub verdict: Verdict,
    /// The path of the class.
    pub path: Path,
    /// The community that the incident names, if it names one.
    pub community: Option<u32>,
    /// Every gate at a prefix of the path, with the rule by which it refuses the reader, if it refuses. The shortest
    /// path comes first; gates with equal paths are in the order of the case.
    pub gates: Vec<(Gate, Option<Rule>)>,
    /// The class or root whose label holds at the path.
    pub site: Path,
    /// That label: the value of `restriction`; for an extended one followed by a space and its text.
    pub label: String,
    /// How the reader is to handle a class with that label.
    pub handling: Handling,
    /// The clearance of the reader, and the rule that clears it.
    pub clearance: (Handling, Rule),
    /// Every permission that covers the class for the reader, in the order of the case.
    pub permissions: Vec<Permission>,
}
