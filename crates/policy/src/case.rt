//! The facts by which an incident is judged.
use crate::gate::Gates;
use crate::permission::Permissions;

/// The facts by which an incident is judged, besides its document: its source, the community that it names, its gates
/// and its permissions.
#[derive(Drop)]
pub struct Case {
    /// The number of the organisation that posted the incident. [`decide`](crate::decide) doesn't read it: whether the
    /// reader is of the source is in the standing.
    pub source: u32,
    /// The community that the incident names, if it names one.
    pub community: Option<u32>,
    /// The gates, of which one is at the root.
    pub gates: Gates,
    /// The permissions, ended ones too.
    pub permissions: Permissions,
}
