//! One radio's affiliation to one group.
use mcptt::GroupId;

/// How an affiliation stands.
#[derive(Clone, Copy, Debug, PartialEq, Eq)]
pub enum Status {
    Affiliating,
    Affiliated,
    Deaffiliating,
    Deaffiliated,
}

/// The affiliation of a radio to a group, until its end time in seconds. The serial is that of the
/// request, or of the implicit affiliation, by which it was last made affiliating.
#[derive(Clone, Copy, Debug, PartialEq, Eq)]
pub struct Entry {
    pub group: GroupId,
    pub status: Status,
    pub end: u64,
    pub serial: u32,
}
