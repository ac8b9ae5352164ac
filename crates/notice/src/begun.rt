//! What names an implicit affiliation.
use mcptt::{ClientId, GroupId};

/// The radio and the group of an implicit affiliation, and the serial that BEGIN gave it.
#[derive(Clone, Copy, Debug, PartialEq, Eq)]
pub struct Begun {
    pub radio: ClientId,
    pub group: GroupId,
    pub serial: u32,
}
