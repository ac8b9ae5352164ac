//! What goes out to the owner of a group.
use mcptt::{GroupId, McpttId};

/// A request: the user and the serial are its p-id; `radios` is the set of the user's radios that
/// hold the group (bit 0 is radio 1); `expires` is 4,294,967,295, or 0 where no radio holds it.
#[derive(Clone, Copy, Debug, PartialEq, Eq)]
pub struct Request {
    pub user: McpttId,
    pub group: GroupId,
    pub serial: u32,
    pub radios: u8,
    pub expires: u32,
}
