//! The document of a talk group.
use mcptt::McpttId;

/// A member of a group, with the marks required, may join and may start.
#[derive(Clone, Copy, Debug, PartialEq, Eq)]
pub struct Member {
    pub user: McpttId,
    pub required: bool,
    pub may_join: bool,
    pub may_start: bool,
}

/// A group's document. Its members are the first `count` of the 64 places, in order; `limit` is the
/// participant limit. A value may break the rules of a document: see `keeps_rules`.
#[derive(Clone, Copy, Debug)]
pub struct Document {
    pub disabled: bool,
    pub invite_members: bool,
    pub limit: u8,
    pub members: [Member; 64],
    pub count: usize,
}
