//! What a comparison of a site's radio list with its group sheets finds.
use mcptt::McpttId;

/// The one side that names a user.
#[derive(Clone, Copy, Debug, PartialEq, Eq, PartialOrd, Ord)]
pub enum Side {
    RadioList,
    Sheets,
}

/// A user whom one side names and the other does not. Differences come by user.
#[derive(Clone, Copy, Debug, PartialEq, Eq, PartialOrd, Ord)]
pub struct Difference {
    pub user: McpttId,
    pub side: Side,
}
