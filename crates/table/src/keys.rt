//! The identities that records are kept by.
use crate::records::Key;
use mcptt::{GroupId, McpttId};

impl Key for GroupId {
    ghost number = { λ g. g.number };

    fn same(&self, group: &GroupId) -> bool {
        self.number == group.number
    }
}

impl Key for McpttId {
    ghost number = { λ u. u.number };

    fn same(&self, user: &McpttId) -> bool {
        self.number == user.number
    }
}
