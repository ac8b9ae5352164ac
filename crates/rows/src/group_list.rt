//! A short list of groups.
use mcptt::GroupId;
use table::Slots;

/// Some groups, in order. There is a place for each entry of four rows.
#[derive(Clone, Copy)]
pub struct Groups {
    pub groups: Slots<GroupId, 96>,
}
