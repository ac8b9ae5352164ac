//! Going through what a roster carries.
ghost use Rattle.roster.specs.Meaning.{as_groups, members_in, users_in};
ghost use Rattle.std.specs.List.{slice_get};
ghost use Rattle.std.specs.Prelude.{◌≡◌, length};

use crate::roster::Roster;
use mcptt::{GroupId, McpttId};

/// A roster whose groups and members can be gone through by their places, which are counted from 0.
pub trait Catalogue: Roster {
    /// How many groups have a document.
    fn carried_count(&self) -> usize
        ensures { result ≡ length (Self.Roster.carried self.now) };

    /// The group at a place among those that have a document, none past the last.
    fn group_at(&self, place: usize) -> Option<GroupId>
        ensures { result ≡ slice_get (as_groups (Self.Roster.carried self.now)) place };

    /// How many members the group's document has, 0 without a document.
    fn member_count(&self, group: GroupId) -> usize
        ensures { result ≡ length (members_in (Self.Roster.held self.now group.number)) };

    /// The user of the member at a place of the group's document, none past the last or without a document.
    fn member_at(&self, group: GroupId, place: usize) -> Option<McpttId>
        ensures { result ≡ slice_get (users_in (members_in (Self.Roster.held self.now group.number))) place };
}
