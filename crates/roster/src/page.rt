//! A page: the place of one group's document, in whatever form it is kept.
ghost use Rattle.roster.specs.Meaning.{users_in};
ghost use Rattle.roster.specs.Pages.{Filed, filed_as};
ghost use Rattle.sheet.specs.Rules.{names};
ghost use Rattle.std.specs.List.{slice_get};
ghost use Rattle.std.specs.Prelude.{◌≡◌, ◌≤◌, length};

use mcptt::{GroupId, McpttId};
use sheet::GroupDocument;

/// A page means the group and the document that it says.
pub trait Page: Copy {
    ghost says: { Self → Filed };

    /// The page of a group and its document.
    fn of(document: &GroupDocument) -> Self
        ensures { says result ≡ filed_as document.now };

    /// A page that is not in use.
    fn unused() -> Self;

    /// The group of the page.
    fn group(&self) -> GroupId
        ensures { result.number ≡ (says self.now).group };

    /// Whether the document names the user.
    fn names(&self, user: McpttId) -> bool
        ensures { result ≡ names user.number (says self.now).document.members };

    /// How many members the document has.
    fn member_count(&self) -> usize
        ensures { result ≡ length (says self.now).document.members };

    /// The user of the member at a place, counted from 0.
    fn member_at(&self, place: usize) -> Option<McpttId>
        ensures { result ≡ slice_get (users_in (says self.now).document.members) place };
}

/// Pages of which a roster has `N`, from 1 to 16.
pub trait Shelved<const N: usize>: Page {
    ghost few: { (1 ≤ N) × (N ≤ 16) };
}
