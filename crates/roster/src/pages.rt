//! Documents on pages, one to a group: the search, for any kind of page.
ghost use Rattle.std.specs.Prelude.{◌≡◌, ◌<◌, map, length, Some, None, MatchOption};
ghost use Rattle.roster.specs.Meaning.{as_groups};
ghost use Rattle.roster.specs.Pages.{groups_in, held_in, place_of};
ghost use Rattle.std.specs.List.{slice_get};

use crate::page::Page;
use mcptt::GroupId;

/// The place of the group's page, if there is one.
pub fn find<P: Page>(pages: &[P], group: GroupId) -> Option<usize>
    ensures { MatchOption result
        (place_of group.number (map P.Page.says pages.now) ≡ length pages.now)
        (λ i. (i < length pages.now)
        × (place_of group.number (map P.Page.says pages.now) ≡ i)) }
{
    pages.iter().position(|page| page.group() == group)
}

/// The group's page, if there is one.
pub fn page_of<P: Page>(pages: &[P], group: GroupId) -> Option<&P>
    ensures { MatchOption result
        (held_in (map P.Page.says pages.now) group.number ≡ None)
        (λ p. held_in (map P.Page.says pages.now) group.number
        ≡ Some (P.Page.says p.now).document) }
{
    pages.iter().find(|page| page.group() == group)
}

/// The group of the page at a place.
pub fn group_at<P: Page>(pages: &[P], place: usize) -> Option<GroupId>
    ensures { result ≡ slice_get (as_groups (groups_in (map P.Page.says pages.now))) place }
{
    pages.get(place).map(|page| page.group())
}
