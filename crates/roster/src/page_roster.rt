//! A roster on pages, for any kind of page and any number of them.
ghost use Rattle.std.specs.Prelude.{◌≡◌, true, ⊤, is_ok, MatchResult};
ghost use Rattle.mcptt.specs.declared.refusal.Refusal.TheVariants.{RosterFull};
ghost use Rattle.roster.specs.Filing.{carried_within, carries_held};
ghost use Rattle.roster.specs.Meaning.{apart, no_room, Replaced};
ghost use Rattle.roster.specs.Pages.{filed, groups_in, held_in, with_group};
ghost use Rattle.sheet.specs.Contents.{content};

use crate::catalogue::Catalogue;
use crate::page::{Page, Shelved};
use crate::pages::{find, group_at, page_of};
use crate::roster::Roster;
use mcptt::{GroupId, McpttId, Refusal};
use sheet::GroupDocument;
use std::alloc::AllocError;
use table::Slots;

/// A roster of `N` pages. Those in use are each for a group of its own.
pub struct PageRoster<P: Page, const N: usize> {
    pub(crate) pages: Slots<P, N>,
    ghost one_each: { apart (groups_in (filed P.Page.says pages)) ≡ true },
}

// A derive does not reach over the ghost field.
impl<P: Page, const N: usize> Clone for PageRoster<P, N> {
    ghost is_clone = { λ old new. new ≡ old };

    ghost is_infallible = { λ _. ⊤ };

    fn clone(&self) -> Result<PageRoster<P, N>, AllocError> {
        Ok(*self)
    }
}

impl<P: Page, const N: usize> Copy for PageRoster<P, N> {}

impl<P: Shelved<N>, const N: usize> Roster for PageRoster<P, N> {
    const GROUPS: usize = N;

    ghost GROUPS = { N };

    ghost held = { λ r. held_in (filed P.Page.says r.pages) };

    ghost carried = { λ r. groups_in (filed P.Page.says r.pages) };

    ghost few = { P.Shelved.few };

    ghost different = { λ r. r.one_each };

    ghost carries = { λ r g. carries_held (filed P.Page.says r.pages) g };

    ghost within = { λ r. carried_within P.Page.says r.pages.places r.pages.count N r.pages.within };

    // Written in the trait, it would have to show that every roster fits in memory.
    fn room() -> usize {
        Self::GROUPS
    }

    fn empty() -> PageRoster<P, N> {
        PageRoster {
            pages: Slots::empty(P::unused()),
        }
    }

    // More than the trait asks: the groups stay in their order, and a new one stands behind them.
    fn replace(&mut self, document: &GroupDocument) -> Result<(), Refusal>
        ensures answer { let was = filed P.Page.says self.old.pages in
            let is = filed P.Page.says self.new.pages in
            MatchResult result
            (λ _. Replaced N (held_in was) (held_in is) (groups_in was)
            document.now.group.number (content document.now.document))
            (λ e. (no_room N (held_in was) (groups_in was) document.now.group.number ≡ true)
            × (e ≡ RosterFull) × (self.new ≡ self.old)) }
        ensures order { is_ok result ≡ true
            → groups_in (filed P.Page.says self.new.pages)
            ≡ with_group (groups_in (filed P.Page.says self.old.pages)) document.now.group.number }
    {
        match find(self.pages.as_slice(), document.group) {
            Some(place) => self.pages.places[place] = P::of(document),
            None if self.pages.len() < Self::GROUPS => self.pages.push(P::of(document)),
            None => return Err(Refusal::RosterFull),
        }
        Ok(())
    }

    fn has_document(&self, group: GroupId) -> bool {
        page_of(self.pages.as_slice(), group).is_some()
    }

    fn names(&self, group: GroupId, user: McpttId) -> bool {
        page_of(self.pages.as_slice(), group).is_some_and(|page| page.names(user))
    }
}

impl<P: Shelved<N>, const N: usize> Catalogue for PageRoster<P, N> {
    fn carried_count(&self) -> usize {
        self.pages.len()
    }

    fn group_at(&self, place: usize) -> Option<GroupId> {
        group_at(self.pages.as_slice(), place)
    }

    fn member_count(&self, group: GroupId) -> usize {
        page_of(self.pages.as_slice(), group).map_or(0, |page| page.member_count())
    }

    fn member_at(&self, group: GroupId, place: usize) -> Option<McpttId> {
        page_of(self.pages.as_slice(), group).and_then(|page| page.member_at(place))
    }
}
