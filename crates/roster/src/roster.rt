//! A roster: for each group no document or one.
ghost use Rattle.std.specs.Prelude.{◌≡◌, ℕ, ◌≤◌, true, List, [], length, is_some, None, Option, MatchResult};
ghost use Rattle.mcptt.specs.declared.refusal.Refusal.TheVariants.{RosterFull};
ghost use Rattle.roster.specs.Meaning.{among, apart, no_room, Replaced, members_in};
ghost use Rattle.sheet.specs.Contents.{Content, content};
ghost use Rattle.sheet.specs.Rules.{names};

use mcptt::{GroupId, McpttId, Refusal};
use sheet::GroupDocument;

/// The documents of groups. What a roster means is `held`, the document of each group, and `carried`,
/// the groups that have one: generic code knows a roster by these alone.
pub trait Roster: Sized {
    /// How many groups it can carry, from 1 to 16.
    const GROUPS: usize;

    // the same for clauses
    ghost GROUPS: { ℕ };

    // what the document of a group says, if the group has one
    ghost held: { Self → ℕ → Option Content };

    // the groups that have a document, in whatever order
    ghost carried: { Self → List ℕ };

    /// How many groups it can carry.
    fn room() -> usize
        ensures { result ≡ GROUPS };

    /// A roster without a document.
    fn empty() -> Self
        ensures held { (g : ℕ) → held result g ≡ None }
        ensures carried { carried result ≡ [] };

    /// Puts the document in place of the group's former one, if any. Refused with 21 if the group has
    /// none and the roster carries its full number; then all stays.
    fn replace(&mut self, document: &GroupDocument) -> Result<(), Refusal>
        ensures { MatchResult result
            (λ _. Replaced GROUPS (held self.old) (held self.new) (carried self.old)
            document.now.group.number (content document.now.document))
            (λ e. (no_room GROUPS (held self.old) (carried self.old) document.now.group.number ≡ true)
            × (e ≡ RosterFull) × (self.new ≡ self.old)) };

    /// Whether the group has a document.
    fn has_document(&self, group: GroupId) -> bool
        ensures { result ≡ is_some (held self.now group.number) };

    /// Whether the group has a document that names the user.
    fn names(&self, group: GroupId, user: McpttId) -> bool
        ensures { result ≡ names user.number (members_in (held self.now group.number)) };

    // from 1 to 16
    ghost few: { (1 ≤ GROUPS) × (GROUPS ≤ 16) };

    // no group is carried twice
    ghost different: { (s : Self) → apart (carried s) ≡ true };

    // a group is carried where it has a document
    ghost carries: { (s : Self) (g : ℕ) → is_some (held s g) ≡ among g (carried s) };

    // no more groups are carried than can be
    ghost within: { (s : Self) → length (carried s) ≤ GROUPS };
}
