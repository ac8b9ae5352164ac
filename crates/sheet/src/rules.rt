//! The rules of a document, tested.
ghost use Rattle.std.specs.Prelude.{◌≡◌, true, false, MatchResult};
ghost use Rattle.mcptt.specs.declared.refusal.Refusal.TheVariants.{ContentFaulty};
ghost use Rattle.sheet.specs.Contents.{content};
ghost use Rattle.sheet.specs.Rules.{names, different, required_of, lawful};

use crate::document::{Document, Member};
use crate::group_document::GroupDocument;
use mcptt::{GroupId, McpttId, Refusal};

/// Whether some member is this user.
fn is_named(members: &[Member], user: McpttId) -> bool
    ensures { result ≡ names user.number members.now }
{
    members.iter().any(|member| member.user == user)
}

/// Whether the members are different users, none of them 0.
fn are_different(members: &[Member]) -> bool
    ensures { result ≡ different members.now }
{
    for (i, member) in members.iter().enumerate() {
        if member.user.number == 0 || is_named(&members[i + 1..], member.user) {
            return false;
        }
    }
    true
}

/// How many members are required.
fn required_in(members: &[Member]) -> usize
    ensures { result ≡ required_of members.now }
{
    members.iter().filter(|member| member.required).count()
}

impl Document {
    /// The members: of the 64 places those below the count.
    pub fn listed(&self) -> &[Member]
        ensures { result.now ≡ (content self.now).members }
    {
        &self.members[..self.count.min(64)]
    }

    /// Whether some member is this user.
    pub fn names(&self, user: McpttId) -> bool
        ensures { result ≡ names user.number (content self.now).members }
    {
        is_named(self.listed(), user)
    }

    /// Whether it keeps the rules of a document of this group.
    pub fn keeps_rules(&self, group: GroupId) -> bool
        ensures { result ≡ lawful group.number self.now }
    {
        group.number != 0
            && (1..=64).contains(&self.limit)
            && self.count <= 64
            && are_different(self.listed())
            && required_in(self.listed()) <= usize::from(self.limit)
    }
}

impl GroupDocument {
    /// The group with the document, or refusal 20 where they break the rules.
    pub fn of(group: GroupId, document: &Document) -> Result<GroupDocument, Refusal>
        ensures { MatchResult result
            (λ d. (d.group ≡ group) × (d.document ≡ document.now)
            × (lawful group.number document.now ≡ true))
            (λ e. (lawful group.number document.now ≡ false) × (e ≡ ContentFaulty)) }
    {
        if !document.keeps_rules(group) {
            return Err(Refusal::ContentFaulty);
        }
        Ok(GroupDocument {
            group,
            document: *document,
        })
    }
}
