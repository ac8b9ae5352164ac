//! Which of the wanted groups are kept.
ghost use Rattle.std.specs.Prelude.{◌≡◌, ◌≤◌, not, ◌&&◌, length, nat_le};
ghost use Rattle.rows.specs.Lists.{listed, member};
ghost use Rattle.change.specs.Keeping.{ahead_of, is_kept, kept_of, proper, may_want};

use mcptt::{GroupId, ServedUser};
use preference::Preference;
use rows::{Groups, is_among};

fn is_new(group: GroupId, rest: &[GroupId]) -> bool
    ensures { result ≡ (nat_le 1 group.number && not (member group.number rest.now)) }
{
    group.number >= 1 && !is_among(rest, group)
}

fn is_proper(wanted: &[GroupId]) -> bool
    ensures { result ≡ proper wanted.now }
{
    let mut rest = wanted;
    while let Some((first, behind)) = rest.split_first() {
        if !is_new(*first, behind) {
            return false;
        }
        rest = behind;
    }
    true
}

/// Whether there are at most 16 groups, none 0 and none twice.
pub(crate) fn may_want(wanted: &[GroupId]) -> bool
    ensures { result ≡ may_want wanted.now }
{
    wanted.len() <= 16 && is_proper(wanted)
}

/// The groups that a user's radio wants, beside those that the user's other radios hold.
#[derive(Drop)]
pub(crate) struct Choice<'a, P> {
    pub(crate) preference: &'a P,
    pub(crate) user: ServedUser,
    pub(crate) limit: u32,
    pub(crate) others: &'a Groups,
    pub(crate) wanted: &'a [GroupId],
    ghost few: { others.now.groups.count ≤ 72 },
    ghost short: { length wanted.now ≤ 16 },
}

impl<'a, P: Preference> Choice<'a, P> {
    /// How many different groups the other radios hold, together with the wanted ones before this one.
    fn ahead_of(&self, group: GroupId) -> usize
        ensures { result ≡ ahead_of (P.before self.now.preference.now self.now.user.number) (listed self.now.others.now) self.now.wanted.now group.number }
    {
        let mut ahead = *self.others;
        for wanted in self.wanted {
            if self.preference.comes_before(self.user, *wanted, group) {
                ahead.note(*wanted);
            }
        }
        ahead.len()
    }

    fn keeps(&self, group: GroupId) -> bool
        ensures { result ≡ is_kept (P.before self.now.preference.now self.now.user.number) (listed self.now.others.now) self.now.limit self.now.wanted.now group }
    {
        self.others.has(group) || self.ahead_of(group) < self.limit as usize
    }

    /// The wanted groups that are kept, in the order in which they are wanted.
    pub(crate) fn kept(&self) -> Groups
        ensures count { result.groups.count ≤ length self.now.wanted.now }
        ensures listed { listed result ≡ kept_of (P.before self.now.preference.now self.now.user.number) (listed self.now.others.now) self.now.limit self.now.wanted.now }
    {
        let mut kept = Groups::new();
        kept.groups
            .add_each(self.wanted, |group| self.keeps(*group).then_some(*group));
        kept
    }
}
