//! What a list of groups does.
ghost use Rattle.std.specs.Prelude.{◌≡◌, ◌+◌, ◌<◌, ◌≤◌, [], ◌∷◌, ◌++◌, length, if◌then◌else◌};
ghost use Rattle.rows.specs.Entries.{held};
ghost use Rattle.rows.specs.Holdings.{gathered};
ghost use Rattle.rows.specs.Lists.{member, noted, listed};

use crate::entry::Entry;
use crate::group_list::Groups;
use mcptt::GroupId;
use table::Slots;

/// Whether the group is one of these.
pub fn is_among(groups: &[GroupId], group: GroupId) -> bool
    ensures { result ≡ member group.number groups.now }
{
    groups.iter().any(|one| *one == group)
}

impl Groups {
    /// No group.
    pub fn new() -> Groups
        ensures count { result.groups.count ≡ 0 }
        ensures listed { listed result ≡ [] }
    {
        Groups {
            groups: Slots::empty(GroupId { number: 0 }),
        }
    }

    /// The groups, in order.
    pub fn as_slice(&self) -> &[GroupId]
        ensures listed { result.now ≡ listed self.now }
        ensures count { length result.now ≡ self.now.groups.count }
    {
        self.groups.as_slice()
    }

    /// How many there are.
    pub fn len(&self) -> usize
        ensures count { result ≡ self.now.groups.count }
        ensures len { result ≡ length (listed self.now) }
    {
        self.groups.len()
    }

    /// Whether the group is one of them.
    pub fn has(&self, group: GroupId) -> bool
        ensures { result ≡ member group.number (listed self.now) }
    {
        is_among(self.as_slice(), group)
    }

    /// Adds the group at the end, where there is room.
    pub fn push(&mut self, group: GroupId)
        requires { self.old.groups.count < 96 }
        ensures count { self.new.groups.count ≡ self.old.groups.count + 1 }
        ensures listed { listed self.new ≡ listed self.old ++ group ∷ [] }
    {
        self.groups.push(group);
    }

    /// Adds the group at the end, unless it is there.
    pub fn note(&mut self, group: GroupId)
        requires { self.old.groups.count < 96 }
        ensures count { self.new.groups.count ≤ self.old.groups.count + 1 }
        ensures listed { listed self.new ≡ noted (listed self.old) group }
    {
        if !self.has(group) {
            self.push(group);
        }
    }

    /// Adds the group of an entry that holds it, unless it is there.
    fn note_held(&mut self, entry: &Entry, time: u64)
        requires { self.old.groups.count < 96 }
        ensures count { self.new.groups.count ≤ self.old.groups.count + 1 }
        ensures listed { listed self.new ≡ (if held time entry.now then noted (listed self.old) entry.now.group else listed self.old) }
    {
        if entry.is_held(time) {
            self.note(entry.group);
        }
    }

    /// Adds the groups that these entries hold, each once.
    pub(crate) fn gather(&mut self, entries: &[Entry], time: u64)
        requires { self.old.groups.count + length entries.now ≤ 96 }
        ensures count { self.new.groups.count ≤ self.old.groups.count + length entries.now }
        ensures listed { listed self.new ≡ gathered time entries.now (listed self.old) }
    {
        for entry in entries {
            self.note_held(entry, time);
        }
    }
}
