//! What the row of a radio does.
ghost use Rattle.std.specs.Prelude.{◌≡◌, ◌+◌, ◌<◌, ◌≤◌, [], ◌∷◌, ◌++◌, length, is_ok, if◌then◌else◌, nat_lt};
ghost use Rattle.rows.specs.Entries.{holds, lives};
ghost use Rattle.rows.specs.Holdings.{gathered};
ghost use Rattle.rows.specs.Lists.{listed};
ghost use Rattle.rows.specs.Standings.{used};

use crate::entry::{Entry, Status};
use crate::group_list::Groups;
use crate::row::Row;
use mcptt::GroupId;
use table::{Full, Slots, is_live};

impl Row {
    /// A row without an entry.
    pub fn new() -> Row
        ensures count { result.entries.count ≡ 0 }
        ensures used { used result ≡ [] }
    {
        Row {
            entries: Slots::empty(Entry {
                group: GroupId { number: 0 },
                status: Status::Deaffiliated,
                end: 0,
                serial: 0,
            }),
        }
    }

    /// The entries, in order.
    pub fn as_slice(&self) -> &[Entry]
        ensures used { result.now ≡ used self.now }
        ensures count { length result.now ≡ self.now.entries.count }
        ensures few { length result.now ≤ 24 }
    {
        self.entries.as_slice()
    }

    /// Adds an entry at the end, or refuses where there are 24.
    pub fn add(&mut self, new: Entry) -> Result<(), Full>
        ensures fits { is_ok result ≡ nat_lt self.old.entries.count 24 }
        ensures count { self.new.entries.count ≡ (if is_ok result then self.old.entries.count + 1 else self.old.entries.count) }
        ensures used { used self.new ≡ (if is_ok result then used self.old ++ new ∷ [] else used self.old) }
    {
        self.entries.add(new)
    }

    /// Adds an entry at the end of a row that has room.
    pub fn push(&mut self, new: Entry)
        requires { self.old.entries.count < 24 }
        ensures count { self.new.entries.count ≡ self.old.entries.count + 1 }
        ensures used { used self.new ≡ used self.old ++ new ∷ [] }
    {
        self.entries.push(new);
    }

    /// Whether the radio holds the group.
    pub fn holds(&self, group: GroupId, time: u64) -> bool
        ensures { result ≡ holds time group.number (used self.now) }
    {
        self.as_slice()
            .iter()
            .any(|entry| entry.group == group && entry.is_held(time))
    }

    /// Whether there is a live entry of the group.
    pub fn lives(&self, group: GroupId, time: u64) -> bool
        ensures { result ≡ lives time group.number (used self.now) }
    {
        self.as_slice()
            .iter()
            .any(|entry| entry.group == group && is_live(entry, time))
    }

    /// Adds the groups that the radio holds, each once.
    pub(crate) fn gather(&self, time: u64, found: &mut Groups)
        requires { found.old.groups.count ≤ 72 }
        ensures count { found.new.groups.count ≤ found.old.groups.count + 24 }
        ensures listed { listed found.new ≡ gathered time (used self.now) (listed found.old) }
    {
        found.gather(self.as_slice(), time);
    }
}
