//! Groups by their priority in a table, the same for every user.
ghost use Rattle.std.specs.Prelude.{◌≡◌, replicate};
ghost use Rattle.preference.specs.Orders.{by_rank};
ghost use Rattle.preference.specs.Priorities.{names, priority_of, unused_row};
ghost use Rattle.std.proofs.Common.{rules};

use crate::order::Preference;
use mcptt::{GroupId, ServedUser};

/// A group and its priority. A row of group 0 is unused.
#[derive(Clone, Copy, Debug, PartialEq, Eq)]
pub struct PriorityRow {
    pub group: GroupId,
    pub priority: u8,
}

/// The smaller priority comes first, then the smaller group. The first row that names a group
/// decides, and a group in no row has priority 255.
#[derive(Clone, Copy, Debug, PartialEq, Eq)]
pub struct PriorityTable {
    pub rows: [PriorityRow; 32],
}

impl PriorityRow {
    fn names_group(&self, group: GroupId) -> bool
        ensures { result ≡ names self.now group.number }
    {
        self.group.number != 0 && self.group == group
    }
}

impl PriorityTable {
    /// A table without a used row, under which the smaller group comes first.
    pub fn empty() -> PriorityTable
        ensures { result.rows ≡ replicate 32 unused_row }
    {
        let unused = PriorityRow {
            group: GroupId { number: 0 },
            priority: 0,
        };
        PriorityTable { rows: [unused; 32] }
    }
}

/// The priority of a group.
fn priority_in(rows: &[PriorityRow], group: GroupId) -> u8
    ensures { result ≡ priority_of rows.now group.number }
{
    rows.iter()
        .find(|row| row.names_group(group))
        .map_or(255, |row| row.priority)
}

impl Preference for PriorityTable {
    ghost before = { λ t _ a b. by_rank (priority_of t.rows) a b };

    ghost irreflexive = { Prim.search rules };

    ghost decisive = { Prim.search rules };

    ghost transitive = { Prim.search rules };

    fn comes_before(&self, _user: ServedUser, a: GroupId, b: GroupId) -> bool {
        (priority_in(&self.rows, a), a) < (priority_in(&self.rows, b), b)
    }
}
