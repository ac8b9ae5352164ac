//! The table: slots that are lent, of which a count, lent with them, says how many are used.
ghost use Rattle.std.specs.Prelude.{◌≤◌, length};

/// A table over lent slots: the first `count` are used.
#[derive(Drop)]
pub struct Table<'a, T> {
    pub(crate) slots: &'a mut [T],
    pub(crate) count: &'a mut usize,
    ghost within: { count.now ≤ length slots.now },
}
