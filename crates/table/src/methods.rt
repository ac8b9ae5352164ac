//! What a table does.
ghost use Rattle.std.specs.Prelude.{◌≡◌, Bool, ◌+◌, ◌<◌, ◌≤◌, not, [], ◌∷◌, ◌++◌, length, drop, IfSome, is_ok, if◌then◌else◌, count_by, filter, nat_lt, slice_index_or, slice_set};
ghost use Rattle.table.specs.Tables.{first_place, live, live_of, of_key};
ghost use Rattle.table.specs.Views.{used, behind, has_room, SameLender, Answers};

use crate::lent::Table;
use crate::records::{Full, Record};
use crate::searches::{count_live, find, is_of};

impl<'a, T: Copy> Table<'a, T> {
    /// The table over slots of which the first `count` are used.
    pub fn over(slots: &'a mut [T], count: &'a mut usize) -> Table<'a, T>
        requires { count.old ≤ length slots.old }
        ensures slots { result.slots.now ≡ slots.old }
        ensures count { result.count.now ≡ count.old }
        ensures slots_lender { result.slots.ghost_name ≡ slots.entry.ghost_name }
        ensures count_lender { result.count.ghost_name ≡ count.entry.ghost_name }
    {
        Table { slots, count }
    }

    /// The records, in order.
    pub fn records(&self) -> &[T]
        ensures { result.now ≡ used self.now }
    {
        &self.slots[..*self.count]
    }

    /// Adds a record behind the others, or refuses where every slot is used.
    pub fn add(&mut self, new: T) -> Result<(), Full>
        ensures fits { is_ok result ≡ has_room self.old }
        ensures count { self.new.count.now ≡ (if is_ok result then self.old.count.now + 1 else self.old.count.now) }
        ensures slots { self.new.slots.now ≡ (if is_ok result then slice_set self.old.slots.now self.old.count.now new else self.old.slots.now) }
        ensures used { used self.new ≡ (if is_ok result then used self.old ++ new ∷ [] else used self.old) }
        ensures lender { SameLender self.old self.new }
    {
        let free = *self.count;
        if free == self.slots.len() {
            return Err(Full);
        }
        self.slots[free] = new;
        *self.count = free + 1;
        Ok(())
    }

    /// The record at a place.
    pub fn get(&self, i: usize) -> T
        requires { i < self.now.count.now }
        ensures { result ≡ slice_index_or self.now.slots.now i result }
    {
        self.records()[i]
    }

    /// Puts a record in the place of another.
    #[tactic(auto, using(crate::proofs::Parts::take_set_in))]
    pub fn replace(&mut self, i: usize, new: T)
        requires { i < self.old.count.now }
        ensures count { self.new.count.now ≡ self.old.count.now }
        ensures slots { self.new.slots.now ≡ slice_set self.old.slots.now i new }
        ensures used { used self.new ≡ slice_set (used self.old) i new }
        ensures lender { SameLender self.old self.new }
    {
        self.slots[i] = new;
    }

    /// Keeps the records that pass, in their order, and closes up.
    pub fn retain<F: Fn(&T) -> bool>(&mut self, test: F)
        requires { F.IsAlwaysCallable test }
        ensures count { (p : T → Bool) → Answers F.Fn p test → self.new.count.now ≡ count_by p (used self.old) }
        ensures used { (p : T → Bool) → Answers F.Fn p test → used self.new ≡ filter p (used self.old) }
        ensures fewer { self.new.count.now ≤ self.old.count.now }
        ensures long { length self.new.slots.now ≡ length self.old.slots.now }
        ensures behind { behind self.new ≡ drop self.new.count.now self.old.slots.now }
        ensures lender { SameLender self.old self.new }
    {
        let mut kept_so_far = 0;
        // By index: the place that is read runs ahead of the place that is written.
        for i in 0..*self.count {
            let one = self.slots[i];
            if test(&one) {
                self.slots[kept_so_far] = one;
                kept_so_far += 1;
            }
        }
        *self.count = kept_so_far;
    }
}

impl<'a, T: Record> Table<'a, T> {
    /// The place of the first live record of that key.
    pub fn find(&self, key: T::Id, time: u64) -> Option<usize>
        ensures within { IfSome result (λ i. i < self.now.count.now) }
        ensures first { result ≡ first_place (live_of T.ident T.until (T.Id.Key.number key) time) (used self.now) }
    {
        find(self.records(), key, time)
    }

    /// How many records are live.
    pub fn count_live(&self, time: u64) -> usize
        ensures { result ≡ count_by (live T.until time) (used self.now) }
    {
        count_live(self.records(), time)
    }

    /// Removes the records of that key, live or not, closes up, and says whether there were any.
    pub fn remove(&mut self, key: T::Id) -> bool
        ensures any { result ≡ nat_lt self.new.count.now self.old.count.now }
        ensures count { self.new.count.now ≡ count_by (λ x. not (of_key T.ident (T.Id.Key.number key) x)) (used self.old) }
        ensures used { used self.new ≡ filter (λ x. not (of_key T.ident (T.Id.Key.number key) x)) (used self.old) }
        ensures fewer { self.new.count.now ≤ self.old.count.now }
        ensures long { length self.new.slots.now ≡ length self.old.slots.now }
        ensures behind { behind self.new ≡ drop self.new.count.now self.old.slots.now }
        ensures lender { SameLender self.old self.new }
    {
        let before = *self.count;
        self.retain(|one| !is_of(one, key));
        *self.count < before
    }
}
