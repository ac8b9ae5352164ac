//! What places with a count do, each by a table over them.
ghost use Rattle.std.specs.Prelude.{take, ◌≡◌, Bool, ◌+◌, ◌<◌, ◌≤◌, [], ◌∷◌, ◌++◌, length, drop, is_ok, if◌then◌else◌, count_by, filter, nat_lt, map, Option, replicate, slice_set};
ghost use Rattle.std.specs.List.{filter_map};
ghost use Rattle.table.specs.Kept.{items};
ghost use Rattle.table.specs.Views.{Answers};

use crate::lent::Table;
use crate::owned::Slots;
use crate::records::Full;

impl<T: Copy, const N: usize> Slots<T, N> {
    /// No record: every place is free, and holds this value.
    pub fn empty(free: T) -> Slots<T, N>
        ensures count { result.count ≡ 0 }
        ensures places { result.places ≡ replicate N free }
        ensures items { items result ≡ [] }
    {
        Slots {
            places: [free; N],
            count: 0,
        }
    }

    /// The records, in order.
    pub fn as_slice(&self) -> &[T]
        ensures items { result.now ≡ items self.now }
        ensures count { length result.now ≡ self.now.count }
        ensures fits { length result.now ≤ N }
    {
        &self.places[..self.count]
    }

    /// How many there are.
    pub fn len(&self) -> usize
        ensures count { result ≡ self.now.count }
        ensures len { result ≡ length (items self.now) }
    {
        self.as_slice().len()
    }

    /// Adds a record behind the others, or refuses where every place is used.
    pub fn add(&mut self, new: T) -> Result<(), Full>
        ensures fits { is_ok result ≡ nat_lt self.old.count N }
        ensures count { self.new.count ≡ (if is_ok result then self.old.count + 1 else self.old.count) }
        ensures places { self.new.places ≡ (if is_ok result then slice_set self.old.places self.old.count new else self.old.places) }
        ensures items { items self.new ≡ (if is_ok result then items self.old ++ new ∷ [] else items self.old) }
    {
        add(&mut self.places, &mut self.count, new)
    }

    /// Adds a record behind the others, where there is room.
    pub fn push(&mut self, new: T)
        requires { self.old.count < N }
        ensures count { self.new.count ≡ self.old.count + 1 }
        ensures items { items self.new ≡ items self.old ++ new ∷ [] }
    {
        // It cannot be full.
        let _ = self.add(new);
    }

    /// Adds, in order, what the closure makes of these values, and nothing where it makes none.
    pub fn add_each<X, F: Fn(&X) -> Option<T>>(&mut self, from: &[X], make: F)
        requires fits { self.old.count + length from.now ≤ N }
        requires callable { F.IsAlwaysCallable make }
        ensures count { self.new.count ≤ self.old.count + length from.now }
        ensures items { (p : X → Option T) → Answers F.Fn p make → items self.new ≡ items self.old ++ filter_map p from.now }
    {
        for one in from {
            if let Some(new) = make(one) {
                self.push(new);
            }
        }
    }

    /// Puts in the place of each record what the closure makes of it.
    pub fn replace_each<F: Fn(&T) -> T>(&mut self, make: F)
        requires { F.IsAlwaysCallable make }
        ensures count { self.new.count ≡ self.old.count }
        ensures items { (p : T → T) → Answers F.Fn p make → items self.new ≡ map p (items self.old) }
    {
        replace_each(&mut self.places[..self.count], make);
    }

    /// Keeps the records that pass, in their order, and closes up.
    pub fn retain<F: Fn(&T) -> bool>(&mut self, test: F)
        requires { F.IsAlwaysCallable test }
        ensures count { (p : T → Bool) → Answers F.Fn p test → self.new.count ≡ count_by p (items self.old) }
        ensures items { (p : T → Bool) → Answers F.Fn p test → items self.new ≡ filter p (items self.old) }
        ensures fewer { self.new.count ≤ self.old.count }
        ensures behind { drop self.new.count self.new.places ≡ drop self.new.count self.old.places }
    {
        self.count = retain(&mut self.places, self.count, test);
    }
}

/// Adds a record behind the first `count`, or refuses where every slot is used.
fn add<T: Copy>(slots: &mut [T], count: &mut usize, new: T) -> Result<(), Full>
    requires { count.old ≤ length slots.old }
    ensures fits { is_ok result ≡ nat_lt count.old (length slots.old) }
    ensures count { count.new ≡ (if is_ok result then count.old + 1 else count.old) }
    ensures slots { slots.new ≡ (if is_ok result then slice_set slots.old count.old new else slots.old) }
{
    let mut table = Table::over(slots, count);
    table.add(new)
}

/// Keeps those among the first `count` that pass, in their order, and says how many they are.
pub fn retain<T: Copy, F: Fn(&T) -> bool>(slots: &mut [T], count: usize, test: F) -> usize
    requires within { count ≤ length slots.old }
    requires callable { F.IsAlwaysCallable test }
    ensures count { (p : T → Bool) → Answers F.Fn p test → result ≡ count_by p (take count slots.old) }
    ensures used { (p : T → Bool) → Answers F.Fn p test → take result slots.new ≡ filter p (take count slots.old) }
    ensures fewer { result ≤ count }
    ensures behind { drop result slots.new ≡ drop result slots.old }
{
    let mut left = count;
    let mut table = Table::over(slots, &mut left);
    table.retain(test);
    left
}

/// Puts in the place of each record what the closure makes of it.
fn replace_each<T: Copy, F: Fn(&T) -> T>(slots: &mut [T], make: F)
    requires { F.IsAlwaysCallable make }
    ensures { (p : T → T) → Answers F.Fn p make → slots.new ≡ map p slots.old }
{
    for one in slots.iter_mut() {
        *one = make(one);
    }
}
