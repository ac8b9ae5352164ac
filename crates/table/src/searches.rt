//! Questions about records: which are live, and where one stands.
ghost use Rattle.std.specs.Prelude.{◌≡◌, Bool, ◌<◌, length, IfSome, count_by};
ghost use Rattle.table.specs.Tables.{first_place, live, live_of, of_key};
ghost use Rattle.table.specs.Views.{Answers};

use crate::records::{Key, Record};

/// Whether the record is live: it ends later than the time.
pub fn is_live<T: Record>(one: &T, time: u64) -> bool
    ensures { result ≡ live T.until time one.now }
{
    time < one.end()
}

/// Whether the record is kept by that key, live or not.
pub fn is_of<T: Record>(one: &T, key: T::Id) -> bool
    ensures { result ≡ of_key T.ident (T.Id.Key.number key) one.now }
{
    one.key().same(&key)
}

/// Whether the record is a live one of that key.
pub fn is_live_of<T: Record>(one: &T, key: T::Id, time: u64) -> bool
    ensures { result ≡ live_of T.ident T.until (T.Id.Key.number key) time one.now }
{
    is_of(one, key) && is_live(one, time)
}

/// The place of the first that passes.
pub fn position<T, F: Fn(&T) -> bool>(records: &[T], test: F) -> Option<usize>
    requires { F.IsAlwaysCallable test }
    ensures within { IfSome result (λ i. i < length records.now) }
    ensures first { (p : T → Bool) → Answers F.Fn p test → result ≡ first_place p records.now }
{
    // Not the library's `position`, which tells of the calls it made and not of what the closure computes.
    for (place, one) in records.iter().enumerate() {
        if test(one) {
            return Some(place);
        }
    }
    None
}

/// The place of the first live record of that key.
pub fn find<T: Record>(records: &[T], key: T::Id, time: u64) -> Option<usize>
    ensures within { IfSome result (λ i. i < length records.now) }
    ensures first { result ≡ first_place (live_of T.ident T.until (T.Id.Key.number key) time) records.now }
{
    position(records, |one| is_live_of(one, key, time))
}

/// How many records are live.
pub fn count_live<T: Record>(records: &[T], time: u64) -> usize
    ensures { result ≡ count_by (live T.until time) records.now }
{
    records.iter().filter(|one| is_live(*one, time)).count()
}
