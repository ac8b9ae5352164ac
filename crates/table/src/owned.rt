//! Places that are owned, of which a count says how many are used.
ghost use Rattle.std.specs.Prelude.{◌≡◌, ◌≤◌, ⊤};

use std::alloc::AllocError;

/// Places for `N` records: the first `count` are used, in order.
pub struct Slots<T, const N: usize> {
    pub places: [T; N],
    pub count: usize,
    ghost within: { count ≤ N },
}

// a derive does not reach over the ghost field
impl<T: Copy, const N: usize> Clone for Slots<T, N> {
    ghost is_clone = { λ old new. new ≡ old };

    ghost is_infallible = { λ _. ⊤ };

    fn clone(&self) -> Result<Slots<T, N>, AllocError> {
        Ok(*self)
    }
}

impl<T: Copy, const N: usize> Copy for Slots<T, N> {}
