//! What a table asks of a record and of its key.
ghost use Rattle.std.specs.Prelude.{◌≡◌, ℕ, ◌==◌};

/// What records are kept by: an identity of one sort.
// Not `Eq`: a key is asked only for a number in clauses, and whether two are one identity.
pub trait Key: Copy {
    ghost number: { Self → ℕ };

    /// Whether the two are one identity.
    fn same(&self, other: &Self) -> bool
        ensures { result ≡ (number self.now == number other.now) };
}

/// A value that is kept by a key until an end time. The key is an identity of one sort, so that a
/// record kept by one sort cannot be looked for by another.
pub trait Record: Copy {
    type Id: Key;

    ghost ident: { Self → ℕ };

    ghost until: { Self → ℕ };

    /// The identity that it is kept by.
    fn key(&self) -> Self::Id
        ensures { Self.Id.Key.number result ≡ ident self.now };

    /// When it ends, in seconds.
    fn end(&self) -> u64
        ensures { result ≡ until self.now };
}

/// The table has no free slot.
#[derive(Clone, Copy, PartialEq, Eq, Debug)]
pub struct Full;
