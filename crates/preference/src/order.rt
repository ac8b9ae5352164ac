//! What a preference promises.
ghost use Rattle.std.specs.Prelude.{◌≡◌, ℕ, Bool, true, false, not, ◌≢◌};

use mcptt::{GroupId, ServedUser};

/// An order of the groups for each served user.
pub trait Preference {
    /// `before p u a b`: for the user u, the group a comes before the group b.
    ghost before: { Self → ℕ → ℕ → ℕ → Bool };

    /// Whether the group `a` comes before the group `b` for the user.
    fn comes_before(&self, user: ServedUser, a: GroupId, b: GroupId) -> bool
        ensures { result ≡ before self.now user.number a.number b.number };

    /// No group comes before itself.
    ghost irreflexive: { (p : Self) (u a : ℕ) → before p u a a ≡ false };

    /// Of two different groups exactly one comes before the other.
    ghost decisive: { (p : Self) (u a b : ℕ) → (a ≢ b) → before p u a b ≡ not (before p u b a) };

    ghost transitive: { (p : Self) (u a b c : ℕ)
        → before p u a b ≡ true → before p u b c ≡ true → before p u a c ≡ true };
}
