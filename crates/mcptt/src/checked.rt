//! Identities that were checked: their range stands in the type.
ghost use Rattle.std.specs.Prelude.{◌≤◌};

/// A user of any gateway.
#[derive(Clone, Copy)]
pub struct User {
    pub number: u32,
    ghost range: { 1 ≤ number },
}

/// A user whom this gateway serves.
#[derive(Clone, Copy)]
pub struct ServedUser {
    pub number: u32,
    ghost range: { (1 ≤ number) × (number ≤ 64) },
}

/// A radio of a served user.
#[derive(Clone, Copy)]
pub struct Radio {
    pub number: u32,
    ghost range: { (1 ≤ number) × (number ≤ 4) },
}

/// A talk group.
#[derive(Clone, Copy)]
pub struct Group {
    pub number: u32,
    ghost range: { 1 ≤ number },
}

/// A set of a user's radios: bit 0 is radio 1, bit 3 is radio 4.
#[derive(Clone, Copy)]
pub struct RadioSet {
    pub bits: u8,
    ghost range: { bits ≤ 15 },
}
