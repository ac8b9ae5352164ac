//! The time of a gateway.
ghost use Rattle.std.specs.Prelude.{◌≤◌};

/// Whole seconds since the start, at most 1,099,511,627,776, so that an interval can be added.
#[derive(Clone, Copy)]
pub struct Time {
    pub seconds: u64,
    ghost range: { seconds ≤ 1099511627776 },
}
