//! The settings of a gateway: timer F and the grant G.
ghost use Rattle.std.specs.Prelude.{◌≤◌};

/// Timer F, after which an unanswered request is given up, and the grant G, which an owner gives a
/// listing, both in seconds.
#[derive(Clone, Copy)]
pub struct Settings {
    pub timer: u32,
    pub grant: u32,
    ghost range: { (1 ≤ timer) × (timer ≤ 3600) × (2592000 ≤ grant) × (grant ≤ 4294967295) },
}
