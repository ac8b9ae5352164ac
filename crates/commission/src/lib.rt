//! Commissioning: whether the radio list of a site and its group sheets name the same users.
#![tactic(auto)]

mod comparing;
mod difference;
mod extra;
mod named;
#[cfg(test)]
mod tests;

pub use comparing::{compare, next_difference};
pub use difference::{Difference, Side};
