//! The order in which a served user would rather have groups: what it promises, and two ways to give it.
#![tactic(auto)]

mod order;
mod priority;
#[cfg(test)]
mod tests;
mod zone;

pub use order::Preference;
pub use priority::{PriorityRow, PriorityTable};
pub use zone::ZoneOrder;
