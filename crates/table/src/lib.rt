//! One table for every record that has a key and an end time, and places to keep its records in.
#![tactic(auto)]

mod keys;
mod lent;
mod methods;
mod owned;
mod places;
mod records;
mod searches;
#[cfg(test)]
mod tests;

pub use lent::Table;
pub use owned::Slots;
pub use places::retain;
pub use records::{Full, Key, Record};
pub use searches::{count_live, find, is_live, is_live_of, is_of, position};
