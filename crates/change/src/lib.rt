//! CHANGE and LEAVE: what a radio wants, and the requests that follow from it.
#![tactic(auto)]

mod asked;
mod calls;
mod checks;
mod keeping;
mod moving;
mod plan;
mod planned;
mod sending;

pub use asked::{Clock, Wish};
pub use calls::{change, leave};
pub use plan::{Move, Sending};
