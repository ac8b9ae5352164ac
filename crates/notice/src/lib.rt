//! What is told of affiliations: NOTIFY, OUTCOME, STATUS, and the implicit ones, BEGIN, COMPLETE and CANCEL.
#![tactic(auto)]

mod begun;
mod checks;
mod event;
mod implicit;
mod notices;
mod outcomes;
mod pending;
#[cfg(test)]
mod tests;
mod word;

pub use begun::Begun;
pub use event::Event;
pub use implicit::begin;
pub use notices::{notify, status};
pub use outcomes::outcome;
pub use pending::{cancel, complete};
pub use word::Notice;
