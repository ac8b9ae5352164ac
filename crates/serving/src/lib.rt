//! The serving half of the gateway: the gateway's own radio users.
#![tactic(auto)]

mod begins;
mod cancels;
mod changes;
mod completes;
mod enrolments;
mod notices;
mod pending;
mod readings;
mod state;
#[cfg(test)]
mod tests;
mod ticks;

pub use pending::Pending;
pub use state::Serving;
