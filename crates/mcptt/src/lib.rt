//! The vocabulary of MCPTT affiliation: identities, sets of radios, settings and refusals.
#![tactic(auto)]

mod checked;
mod checks;
mod identity;
mod refusal;
mod refusals;
mod setting;
mod settings;
#[cfg(test)]
mod tests;

pub use checked::{Group, Radio, RadioSet, ServedUser, User};
pub use identity::{ClientId, GroupId, McpttId};
pub use refusal::{Party, Refusal, SipAnswer};
pub use setting::Settings;
