//! What the serving half keeps.
use mcptt::Settings;
use rows::{Account, Time};

/// The settings, the time, and the accounts of the 64 users whom the gateway serves, user 1 first.
#[derive(Drop)]
pub struct Serving {
    pub(crate) settings: Settings,
    pub(crate) time: Time,
    pub(crate) accounts: [Account; 64],
}
