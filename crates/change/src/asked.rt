//! What a call is given, besides the user's account.
use mcptt::{ClientId, GroupId};
use rows::Time;

/// The time, and timer F in seconds.
#[derive(Clone, Copy)]
pub struct Clock {
    pub time: Time,
    pub timer: u32,
}

/// The groups that a radio wants from now on, and for how many seconds.
#[derive(Clone, Copy)]
pub struct Wish<'a> {
    pub radio: ClientId,
    pub interval: u32,
    pub wanted: &'a [GroupId],
}
