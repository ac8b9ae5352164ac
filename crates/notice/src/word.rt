//! An owner's word on a group.
use mcptt::{GroupId, RadioSet};

/// What a NOTIFY says of a group: the set of radios listed, for how many seconds, and the serial of
/// the request that it answers, if any. The numbers are as they came in, whatever their range.
#[derive(Clone, Copy, Debug, PartialEq, Eq)]
pub struct Notice {
    pub group: GroupId,
    pub radios: u8,
    pub interval: u32,
    pub serial: Option<u32>,
}

/// A NOTIFY whose numbers are in range.
#[derive(Clone, Copy)]
pub(crate) struct Word {
    pub(crate) group: GroupId,
    pub(crate) radios: RadioSet,
    pub(crate) interval: u32,
    pub(crate) serial: Option<u32>,
}
