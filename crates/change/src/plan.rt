//! What is to become of the entries of a row.
use rows::Entry;

/// The request that an entry gives rise to.
#[derive(Clone, Copy, Debug, PartialEq, Eq)]
pub enum Sending {
    /// None.
    Silent,
    /// One for a group that is wanted from now on: the entry takes its serial.
    Affiliate,
    /// One for a group that is given up: the entry keeps its own serial.
    Release,
}

/// An entry of the new row, before it has the serial of its request, and its request.
#[derive(Clone, Copy, Debug, PartialEq, Eq)]
pub struct Move {
    pub entry: Entry,
    pub sending: Sending,
}
