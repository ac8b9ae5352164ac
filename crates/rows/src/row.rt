//! The row of a radio.
use crate::entry::Entry;
use table::Slots;

/// The entries of one radio, in order: at most 24.
#[derive(Clone, Copy)]
pub struct Row {
    pub entries: Slots<Entry, 24>,
}
