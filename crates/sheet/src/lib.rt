//! Group documents and their sheets: what a document says, its 512 bytes, and the way between them.
#![tactic(auto)]

mod document;
mod group_document;
mod kept;
mod laws;
mod octets;
mod parts;
mod reader;
mod rules;
#[cfg(test)]
mod tests;
mod writer;

pub use document::{Document, Member};
pub use group_document::GroupDocument;
pub use kept::{sheet_document, sheet_group, sheet_names};
pub use laws::{read_and_written, sheets_differ_stand, smallest_sum, written_and_read};
pub use reader::read;
pub use writer::write;
