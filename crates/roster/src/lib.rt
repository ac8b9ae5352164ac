//! Rosters: the documents of the groups that are homed here.
#![tactic(auto)]

mod catalogue;
mod kept_sheet;
mod page;
mod page_roster;
mod pages;
mod placing;
mod roster;
mod slot;
#[cfg(test)]
mod tests;

pub use catalogue::Catalogue;
pub use kept_sheet::SheetStore;
pub use placing::place_sheet;
pub use roster::Roster;
pub use slot::DocumentTable;
