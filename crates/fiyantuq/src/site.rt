//! A site that is being commissioned: its radio list, and the documents of its groups.
ghost use Rattle.std.specs.Prelude.{◌<◌, IfSome};

use crate::command::{Command, Keeping};
use commission::{Difference, compare, next_difference};
use mcptt::{GroupId, Refusal, Settings};
use roster::{DocumentTable, Roster, SheetStore, place_sheet};
use serving::Serving;

/// The radio list and the documents.
#[derive(Drop)]
pub struct Site {
    serving: Serving,
    keeper: Keeper,
}

/// The roster that was chosen, with the documents.
// each method asks which: no trait object, since a roster can be made empty by its type alone
#[derive(Drop)]
enum Keeper {
    Table(DocumentTable),
    Sheets(SheetStore),
}

impl Site {
    pub fn new(keeping: Keeping) -> Site {
        Site {
            serving: Serving::new(Settings::usual()),
            keeper: match keeping {
                Keeping::Table => Keeper::Table(DocumentTable::empty()),
                Keeping::Sheets => Keeper::Sheets(SheetStore::empty()),
            },
        }
    }

    /// Carries out a command of a script that has begun. A comparison answers how many users both
    /// sides name, or the lowest difference.
    pub fn obey(
        &mut self,
        command: &Command,
    ) -> Result<Option<Result<usize, Difference>>, Refusal> {
        match command {
            Command::Roster(_) => {}
            Command::Enrol {
                user,
                limit,
                first_serial,
            } => self.serving.enrol(*user, *limit, *first_serial)?,
            Command::Document(bytes) => {
                self.place(bytes.as_slice())?;
            }
            Command::Commission => return Ok(Some(self.compared())),
        }
        Ok(None)
    }

    fn place(&mut self, bytes: &[u8]) -> Result<GroupId, Refusal> {
        match &mut self.keeper {
            Keeper::Table(table) => place_sheet(table, bytes),
            Keeper::Sheets(store) => place_sheet(store, bytes),
        }
    }

    fn compared(&self) -> Result<usize, Difference> {
        match &self.keeper {
            Keeper::Table(table) => compare(&self.serving, table),
            Keeper::Sheets(store) => compare(&self.serving, store),
        }
    }

    /// The lowest difference between the radio list and the sheets above a user's number.
    pub fn difference_after(&self, number: u32) -> Option<Difference>
        ensures { IfSome result (λ d. number < d.user.number) }
    {
        match &self.keeper {
            Keeper::Table(table) => next_difference(&self.serving, table, number),
            Keeper::Sheets(store) => next_difference(&self.serving, store, number),
        }
    }
}
