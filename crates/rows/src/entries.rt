//! Questions about one entry.
ghost use Rattle.std.specs.Prelude.{◌≡◌};
ghost use Rattle.rows.specs.Entries.{is_affiliating, on, held};

use crate::entry::{Entry, Status};
use mcptt::GroupId;
use table::{Record, is_live};

impl Status {
    /// Whether it is affiliating.
    pub fn is_affiliating(self) -> bool
        ensures { result ≡ is_affiliating self }
    {
        self == Status::Affiliating
    }

    /// Whether it is affiliating or affiliated.
    pub fn is_on(self) -> bool
        ensures { result ≡ on self }
    {
        matches!(self, Status::Affiliating | Status::Affiliated)
    }
}

impl Record for Entry {
    type Id = GroupId;

    ghost ident = { λ e. e.group.number };

    ghost until = { λ e. e.end };

    fn key(&self) -> GroupId {
        self.group
    }

    fn end(&self) -> u64 {
        self.end
    }
}

impl Entry {
    /// Whether the radio holds its group by this entry.
    pub(crate) fn is_held(&self, time: u64) -> bool
        ensures { result ≡ held time self.now }
    {
        is_live(self, time) && self.status.is_on()
    }
}
