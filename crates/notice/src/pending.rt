//! COMPLETE and CANCEL: what becomes of an implicit affiliation.
ghost use Rattle.std.specs.Prelude.{◌≡◌, false, not, map, filter};
ghost use Rattle.std.specs.List.{list_any};
ghost use Rattle.rows.specs.Standings.{used, standing};
ghost use Rattle.notice.specs.Implicit.{pends, pends_live, completed, is_yes, complete_answer, after_complete, cancel_answer, after_cancel};

use crate::begun::Begun;
use crate::checks::checked;
use mcptt::Refusal;
use rows::{Account, Entry, Row, Status, Time};
use table::is_live;

impl Begun {
    /// Whether this is its entry: affiliating, live or not.
    fn pends(self, entry: &Entry) -> bool
        ensures { result ≡ pends self.group.number self.serial entry.now }
    {
        entry.status.is_affiliating() && entry.group == self.group && entry.serial == self.serial
    }

    /// Whether this is its entry, and live.
    fn pends_live(self, entry: &Entry, time: Time) -> bool
        ensures { result ≡ pends_live time.seconds self.group.number self.serial entry.now }
    {
        self.pends(entry) && is_live(entry, time.seconds)
    }

    /// Whether a row has its entry.
    fn is_in(self, row: &Row) -> bool
        ensures { result ≡ list_any (pends self.group.number self.serial) (used row.now) }
    {
        row.as_slice().iter().any(|entry| self.pends(entry))
    }

    /// Whether a row has its entry, and live.
    fn lives_in(self, row: &Row, time: Time) -> bool
        ensures { result ≡ list_any (pends_live time.seconds self.group.number self.serial) (used row.now) }
    {
        row.as_slice()
            .iter()
            .any(|entry| self.pends_live(entry, time))
    }

    /// The entry, affiliated if it is the live one of this.
    fn completed(self, entry: &Entry, time: Time) -> Entry
        ensures { result ≡ completed time.seconds self.group.number self.serial entry.now }
    {
        if self.pends_live(entry, time) {
            Entry {
                status: Status::Affiliated,
                ..*entry
            }
        } else {
            *entry
        }
    }

    /// Makes its live entries of a row affiliated.
    fn complete_in(self, row: &mut Row, time: Time)
        ensures { used row.new ≡ map (completed time.seconds self.group.number self.serial) (used row.old) }
    {
        row.entries
            .replace_each(|entry| self.completed(entry, time));
    }

    /// Removes its entries from a row.
    fn cancel_in(self, row: &mut Row)
        ensures { used row.new ≡ filter (λ e. not (pends self.group.number self.serial e)) (used row.old) }
    {
        row.entries.retain(|entry| !self.pends(entry));
    }
}

/// COMPLETE: makes the live affiliating entry of the radio, group and serial affiliated; the answer is
/// whether there was one.
#[tactic(auto, unfolding(crate::specs::Implicit::complete_answer, crate::specs::Implicit::after_complete))]
pub fn complete(account: &mut Account, time: Time, begun: Begun) -> Result<bool, Refusal>
    ensures answer { result ≡ complete_answer time.seconds (standing account.old) begun.radio.number begun.group.number begun.serial }
    ensures standing { standing account.new ≡ after_complete time.seconds (standing account.old) begun.radio.number begun.group.number begun.serial }
    ensures stays { is_yes result ≡ false → account.new ≡ account.old }
{
    let radio = checked(begun.radio, begun.group)?;
    if account.enrolment.is_none() || !begun.lives_in(account.row(radio), time) {
        return Ok(false);
    }
    begun.complete_in(&mut account.rows[radio.index()], time);
    Ok(true)
}

/// CANCEL: removes the affiliating entry of the radio, group and serial, live or not; the answer is
/// whether there was one.
#[tactic(auto, unfolding(crate::specs::Implicit::cancel_answer, crate::specs::Implicit::after_cancel))]
pub fn cancel(account: &mut Account, begun: Begun) -> Result<bool, Refusal>
    ensures answer { result ≡ cancel_answer (standing account.old) begun.radio.number begun.group.number begun.serial }
    ensures standing { standing account.new ≡ after_cancel (standing account.old) begun.radio.number begun.group.number begun.serial }
    ensures stays { is_yes result ≡ false → account.new ≡ account.old }
{
    let radio = checked(begun.radio, begun.group)?;
    if account.enrolment.is_none() || !begun.is_in(account.row(radio)) {
        return Ok(false);
    }
    begun.cancel_in(&mut account.rows[radio.index()]);
    Ok(true)
}
