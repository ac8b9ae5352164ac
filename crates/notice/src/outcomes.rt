//! OUTCOME, what became of a request.
ghost use Rattle.std.specs.Prelude.{◌≡◌, ◌≤◌, false, map, length, is_ok, count_by, filter};
ghost use Rattle.rows.specs.Standings.{used, standing};
ghost use Rattle.notice.specs.Outcomes.{awaits, stays, in_range, is_accepted, awaiting, rows_without, outcome_answer, after_outcome};

use crate::event::Event;
use mcptt::Refusal;
use rows::{Account, Entry, Row};

impl Event {
    /// Whether its SIP code, if it has one, is 300 to 699.
    fn is_in_range(self) -> bool
        ensures { result ≡ in_range self }
    {
        matches!(
            self,
            Event::Accepted | Event::TimerExpired | Event::Rejected(300..=699)
        )
    }

    /// Whether the request was accepted.
    fn is_accepted(self) -> bool
        ensures { result ≡ is_accepted self }
    {
        matches!(self, Event::Accepted)
    }
}

/// Whether an entry is no affiliating one with the serial.
fn stays(entry: &Entry, serial: u32) -> bool
    ensures { result ≡ stays serial entry.now }
{
    !(entry.status.is_affiliating() && entry.serial == serial)
}

/// Removes the affiliating entries with the serial from a row, and says how many they were.
fn strike_row(row: &mut Row, serial: u32) -> usize
    ensures few { result ≤ 24 }
    ensures removed { result ≡ count_by (awaits serial) (used row.old) }
    ensures used { used row.new ≡ filter (stays serial) (used row.old) }
{
    let before = row.entries.len();
    row.entries.retain(|entry| stays(entry, serial));
    before - row.entries.len()
}

/// Removes the affiliating entries with the serial from the rows of the four radios, and says how
/// many they were.
fn strike_rows(rows: &mut [Row], serial: u32) -> usize
    requires { length rows.old ≡ 4 }
    ensures removed { result ≡ awaiting serial (map used rows.old) }
    ensures rows { map used rows.new ≡ rows_without serial (map used rows.old) }
{
    let mut removed = 0;
    for row in rows.iter_mut() {
        removed += strike_row(row, serial);
    }
    removed
}

/// OUTCOME: unless the request was accepted, removes the user's affiliating entries with its serial;
/// the answer is how many.
#[tactic(auto, unfolding(crate::specs::Outcomes::outcome_answer, crate::specs::Outcomes::after_outcome))]
pub fn outcome(account: &mut Account, serial: u32, event: Event) -> Result<usize, Refusal>
    ensures answer { result ≡ outcome_answer (standing account.old) serial event }
    ensures standing { standing account.new ≡ after_outcome (standing account.old) serial event }
    ensures refused { is_ok result ≡ false → account.new ≡ account.old }
{
    if !event.is_in_range() {
        return Err(Refusal::NumberOutOfRange);
    }
    account.enrolled()?;
    if event.is_accepted() {
        return Ok(0);
    }
    Ok(strike_rows(&mut account.rows, serial))
}
