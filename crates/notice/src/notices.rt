//! NOTIFY, an owner's word on a group, and STATUS.
ghost use Rattle.std.specs.Prelude.{◌≡◌, ◌≤◌, true, false, ◌&&◌, map, length, take, is_ok, MatchResult};
ghost use Rattle.mcptt.specs.Ranges.{is_group, is_radio_set, has_radio};
ghost use Rattle.mcptt.specs.declared.refusal.Refusal.TheVariants.{NumberOutOfRange};
ghost use Rattle.rows.specs.Standings.{used, standing};
ghost use Rattle.table.specs.Kept.{items};
ghost use Rattle.notice.specs.Notices.{said, heard, is_serial, end_by, verdict_on, notified, is_turned, turned_in, rows_told, statuses_told, notify_answer, after_notify, status_answer};

use crate::checks::checked;
use crate::word::{Notice, Word};
use mcptt::{ClientId, Group, GroupId, Radio, RadioSet, Refusal};
use rows::{Account, Entry, Row, Status, Time};
use table::{Slots, is_live};

/// When an entry ends that takes this status: one that becomes affiliated no later than the owner
/// says, one that becomes deaffiliated now.
fn end_by(status: Status, end: u64, time: u64, until: u64) -> u64
    ensures { result ≡ end_by status end time until }
{
    match status {
        Status::Affiliated => end.min(until),
        Status::Deaffiliated => time,
        Status::Affiliating | Status::Deaffiliating => end,
    }
}

/// The word, or refusal 5 where the group or the set of radios is out of range.
impl TryFrom<Notice> for Word {
    type Error = Refusal;

    ghost try_from_gives = { λ n r. MatchResult r (λ w. (heard w ≡ said n) × ((is_group n.group.number && is_radio_set n.radios) ≡ true)) (λ e. ((is_group n.group.number && is_radio_set n.radios) ≡ false) × (e ≡ NumberOutOfRange)) };

    fn try_from(notice: Notice) -> Result<Word, Refusal> {
        Group::try_from(notice.group)?;
        let radios = RadioSet::try_from(notice.radios)?;
        Ok(Word {
            group: notice.group,
            radios,
            interval: notice.interval,
            serial: notice.serial,
        })
    }
}

impl Word {
    /// Whether it names the serial.
    fn names(&self, serial: u32) -> bool
        ensures { result ≡ is_serial self.now.serial serial }
    {
        self.serial.is_some_and(|named| named == serial)
    }

    /// What an entry of a radio that is listed or not becomes, if its status changes.
    fn verdict(&self, entry: &Entry, time: Time, listed: bool) -> Option<Status>
        ensures { result ≡ verdict_on time.seconds (heard self.now) listed entry.now }
    {
        if entry.group != self.group || !is_live(entry, time.seconds) {
            return None;
        }
        match entry.status {
            Status::Affiliating if !self.names(entry.serial) => None,
            Status::Affiliating if listed => Some(Status::Affiliated),
            Status::Affiliated | Status::Deaffiliating if listed => None,
            Status::Affiliating | Status::Affiliated | Status::Deaffiliating => Some(
                Status::Deaffiliated,
            ),
            Status::Deaffiliated => None,
        }
    }

    /// Does to an entry what the word says, and counts the status that changed.
    fn tell(&self, entry: &mut Entry, time: Time, listed: bool) -> usize
        ensures few { result ≤ 1 }
        ensures turned { result ≡ is_turned (verdict_on time.seconds (heard self.now) listed entry.old) }
        ensures entry { entry.new ≡ notified time.seconds (heard self.now) listed entry.old }
    {
        let Some(status) = self.verdict(entry, time, listed) else {
            return 0;
        };
        let until = time.seconds + u64::from(self.interval);
        entry.end = end_by(status, entry.end, time.seconds, until);
        entry.status = status;
        1
    }

    /// Does so to each of the first `count` entries of a radio, and counts the statuses that changed.
    // Not the entries alone: the part of an array that lies in a row is not lent with a proof.
    fn tell_first(&self, entries: &mut [Entry], count: usize, time: Time, listed: bool) -> usize
        requires { count ≤ length entries.old }
        ensures few { result ≤ count }
        ensures turned { result ≡ turned_in time.seconds (heard self.now) listed (take count entries.old) }
        ensures entries { take count entries.new ≡ map (notified time.seconds (heard self.now) listed) (take count entries.old) }
    {
        let mut turned = 0;
        for entry in entries[..count].iter_mut() {
            turned += self.tell(entry, time, listed);
        }
        turned
    }

    /// Does so to the entries of a row.
    fn tell_entries(&self, entries: &mut Slots<Entry, 24>, time: Time, listed: bool) -> usize
        ensures few { result ≤ 24 }
        ensures turned { result ≡ turned_in time.seconds (heard self.now) listed (items entries.old) }
        ensures items { items entries.new ≡ map (notified time.seconds (heard self.now) listed) (items entries.old) }
    {
        let count = entries.count;
        self.tell_first(&mut entries.places, count, time, listed)
    }

    /// Does so to the row of a radio.
    fn tell_row(&self, row: &mut Row, time: Time, radio: Radio) -> usize
        ensures few { result ≤ 24 }
        ensures turned { result ≡ turned_in time.seconds (heard self.now) (has_radio self.now.radios.bits radio.number) (used row.old) }
        ensures used { used row.new ≡ map (notified time.seconds (heard self.now) (has_radio self.now.radios.bits radio.number)) (used row.old) }
    {
        self.tell_entries(&mut row.entries, time, self.radios.has(radio))
    }

    /// Does so to the rows of the four radios.
    fn tell_rows(&self, rows: &mut [Row], time: Time) -> usize
        requires { length rows.old ≡ 4 }
        ensures turned { result ≡ statuses_told time.seconds (heard self.now) (map used rows.old) }
        ensures rows { map used rows.new ≡ rows_told time.seconds (heard self.now) (map used rows.old) }
    {
        let mut turned = 0;
        for (k, row) in rows.iter_mut().enumerate() {
            let radio = Radio {
                number: k as u32 + 1,
            };
            turned += self.tell_row(row, time, radio);
        }
        turned
    }
}

/// NOTIFY: does to the user's entries of the group what its owner says; the answer is how many
/// statuses changed.
#[tactic(auto, unfolding(crate::specs::Notices::notify_answer, crate::specs::Notices::after_notify))]
pub fn notify(account: &mut Account, time: Time, notice: Notice) -> Result<usize, Refusal>
    ensures answer { result ≡ notify_answer time.seconds (standing account.old) (said notice) }
    ensures standing { standing account.new ≡ after_notify time.seconds (standing account.old) (said notice) }
    ensures refused { is_ok result ≡ false → account.new ≡ account.old }
{
    let word = Word::try_from(notice)?;
    account.enrolled()?;
    Ok(word.tell_rows(&mut account.rows, time))
}

/// STATUS: whether the radio holds the group.
pub fn status(
    account: &Account,
    time: Time,
    radio: ClientId,
    group: GroupId,
) -> Result<bool, Refusal>
    ensures { result ≡ status_answer time.seconds (standing account.now) radio.number group.number }
{
    let radio = checked(radio, group)?;
    account.enrolled()?;
    Ok(account.holds(radio, group, time.seconds))
}
