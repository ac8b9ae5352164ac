//! BEGIN: an implicit affiliation, by a call set-up or an emergency alert.
ghost use Rattle.std.specs.Prelude.{◌≡◌, ℕ, ◌≤◌, false, length, is_ok, Some, None, Ok, Err, nat_lt};
ghost use Rattle.rows.specs.Standings.{used, standing};
ghost use Rattle.rows.specs.Holdings.{row_of};
ghost use Rattle.notice.specs.Implicit.{begun_row, at_limit, begin_refusal, begun, begin_answer, after_begin};

use crate::checks::checked;
use mcptt::{ClientId, GroupId, Radio, Refusal};
use rows::{Account, Enrolment, Entry, Row, Status, Time};
use table::{count_live, is_live};

/// Whether the row that BEGIN makes of this one would pass 24 entries, whatever the serial.
fn would_pass(row: &Row, time: Time, group: GroupId) -> bool
    ensures { (serial : ℕ) → result ≡ nat_lt 24 (length (begun_row time.seconds group.number serial (used row.now))) }
{
    !row.lives(group, time.seconds) && count_live(row.as_slice(), time.seconds) == 24
}

/// Drops the entries that are not live, and makes the group's entry, or a new one, affiliating.
fn begin_row(row: &mut Row, time: Time, group: GroupId, serial: u32)
    requires { length (begun_row time.seconds group.number serial (used row.old)) ≤ 24 }
    ensures { used row.new ≡ begun_row time.seconds group.number serial (used row.old) }
{
    let pending = Entry {
        group,
        status: Status::Affiliating,
        end: time.seconds + u64::from(u32::MAX),
        serial,
    };
    let is_there = row.lives(group, time.seconds);
    row.entries.retain(|entry| is_live(entry, time.seconds));
    row.entries.replace_each(|entry| if entry.group == group {
        pending
    } else {
        *entry
    });
    if !is_there {
        row.push(pending);
    }
}

/// Whether the user holds N2 groups and not this one.
fn is_at_limit(account: &Account, enrolment: Enrolment, time: Time, group: GroupId) -> bool
    requires { account.now.enrolment ≡ Some enrolment }
    ensures { result ≡ at_limit time.seconds (standing account.now) group.number }
{
    enrolment.limit as usize <= account.held_groups(time.seconds).len()
        && !account.user_holds(group, time.seconds)
}

/// The radio and the enrolment, where BEGIN is not refused.
fn may_begin(
    account: &Account,
    time: Time,
    radio: ClientId,
    group: GroupId,
) -> Result<(Radio, Enrolment), Refusal>
    ensures { elim result [
      | Ok x ↦ (begin_refusal time.seconds (standing account.now) radio.number group.number ≡ None)
          × (x.0.number ≡ radio.number) × (account.now.enrolment ≡ Some x.1) × (x.1.next_serial ≤ 4294967271)
          × (length (begun_row time.seconds group.number x.1.next_serial (row_of (standing account.now).rows radio.number)) ≤ 24)
      | Err e ↦ begin_refusal time.seconds (standing account.now) radio.number group.number ≡ Some e
    ] }
{
    let radio = checked(radio, group)?;
    let enrolment = account.enrolled()?;
    if enrolment.next_serial > 4_294_967_271 {
        return Err(Refusal::SerialsUsedUp);
    }
    if would_pass(account.row(radio), time, group) {
        return Err(Refusal::RowTooLong);
    }
    if account.holds(radio, group, time.seconds) {
        return Err(Refusal::HeldAlready);
    }
    if is_at_limit(account, enrolment, time, group) {
        return Err(Refusal::LimitReached);
    }
    Ok((radio, enrolment))
}

/// BEGIN: makes an implicit affiliation of the radio to the group; the answer is its serial.
#[tactic(auto, unfolding(crate::specs::Implicit::begin_answer, crate::specs::Implicit::after_begin))]
pub fn begin(
    account: &mut Account,
    time: Time,
    radio: ClientId,
    group: GroupId,
) -> Result<u32, Refusal>
    ensures answer { result ≡ begin_answer time.seconds (standing account.old) radio.number group.number }
    ensures standing { standing account.new ≡ after_begin time.seconds (standing account.old) radio.number group.number }
    ensures refused { is_ok result ≡ false → account.new ≡ account.old }
{
    let (radio, enrolment) = may_begin(account, time, radio, group)?;
    let serial = enrolment.next_serial;
    begin_row(&mut account.rows[radio.index()], time, group, serial);
    account.enrolment = Some(Enrolment {
        next_serial: serial + 1,
        ..enrolment
    });
    Ok(serial)
}
