//! The serials of a new row, and the requests that go out.
ghost use Rattle.std.specs.Prelude.{◌≡◌, ◌+◌, ◌-◌, ◌^◌, ◌<◌, ◌≤◌, ◌++◌, length, drop, Some, slice_set};
ghost use Rattle.rows.specs.Standings.{used, standing, SameOthers};
ghost use Rattle.table.specs.Kept.{items};
ghost use Rattle.change.specs.Requests.{sends, serial_after, with_serial, settled, request_for, requests_for};

use crate::plan::{Move, Sending};
use crate::planned::Plan;
use mcptt::{GroupId, McpttId, ServedUser};
use rows::{Account, Enrolment, Entry, Request, Row, Time};

impl Sending {
    fn sends(self) -> bool
        ensures { result ≡ sends self }
    {
        self != Sending::Silent
    }

    fn serial_after(self, serial: u32) -> u32
        requires { serial + 1 < 2 ^ 32 }
        ensures low { result ≤ serial + 1 }
        ensures is { result ≡ serial_after serial self }
    {
        if self.sends() { serial + 1 } else { serial }
    }
}

impl Move {
    /// The entry, with the serial if its request is to affiliate.
    fn with_serial(&self, serial: u32) -> Entry
        ensures { result ≡ with_serial serial self.now.entry self.now.sending }
    {
        match self.sending {
            Sending::Silent | Sending::Release => self.entry,
            Sending::Affiliate => Entry {
                serial,
                ..self.entry
            },
        }
    }
}

/// The row that these moves make, with the serials from `next` on.
fn settle(moves: &[Move], next: u32) -> Row
    requires { (length moves.now ≤ 24) × (next + 25 ≤ 2 ^ 32) }
    ensures { used result ≡ settled next moves.now }
{
    let mut row = Row::new();
    let mut serial = next;
    for one in moves {
        row.push(one.with_serial(serial));
        serial = one.sending.serial_after(serial);
    }
    row
}

/// The request for a group, which names the radios that now hold it.
fn request(account: &Account, user: ServedUser, group: GroupId, serial: u32, time: Time) -> Request
    ensures { result ≡ request_for user.number time.seconds (standing account.now).rows serial group }
{
    let radios = account.radios_holding(group, time.seconds).bits;
    Request {
        user: McpttId {
            number: user.number,
        },
        group,
        serial,
        radios,
        expires: if radios == 0 { 0 } else { u32::MAX },
    }
}

/// Sends the requests of these moves, from an account that has the new row already.
fn send(
    account: &Account,
    user: ServedUser,
    moves: &[Move],
    next: u32,
    time: Time,
    out: &mut [Request],
) -> usize
    requires { (length moves.now ≤ 24) × ((length moves.now ≤ length out.old) × (next + 25 ≤ 2 ^ 32)) }
    ensures few { result ≤ 24 }
    ensures count { result ≡ length (requests_for user.number time.seconds (standing account.now).rows next moves.now) }
    ensures out { out.new ≡ requests_for user.number time.seconds (standing account.now).rows next moves.now ++ drop result out.old }
{
    // Not only an index: it is the answer, and it numbers the requests.
    let mut sent = 0;
    for one in moves {
        if one.sending.sends() {
            out[sent] = request(account, user, one.entry.group, next + sent as u32, time);
            sent += 1;
        }
    }
    sent
}

/// Puts the new row in its place, and sends its requests.
pub(crate) fn carry_out(
    account: &mut Account,
    user: ServedUser,
    plan: &Plan,
    time: Time,
    out: &mut [Request],
) -> usize
    requires { (24 ≤ length out.old) × (account.old.enrolment ≡ Some plan.now.enrolment) }
    ensures enrolment { account.new.enrolment ≡ Some (record { limit = plan.now.enrolment.limit; next_serial = plan.now.enrolment.next_serial + result }) }
    ensures others { SameOthers plan.now.radio.number account.old account.new }
    ensures rows { (standing account.new).rows ≡ slice_set (standing account.old).rows (plan.now.radio.number - 1) (settled plan.now.enrolment.next_serial (items plan.now.moves)) }
    ensures count { result ≡ length (requests_for user.number time.seconds (standing account.new).rows plan.now.enrolment.next_serial (items plan.now.moves)) }
    ensures out { out.new ≡ requests_for user.number time.seconds (standing account.new).rows plan.now.enrolment.next_serial (items plan.now.moves) ++ drop result out.old }
{
    let moves = plan.moves.as_slice();
    let next = plan.enrolment.next_serial;
    account.put(plan.radio, settle(moves, next));
    let sent = send(account, user, moves, next, time, out);
    account.enrolment = Some(Enrolment {
        next_serial: next + sent as u32,
        ..plan.enrolment
    });
    sent
}
