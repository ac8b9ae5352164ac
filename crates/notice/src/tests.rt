//! Each call and each refusal by an example, at the ends of the ranges and of the times.
ghost use Rattle.std.specs.Prelude.{◌<◌};

use crate::{Begun, Event, Notice, begin, cancel, complete, notify, outcome, status};
use mcptt::{ClientId, GroupId, Refusal};
use rows::{Account, Enrolment, Entry, Status, Time};

const NOW: Time = Time { seconds: 1000 };

fn radio(number: u32) -> ClientId {
    ClientId { number }
}

fn group(number: u32) -> GroupId {
    GroupId { number }
}

fn begun(radio: u32, group: u32, serial: u32) -> Begun {
    Begun {
        radio: ClientId { number: radio },
        group: GroupId { number: group },
        serial,
    }
}

fn notice(group: u32, radios: u8, interval: u32, serial: Option<u32>) -> Notice {
    Notice {
        group: GroupId { number: group },
        radios,
        interval,
        serial,
    }
}

/// What ENROL gives with limit 2 and that first serial.
fn with_serial(next_serial: u32) -> Option<Enrolment> {
    Some(Enrolment {
        limit: 2,
        next_serial,
    })
}

/// A user with limit 2 and next serial 1.
fn enrolled() -> Account {
    let mut account = Account::unused();
    account.enrolment = with_serial(1);
    account
}

/// The number of the refusal, or 0.
fn refused<T: Copy>(answer: Result<T, Refusal>) -> u8 {
    answer.err().map_or(0, |refusal| refusal.number())
}

/// The count that was answered, or 99.
fn counted(answer: Result<usize, Refusal>) -> usize {
    answer.unwrap_or(99)
}

fn is_yes(answer: Result<bool, Refusal>) -> bool {
    answer.unwrap_or(false)
}

/// Adds an entry to a row; row 0 is that of radio 1.
fn add(user: &mut Account, k: usize, number: u32, status: Status, end: u64, serial: u32)
    requires { k < 4 }
{
    let group = group(number);
    let _ = user.rows[k].add(Entry {
        group,
        status,
        end,
        serial,
    });
}

/// Whether the first entry of a row is of this group, status and end.
fn begins_with(user: &Account, k: usize, number: u32, status: Status, end: u64) -> bool
    requires { k < 4 }
{
    user.rows[k].as_slice().first().is_some_and(|first| {
        first.group.number == number && first.status == status && first.end == end
    })
}

fn count(user: &Account, k: usize) -> usize
    requires { k < 4 }
{
    user.rows[k].entries.len()
}

#[test]
fn begins_and_ends(rt: HostRuntime) {
    let mut user = enrolled();
    assert!(rt; refused(status(&Account::unused(), NOW, radio(1), group(50))) == 8);
    assert!(rt; refused(status(&user, NOW, radio(0), group(50))) == 5);
    assert!(rt; refused(status(&user, NOW, radio(5), group(50))) == 5);
    assert!(rt; refused(status(&user, NOW, radio(4), group(0))) == 5);
    assert!(rt; refused(begin(&mut user, NOW, radio(2), group(50))) == 0);
    assert!(rt; user.enrolment == with_serial(2));
    assert!(rt; is_yes(status(&user, NOW, radio(2), group(50))));
    assert!(rt; !is_yes(status(&user, NOW, radio(1), group(50))));
    let last = Time {
        seconds: 4_294_968_294,
    };
    let end = Time {
        seconds: 4_294_968_295,
    };
    assert!(rt; is_yes(status(&user, last, radio(2), group(50))));
    assert!(rt; !is_yes(status(&user, end, radio(2), group(50))));
}

#[test]
fn begin_is_refused(rt: HostRuntime) {
    let mut user = enrolled();
    assert!(rt; refused(begin(&mut user, NOW, radio(0), group(1))) == 5);
    assert!(rt; refused(begin(&mut user, NOW, radio(1), group(0))) == 5);
    assert!(rt; refused(begin(&mut Account::unused(), NOW, radio(1), group(1))) == 8);
    user.enrolment = with_serial(4_294_967_272);
    assert!(rt; refused(begin(&mut user, NOW, radio(1), group(1))) == 11);
    user.enrolment = with_serial(4_294_967_271);
    assert!(rt; refused(begin(&mut user, NOW, radio(1), group(1))) == 0);
    user.enrolment = with_serial(2);
    assert!(rt; refused(begin(&mut user, NOW, radio(1), group(1))) == 13);
    assert!(rt; refused(begin(&mut user, NOW, radio(2), group(2))) == 0);
    assert!(rt; refused(begin(&mut user, NOW, radio(1), group(3))) == 14);
    assert!(rt; refused(begin(&mut user, NOW, radio(1), group(2))) == 0);
}

#[test]
fn a_long_row(rt: HostRuntime) {
    let mut user = enrolled();
    for number in 1..25 {
        add(&mut user, 0, number, Status::Deaffiliating, 1001, 0);
    }
    assert!(rt; refused(begin(&mut user, NOW, radio(1), group(25))) == 12);
    assert!(rt; refused(begin(&mut user, NOW, radio(1), group(24))) == 0);
    assert!(rt; count(&user, 0) == 24);
    let later = Time { seconds: 1001 };
    assert!(rt; refused(begin(&mut user, later, radio(1), group(25))) == 0);
    assert!(rt; count(&user, 0) == 2);
}

#[test]
fn completes_and_cancels(rt: HostRuntime) {
    let mut user = enrolled();
    add(&mut user, 0, 50, Status::Affiliating, 1001, 7);
    let later = Time { seconds: 1001 };
    assert!(rt; refused(complete(&mut user, NOW, begun(5, 50, 7))) == 5);
    assert!(rt; refused(cancel(&mut user, begun(1, 0, 7))) == 5);
    assert!(rt; !is_yes(complete(&mut user, NOW, begun(1, 50, 8))));
    assert!(rt; !is_yes(complete(&mut user, NOW, begun(2, 50, 7))));
    assert!(rt; !is_yes(complete(&mut user, later, begun(1, 50, 7))));
    assert!(rt; !is_yes(cancel(&mut user, begun(1, 51, 7))));
    let mut twin = user;
    assert!(rt; is_yes(cancel(&mut twin, begun(1, 50, 7))) && count(&twin, 0) == 0);
    assert!(rt; is_yes(complete(&mut user, NOW, begun(1, 50, 7))));
    assert!(rt; begins_with(&user, 0, 50, Status::Affiliated, 1001));
    assert!(rt; !is_yes(cancel(&mut user, begun(1, 50, 7))) && count(&user, 0) == 1);
    assert!(rt; !is_yes(cancel(&mut Account::unused(), begun(1, 50, 7))));
    add(&mut user, 1, 60, Status::Affiliating, 0, 9);
    assert!(rt; is_yes(cancel(&mut user, begun(2, 60, 9))) && count(&user, 1) == 0);
}

#[test]
fn owners_say(rt: HostRuntime) {
    let mut user = enrolled();
    add(&mut user, 0, 10, Status::Affiliating, 1600, 1);
    add(&mut user, 0, 20, Status::Affiliating, 1600, 2);
    add(&mut user, 3, 10, Status::Affiliated, 1600, 1);
    assert!(rt; refused(notify(&mut user, NOW, notice(0, 1, 600, Some(1)))) == 5);
    assert!(rt; refused(notify(&mut user, NOW, notice(10, 16, 600, None))) == 5);
    assert!(rt; refused(notify(&mut Account::unused(), NOW, notice(10, 15, 600, None))) == 8);
    assert!(rt; counted(notify(&mut user, NOW, notice(20, 1, 600, Some(1)))) == 0);
    assert!(rt; counted(notify(&mut user, NOW, notice(10, 9, 600, None))) == 0);
    assert!(rt; counted(notify(&mut user, NOW, notice(10, 9, 2_592_000, Some(1)))) == 1);
    assert!(rt; begins_with(&user, 0, 10, Status::Affiliated, 1600));
    assert!(rt; counted(notify(&mut user, NOW, notice(10, 8, 0, None))) == 1);
    assert!(rt; begins_with(&user, 0, 10, Status::Deaffiliated, 1000));
    assert!(rt; begins_with(&user, 3, 10, Status::Affiliated, 1600));
    let end = Time { seconds: 1600 };
    assert!(rt; counted(notify(&mut user, end, notice(10, 0, 0, None))) == 0);
}

#[test]
fn requests_come_out(rt: HostRuntime) {
    let mut user = enrolled();
    add(&mut user, 0, 10, Status::Affiliating, 1600, 1);
    add(&mut user, 0, 20, Status::Affiliated, 1600, 1);
    add(&mut user, 0, 30, Status::Affiliating, 1600, 2);
    add(&mut user, 3, 40, Status::Affiliating, 0, 1);
    assert!(rt; refused(outcome(&mut user, 1, Event::Rejected(299))) == 5);
    assert!(rt; refused(outcome(&mut user, 1, Event::Rejected(700))) == 5);
    assert!(rt; refused(outcome(&mut Account::unused(), 1, Event::Accepted)) == 8);
    assert!(rt; counted(outcome(&mut user, 1, Event::Accepted)) == 0);
    assert!(rt; counted(outcome(&mut user, 3, Event::Rejected(300))) == 0);
    assert!(rt; counted(outcome(&mut user, 1, Event::TimerExpired)) == 2);
    assert!(rt; count(&user, 0) == 2 && count(&user, 3) == 0);
    assert!(rt; begins_with(&user, 0, 20, Status::Affiliated, 1600));
    assert!(rt; counted(outcome(&mut user, 2, Event::Rejected(699))) == 1);
}
