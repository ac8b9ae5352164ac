//! CHANGE and LEAVE of user 7, whose groups 10, 20 and 30 have the priorities 1, 2 and 3. Timer F is 32.
use change::{Clock, Wish, change, leave};
use mcptt::{ClientId, GroupId, McpttId, Radio, Refusal, ServedUser};
use preference::{PriorityRow, PriorityTable};
use rows::{Account, Enrolment, Entry, Request, Row, Status, Time};
use std::process::Abort;
use std::test::Fail;

fn group(number: u32) -> GroupId {
    GroupId { number }
}

fn entry(number: u32, status: Status, end: u64, serial: u32) -> Entry {
    Entry {
        group: group(number),
        status,
        end,
        serial,
    }
}

fn enrolled(limit: u32, next_serial: u32) -> Account {
    let mut account = Account::unused();
    account.enrolment = Some(Enrolment { limit, next_serial });
    account
}

/// The next serial of a user who is enrolled.
fn next_serial(account: &Account) -> Option<u32> {
    account.enrolment.map(|enrolment| enrolment.next_serial)
}

/// Gives a radio the row of these entries.
fn put(rt: &impl Abort, account: &mut Account, radio: u32, entries: &[Entry]) -> Result<(), Fail> {
    let mut row = Row::new();
    for one in entries {
        assert!(rt; row.add(*one).is_ok());
    }
    let Ok(radio) = Radio::try_from(ClientId { number: radio }) else {
        return Err(Fail::new("no such radio"));
    };
    account.put(radio, row);
    Ok(())
}

fn no_requests() -> [Request; 24] {
    [Request {
        user: McpttId { number: 0 },
        group: group(0),
        serial: 0,
        radios: 0,
        expires: 5,
    }; 24]
}

/// That time, with 32 for timer F.
fn clock(seconds: u64) -> Result<Clock, Refusal> {
    Ok(Clock {
        time: Time::try_from(seconds)?,
        timer: 32,
    })
}

/// CHANGE of a radio of user 7.
fn change_for(
    interval: u32,
    time: u64,
    account: &mut Account,
    radio: u32,
    wanted: &[GroupId],
    out: &mut [Request],
) -> Result<(usize, usize), Refusal> {
    let mut table = PriorityTable::empty();
    for (row, priority) in table.rows.iter_mut().zip(1..=3) {
        row.group = group(10 * u32::from(priority));
        row.priority = priority;
    }
    let user = ServedUser::try_from(McpttId { number: 7 })?;
    let wish = Wish {
        radio: ClientId { number: radio },
        interval,
        wanted,
    };
    change(account, &table, user, clock(time)?, wish, out)
}

/// CHANGE of a radio of user 7, for 600 seconds.
fn change_at(
    time: u64,
    account: &mut Account,
    radio: u32,
    wanted: &[GroupId],
    out: &mut [Request],
) -> Result<(usize, usize), Refusal> {
    change_for(600, time, account, radio, wanted, out)
}

/// LEAVE of a radio of user 7 at 1,000.
fn leave_now(account: &mut Account, radio: u32, out: &mut [Request]) -> Result<usize, Refusal> {
    let user = ServedUser::try_from(McpttId { number: 7 })?;
    leave(account, user, ClientId { number: radio }, clock(1000)?, out)
}

/// Checks an entry of radio 1.
fn check_entry(
    rt: &impl Abort,
    account: &Account,
    place: usize,
    expected: Entry,
) -> Result<(), Fail> {
    let found = account.rows[0].as_slice().get(place);
    assert_eq!(rt; *found.ok_or("no such entry")?, expected);
    Ok(())
}

fn check_request(
    rt: &impl Abort,
    sent: Request,
    number: u32,
    serial: u32,
    radios: u8,
    expires: u32,
) {
    let expected = Request {
        user: McpttId { number: 7 },
        group: group(number),
        serial,
        radios,
        expires,
    };
    assert_eq!(rt; sent, expected);
}

#[test]
fn the_limit_goes_by_the_preference(rt: HostRuntime) -> Result<(), Fail> {
    let mut account = enrolled(2, 1);
    let mut out = no_requests();
    let wanted = [group(30), group(10), group(20)];
    assert!(rt; change_at(1000, &mut account, 1, &wanted, &mut out) == Ok((2, 1)));
    check_entry(&rt, &account, 0, entry(10, Status::Affiliating, 1600, 1))?;
    check_entry(&rt, &account, 1, entry(20, Status::Affiliating, 1600, 2))?;
    assert_eq!(rt; next_serial(&account), Some(3));
    check_request(&rt, out[0], 10, 1, 1, u32::MAX);
    check_request(&rt, out[1], 20, 2, 1, u32::MAX);
    assert!(rt; out[2].expires == 5);
    Ok(())
}

#[test]
fn what_is_given_up_is_released(rt: HostRuntime) -> Result<(), Fail> {
    let mut account = enrolled(2, 3);
    let ten = entry(10, Status::Affiliated, 1600, 1);
    let twenty = entry(20, Status::Affiliating, 1600, 2);
    put(&rt, &mut account, 1, &[ten, twenty])?;
    let mut out = no_requests();
    assert!(rt; change_at(1000, &mut account, 1, &[group(20)], &mut out) == Ok((1, 0)));
    check_entry(&rt, &account, 0, entry(10, Status::Deaffiliating, 1064, 1))?;
    check_entry(&rt, &account, 1, entry(20, Status::Affiliating, 1600, 2))?;
    check_request(&rt, out[0], 10, 3, 0, 0);
    assert!(rt; change_at(1063, &mut account, 1, &[group(10)], &mut out) == Ok((1, 0)));
    check_entry(&rt, &account, 0, entry(10, Status::Affiliating, 1663, 4))?;
    assert!(rt; change_at(1063, &mut account, 1, &[], &mut out) == Ok((0, 0)));
    assert!(rt; change_at(1127, &mut account, 1, &[group(10)], &mut out) == Ok((1, 0)));
    check_entry(&rt, &account, 0, entry(10, Status::Affiliating, 1727, 5))
}

#[test]
fn other_radios_count(rt: HostRuntime) -> Result<(), Fail> {
    let mut account = enrolled(1, 1);
    let ten = entry(10, Status::Affiliated, 1600, 0);
    put(&rt, &mut account, 1, &[ten])?;
    put(&rt, &mut account, 2, &[ten])?;
    let mut out = no_requests();
    assert!(rt; change_at(1000, &mut account, 1, &[group(5), group(20)], &mut out) == Ok((1, 2)));
    check_request(&rt, out[0], 10, 1, 2, u32::MAX);
    assert!(rt; change_at(1000, &mut account, 1, &[group(5), group(10)], &mut out) == Ok((1, 1)));
    check_request(&rt, out[0], 10, 2, 3, u32::MAX);
    assert!(rt; change_at(1600, &mut account, 1, &[group(5)], &mut out) == Ok((1, 0)));
    Ok(())
}

#[test]
fn change_refuses(rt: HostRuntime) {
    let mut account = Account::unused();
    let mut out = no_requests();
    let mut short = [out[0]; 23];
    let one = [group(10)];
    assert!(rt; change_at(0, &mut account, 0, &one, &mut short) == Err(Refusal::OutgoingTooShort));
    assert!(rt; change_at(0, &mut account, 0, &one, &mut out) == Err(Refusal::NumberOutOfRange));
    assert!(rt; change_at(0, &mut account, 5, &one, &mut out) == Err(Refusal::NumberOutOfRange));
    assert!(rt; change_for(0, 0, &mut account, 1, &one, &mut out) == Err(Refusal::NotEnrolled));
    account = enrolled(1, 4_294_967_272);
    let many = [group(10); 17];
    assert!(rt; change_for(0, 0, &mut account, 1, &many, &mut out) == Err(Refusal::IntervalZero));
    assert!(rt; change_at(0, &mut account, 1, &many, &mut out) == Err(Refusal::WantedListFaulty));
    assert!(rt;
        change_at(0, &mut account, 1, &many[..2], &mut out) == Err(Refusal::WantedListFaulty)
    );
    assert!(rt;
        change_at(0, &mut account, 1, &[group(0)], &mut out) == Err(Refusal::WantedListFaulty)
    );
    assert!(rt; change_at(0, &mut account, 1, &one, &mut out) == Err(Refusal::SerialsUsedUp));
    assert!(rt; out[0].expires == 5 && next_serial(&account) == Some(4_294_967_272));
    account.enrolment = Some(Enrolment {
        limit: 1,
        next_serial: 4_294_967_271,
    });
    assert!(rt; change_at(0, &mut account, 1, &one, &mut out) == Ok((1, 0)));
}

#[test]
fn a_row_has_24_entries(rt: HostRuntime) -> Result<(), Fail> {
    let mut account = enrolled(16, 1);
    let entries = [entry(100, Status::Affiliating, 2000, 0); 23];
    put(&rt, &mut account, 1, &entries)?;
    let mut out = no_requests();
    assert!(rt; change_at(1000, &mut account, 1, &[group(10)], &mut out) == Ok((1, 0)));
    check_entry(&rt, &account, 23, entry(10, Status::Affiliating, 1600, 1))?;
    assert!(rt;
        change_at(1063, &mut account, 1, &[group(20)], &mut out) == Err(Refusal::RowTooLong)
    );
    assert!(rt; change_at(1064, &mut account, 1, &[group(20)], &mut out) == Ok((1, 0)));
    check_entry(&rt, &account, 0, entry(10, Status::Deaffiliating, 1128, 1))?;
    check_entry(&rt, &account, 1, entry(20, Status::Affiliating, 1664, 2))
}

#[test]
fn limits_1_and_16(rt: HostRuntime) {
    let mut wanted = [group(0); 16];
    for (one, number) in wanted.iter_mut().zip(1..) {
        *one = group(number);
    }
    let mut out = no_requests();
    let mut account = enrolled(16, 1);
    assert!(rt; change_at(0, &mut account, 4, &wanted, &mut out) == Ok((16, 0)));
    check_request(&rt, out[15], 16, 16, 8, u32::MAX);
    account = enrolled(1, 1);
    assert!(rt; change_at(0, &mut account, 4, &wanted, &mut out) == Ok((1, 15)));
    check_request(&rt, out[0], 10, 1, 8, u32::MAX);
}

#[test]
fn leave_gives_up_every_entry(rt: HostRuntime) -> Result<(), Fail> {
    let mut account = enrolled(2, 9);
    let entries = [
        entry(10, Status::Affiliated, 1001, 1),
        entry(20, Status::Affiliating, 1600, 2),
        entry(30, Status::Affiliated, 1000, 3),
        entry(40, Status::Deaffiliated, 1600, 4),
    ];
    put(&rt, &mut account, 1, &entries)?;
    put(&rt, &mut account, 2, &entries)?;
    let mut out = no_requests();
    assert!(rt; leave_now(&mut account, 1, &mut out) == Ok(1));
    for (place, number) in [10, 20, 30, 40].iter().enumerate() {
        let left = entry(*number, Status::Deaffiliating, 1064, number / 10);
        check_entry(&rt, &account, place, left)?;
    }
    check_request(&rt, out[0], 10, 9, 2, u32::MAX);
    assert!(rt; leave_now(&mut account, 2, &mut out) == Ok(1));
    check_request(&rt, out[0], 10, 10, 0, 0);
    assert!(rt; out[1].expires == 5);
    Ok(())
}

#[test]
fn leave_refuses(rt: HostRuntime) {
    let mut account = Account::unused();
    let mut out = no_requests();
    let mut short = [out[0]; 23];
    assert!(rt; leave_now(&mut account, 0, &mut short) == Err(Refusal::OutgoingTooShort));
    assert!(rt; leave_now(&mut account, 5, &mut out) == Err(Refusal::NumberOutOfRange));
    assert!(rt; leave_now(&mut account, 1, &mut out) == Err(Refusal::NotEnrolled));
    account = enrolled(1, 4_294_967_272);
    assert!(rt; leave_now(&mut account, 1, &mut out) == Err(Refusal::SerialsUsedUp));
    account.enrolment = Some(Enrolment {
        limit: 1,
        next_serial: 4_294_967_271,
    });
    assert!(rt; leave_now(&mut account, 1, &mut out) == Ok(0));
}
