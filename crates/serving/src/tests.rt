//! The serving calls by examples: each refusal of ENROL and TICK, the edges of their ranges, and one
//! user's run.
use crate::Serving;
use change::Wish;
use mcptt::{ClientId, GroupId, McpttId, Refusal, Settings};
use notice::{Begun, Event, Notice};
use preference::{PriorityRow, PriorityTable};
use rows::Request;
use std::test::Fail;

const USER: McpttId = McpttId { number: 7 };

const ONE: ClientId = ClientId { number: 1 };

const TWO: ClientId = ClientId { number: 2 };

fn group(number: u32) -> GroupId {
    GroupId { number }
}

/// 0 for a call that is done, or the number of its refusal.
fn number(answer: Result<(), Refusal>) -> u8 {
    answer.err().map_or(0, |refusal| refusal.number())
}

fn enrolled(serving: &mut Serving, user: u32, limit: u32, first_serial: u32) -> u8 {
    number(serving.enrol(McpttId { number: user }, limit, first_serial))
}

fn ticked(serving: &mut Serving, seconds: u64) -> u8 {
    number(serving.tick(seconds))
}

#[test]
fn refusals_of_enrol(rt: HostRuntime) {
    let mut serving = Serving::new(Settings::usual());
    assert!(rt; enrolled(&mut serving, 0, 0, 0) == 5 && enrolled(&mut serving, 65, 1, 1) == 5);
    assert!(rt; enrolled(&mut serving, 7, 0, 1) == 7 && enrolled(&mut serving, 7, 17, 1) == 7);
    assert!(rt; enrolled(&mut serving, 7, 2, 0) == 7);
    assert!(rt; !serving.is_enrolled(USER) && serving.enrolled() == 0);
    assert!(rt; enrolled(&mut serving, 7, 1, 1) == 0);
    assert!(rt; enrolled(&mut serving, 7, 0, 0) == 6);
    assert!(rt; enrolled(&mut serving, 64, 16, u32::MAX) == 0);
    assert!(rt; serving.is_enrolled(USER) && serving.enrolled() == 2);
    assert!(rt; serving.is_enrolled(McpttId { number: 64 }));
    assert!(rt; !serving.is_enrolled(McpttId { number: 1 }));
    assert!(rt; !serving.is_enrolled(McpttId { number: 71 }));
}

#[test]
fn refusals_of_tick(rt: HostRuntime) {
    let mut serving = Serving::new(Settings::usual());
    assert!(rt; ticked(&mut serving, 0) == 0 && ticked(&mut serving, 1_000) == 0);
    assert!(rt; ticked(&mut serving, 1_000) == 0 && ticked(&mut serving, 999) == 2);
    assert!(rt; ticked(&mut serving, 1_099_511_627_777) == 3);
    assert!(rt; serving.time().seconds == 1_000);
    assert!(rt; ticked(&mut serving, 1_099_511_627_776) == 0);
    assert!(rt; ticked(&mut serving, 1_099_511_627_775) == 2);
}

/// Groups 10, 20 and 30 with priorities 1, 2 and 3.
fn priorities() -> PriorityTable {
    let mut table = PriorityTable::empty();
    for (row, (number, priority)) in table.rows.iter_mut().zip([(30, 3), (10, 1), (20, 2)]) {
        *row = PriorityRow {
            group: group(number),
            priority,
        };
    }
    table
}

/// The wish of radio 1 for 600 seconds.
fn wish(wanted: &[GroupId]) -> Wish<'_> {
    Wish {
        radio: ONE,
        interval: 600,
        wanted,
    }
}

fn notice(number: u32, radios: u8, interval: u32, serial: u32) -> Notice {
    Notice {
        group: group(number),
        radios,
        interval,
        serial: Some(serial),
    }
}

fn blank() -> Request {
    Request {
        user: McpttId { number: 0 },
        group: group(0),
        serial: 0,
        radios: 0,
        expires: 0,
    }
}

/// The number of the refusal of BEGIN, or 0; a pending affiliation is cancelled.
fn begun(serving: &mut Serving, radio: ClientId, group: GroupId) -> u8 {
    match serving.begin(USER, radio, group) {
        Ok(pending) => {
            serving.cancel(pending);
            0
        }
        Err(refusal) => refusal.number(),
    }
}

#[test]
fn a_run_of_one_user(rt: HostRuntime) {
    let order = priorities();
    let mut serving = Serving::new(Settings::usual());
    let mut out = [blank(); 24];
    assert!(rt; ticked(&mut serving, 1_000) == 0 && enrolled(&mut serving, 7, 2, 1) == 0);
    let wanted = [group(30), group(10), group(20)];
    assert!(rt;
        serving.change(&order, USER, wish(&wanted), &mut out[..23])
            == Err(Refusal::OutgoingTooShort)
    );
    assert!(rt; serving.change(&order, USER, wish(&wanted), &mut out) == Ok((2, 1)));
    assert!(rt; out[0].group == group(10) && out[0].serial == 1 && out[1].serial == 2);
    assert!(rt; serving.notify(USER, notice(20, 1, 600, 1)) == Ok(0));
    assert!(rt; serving.notify(USER, notice(10, 1, 2_592_000, 1)) == Ok(1));
    assert!(rt; serving.change(&order, USER, wish(&[group(20)]), &mut out) == Ok((1, 0)));
    assert!(rt; out[0].serial == 3 && out[0].expires == 0 && out[1].serial == 2);
    assert!(rt; begun(&mut serving, TWO, group(50)) == 0);
    assert!(rt; begun(&mut serving, ONE, group(20)) == 13);
    assert!(rt; serving.status(USER, TWO, group(50)) == Ok(false));
    assert!(rt; serving.status(USER, ONE, group(20)) == Ok(true));
    assert!(rt; serving.outcome(USER, 2, Event::Rejected(404)) == Ok(1));
    assert!(rt; serving.status(USER, ONE, group(20)) == Ok(false));
    assert!(rt; serving.leave(USER, ONE, &mut out) == Ok(0));
}

#[test]
fn a_pending_affiliation_is_completed(rt: HostRuntime) -> Result<(), Fail> {
    let mut serving = Serving::new(Settings::usual());
    assert!(rt; enrolled(&mut serving, 7, 1, 4) == 0);
    let Ok(pending) = serving.begin(USER, TWO, group(50)) else {
        return Err(Fail::new("refused"));
    };
    let serial = pending.serial();
    let other = begun(&mut serving, ONE, group(60));
    let done = serving.complete(pending);
    assert!(rt; serial == 4 && other == 14 && done);
    let begun = Begun {
        radio: TWO,
        group: group(50),
        serial: 4,
    };
    assert!(rt; serving.cancel_of(USER, begun) == Ok(false));
    assert!(rt;
        serving.complete_of(McpttId { number: 65 }, begun) == Err(Refusal::NumberOutOfRange)
    );
    assert!(rt; serving.status(USER, TWO, group(50)) == Ok(true));
    Ok(())
}
