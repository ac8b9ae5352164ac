//! What CHANGE and LEAVE refuse, and what they are going to do.
ghost use Rattle.std.specs.Prelude.{◌≡◌, ◌≤◌, Some, None, MatchResult, is_some, nat_lt};
ghost use Rattle.rows.specs.Standings.{standing};
ghost use Rattle.table.specs.Kept.{items};
ghost use Rattle.change.specs.Changes.{moment, change_of, leave_of, first_refusal, change_refusal, leave_refusal, change_moves, leave_moves, turned_down_count, last_serial};

use crate::asked::{Clock, Wish};
use crate::keeping::{Choice, may_want};
use crate::planned::Plan;
use mcptt::{ClientId, Radio, Refusal, ServedUser};
use preference::Preference;
use rows::{Account, Enrolment};

/// The radio and the user's enrolment, or the refusals 4, 5 and 8.
fn check(account: &Account, radio: ClientId, places: usize) -> Result<(Radio, Enrolment), Refusal>
    ensures { MatchResult result
        (λ k. (k.0.number ≡ radio.number) × (24 ≤ places) × (account.now.enrolment ≡ Some k.1)
        × (first_refusal places radio.number (is_some account.now.enrolment) None ≡ None))
        (λ e. first_refusal places radio.number (is_some account.now.enrolment) None ≡ Some e) }
{
    if places < 24 {
        return Err(Refusal::OutgoingTooShort);
    }
    let radio = Radio::try_from(radio)?;
    let enrolment = account.enrolled()?;
    Ok((radio, enrolment))
}

/// Whether 24 requests can no longer be numbered.
fn serials_used_up(enrolment: Enrolment) -> bool
    ensures { result ≡ nat_lt last_serial enrolment.next_serial }
{
    enrolment.next_serial > 4_294_967_271
}

/// What LEAVE is going to do, or its refusal.
pub(crate) fn plan_leave(
    account: &Account,
    user: ServedUser,
    radio: ClientId,
    clock: Clock,
    places: usize,
) -> Result<Plan, Refusal>
    ensures { MatchResult result
        (λ p. (leave_refusal (standing account.now) (leave_of user.number radio.number places) ≡ None)
        × (items p.moves ≡ leave_moves clock.time.seconds clock.timer (standing account.now) (leave_of user.number radio.number places))
        × (p.radio.number ≡ radio.number) × (account.now.enrolment ≡ Some p.enrolment) × (24 ≤ places))
        (λ e. leave_refusal (standing account.now) (leave_of user.number radio.number places) ≡ Some e) }
{
    let (radio, enrolment) = check(account, radio, places)?;
    if serials_used_up(enrolment) {
        return Err(Refusal::SerialsUsedUp);
    }
    Ok(Plan {
        radio,
        enrolment,
        moves: clock.span(0).left_row(account.row(radio)),
        turned_down: 0,
    })
}

/// What CHANGE is going to do, or its refusal.
pub(crate) fn plan_change<P: Preference>(
    account: &Account,
    preference: &P,
    user: ServedUser,
    clock: Clock,
    wish: Wish<'_>,
    places: usize,
) -> Result<Plan, Refusal>
    ensures { MatchResult result
        (λ p. (change_refusal (moment clock.time.seconds clock.timer (P.before preference.now user.number)) (standing account.now) (change_of user.number wish.entry.radio.number wish.entry.interval wish.entry.wanted.now places) ≡ None)
        × (items p.moves ≡ change_moves (moment clock.time.seconds clock.timer (P.before preference.now user.number)) (standing account.now) (change_of user.number wish.entry.radio.number wish.entry.interval wish.entry.wanted.now places))
        × (p.turned_down ≡ turned_down_count (moment clock.time.seconds clock.timer (P.before preference.now user.number)) (standing account.now) (change_of user.number wish.entry.radio.number wish.entry.interval wish.entry.wanted.now places))
        × (p.radio.number ≡ wish.entry.radio.number) × (account.now.enrolment ≡ Some p.enrolment) × (24 ≤ places))
        (λ e. change_refusal (moment clock.time.seconds clock.timer (P.before preference.now user.number)) (standing account.now) (change_of user.number wish.entry.radio.number wish.entry.interval wish.entry.wanted.now places) ≡ Some e) }
{
    let (radio, enrolment) = check(account, wish.radio, places)?;
    if wish.interval == 0 {
        return Err(Refusal::IntervalZero);
    }
    if !may_want(wish.wanted) {
        return Err(Refusal::WantedListFaulty);
    }
    if serials_used_up(enrolment) {
        return Err(Refusal::SerialsUsedUp);
    }
    let others = account.held_elsewhere(radio, clock.time.seconds);
    let choice = Choice {
        preference,
        user,
        limit: enrolment.limit,
        others: &others,
        wanted: wish.wanted,
    };
    let chosen = choice.kept();
    let moves = clock
        .span(wish.interval)
        .changed_row(account.row(radio), &chosen);
    if moves.len() > 24 {
        return Err(Refusal::RowTooLong);
    }
    Ok(Plan {
        radio,
        enrolment,
        moves,
        turned_down: wish.wanted.len() - chosen.len(),
    })
}
