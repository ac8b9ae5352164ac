//! The two calls.
ghost use Rattle.std.specs.Prelude.{◌≡◌, false, length, is_ok};
ghost use Rattle.rows.specs.Standings.{standing, SameOthers};
ghost use Rattle.change.specs.Changes.{moment, change_of, leave_of, change_answer, after_change, out_after_change, leave_answer, after_leave, out_after_leave};

use crate::asked::{Clock, Wish};
use crate::checks::{plan_change, plan_leave};
use crate::sending::carry_out;
use mcptt::{ClientId, Refusal, ServedUser};
use preference::Preference;
use rows::{Account, Request};

/// Changes what a radio wants, and answers how many requests were sent and how many wanted groups
/// were turned down.
#[tactic(auto, unfolding(crate::specs::Changes::change_answer, crate::specs::Changes::after_change, crate::specs::Changes::out_after_change))]
pub fn change<P: Preference>(
    account: &mut Account,
    preference: &P,
    user: ServedUser,
    clock: Clock,
    wish: Wish<'_>,
    out: &mut [Request],
) -> Result<(usize, usize), Refusal>
    ensures answer { result ≡ change_answer (moment clock.time.seconds clock.timer (P.before preference.now user.number)) (standing account.old) (change_of user.number wish.entry.radio.number wish.entry.interval wish.entry.wanted.now (length out.old)) }
    ensures standing { standing account.new ≡ after_change (moment clock.time.seconds clock.timer (P.before preference.now user.number)) (standing account.old) (change_of user.number wish.entry.radio.number wish.entry.interval wish.entry.wanted.now (length out.old)) }
    ensures out { out.new ≡ out_after_change (moment clock.time.seconds clock.timer (P.before preference.now user.number)) (standing account.old) (change_of user.number wish.entry.radio.number wish.entry.interval wish.entry.wanted.now (length out.old)) out.old }
    ensures refused { is_ok result ≡ false → account.new ≡ account.old }
    ensures others { SameOthers wish.entry.radio.number account.old account.new }
{
    let plan = plan_change(account, preference, user, clock, wish, out.len())?;
    let sent = carry_out(account, user, &plan, clock.time, out);
    Ok((sent, plan.turned_down))
}

/// Gives up all that a radio has, and answers how many requests were sent.
#[tactic(auto, unfolding(crate::specs::Changes::leave_answer, crate::specs::Changes::after_leave, crate::specs::Changes::out_after_leave))]
pub fn leave(
    account: &mut Account,
    user: ServedUser,
    radio: ClientId,
    clock: Clock,
    out: &mut [Request],
) -> Result<usize, Refusal>
    ensures answer { result ≡ leave_answer clock.time.seconds clock.timer (standing account.old) (leave_of user.number radio.number (length out.old)) }
    ensures standing { standing account.new ≡ after_leave clock.time.seconds clock.timer (standing account.old) (leave_of user.number radio.number (length out.old)) }
    ensures out { out.new ≡ out_after_leave clock.time.seconds clock.timer (standing account.old) (leave_of user.number radio.number (length out.old)) out.old }
    ensures refused { is_ok result ≡ false → account.new ≡ account.old }
    ensures others { SameOthers radio.number account.old account.new }
{
    let plan = plan_leave(account, user, radio, clock, out.len())?;
    Ok(carry_out(account, user, &plan, clock.time, out))
}
