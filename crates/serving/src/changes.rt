//! CHANGE and LEAVE of a user.
ghost use Rattle.std.specs.Prelude.{◌≡◌, false, length, is_ok};
ghost use Rattle.change.specs.Changes.{change_of, leave_of};
ghost use Rattle.serving.specs.States.{standings, OthersSame};
ghost use Rattle.serving.specs.Calls.{serving_change, standings_after_change, outgoing_after_change, serving_leave, standings_after_leave, outgoing_after_leave};

use crate::state::Serving;
use change::{Clock, Wish};
use mcptt::{ClientId, McpttId, Refusal, ServedUser};
use preference::Preference;
use rows::Request;

/// A call that sends may fill so many places of the outgoing list.
const PLACES: usize = 24;

#[tactic(auto, using(crate::proofs::Accounts::accounts))]
impl Serving {
    /// The time, with timer F.
    fn clock(&self) -> Clock
        ensures time { result.time ≡ self.now.time }
        ensures timer { result.timer ≡ self.now.settings.timer }
    {
        Clock {
            time: self.time,
            timer: self.settings.timer,
        }
    }

    /// CHANGE: changes what a radio wants, and answers how many requests were sent and how many wanted
    /// groups were turned down.
    ///
    /// Refuses with 4 an outgoing list under 24 places, with 5 a user or radio out of range, and with 8
    /// to 12 what the user's account refuses.
    pub fn change<P: Preference>(
        &mut self,
        preference: &P,
        user: McpttId,
        wish: Wish<'_>,
        out: &mut [Request],
    ) -> Result<(usize, usize), Refusal>
        ensures answer { result ≡ serving_change self.old (P.Preference.before preference.now) (change_of user.number wish.entry.radio.number wish.entry.interval wish.entry.wanted.now (length out.old)) }
        ensures standings { standings self.new ≡ standings_after_change self.old (P.Preference.before preference.now) (change_of user.number wish.entry.radio.number wish.entry.interval wish.entry.wanted.now (length out.old)) }
        ensures out { out.new ≡ outgoing_after_change self.old (P.Preference.before preference.now) (change_of user.number wish.entry.radio.number wish.entry.interval wish.entry.wanted.now (length out.old)) out.old }
        ensures refused { is_ok result ≡ false → self.new ≡ self.old }
        ensures others { OthersSame user.number self.old self.new }
    {
        if out.len() < PLACES {
            return Err(Refusal::OutgoingTooShort);
        }
        let served = ServedUser::try_from(user)?;
        let clock = self.clock();
        change::change(
            &mut self.accounts[served.index()],
            preference,
            served,
            clock,
            wish,
            out,
        )
    }

    /// LEAVE: gives up all that a radio has, and answers how many requests were sent.
    ///
    /// Refuses with 4 an outgoing list under 24 places, with 5 a user or radio out of range, with 8 a
    /// user who is not enrolled, and with 11 one whose serials are used up.
    pub fn leave(
        &mut self,
        user: McpttId,
        radio: ClientId,
        out: &mut [Request],
    ) -> Result<usize, Refusal>
        ensures answer { result ≡ serving_leave self.old (leave_of user.number radio.number (length out.old)) }
        ensures standings { standings self.new ≡ standings_after_leave self.old (leave_of user.number radio.number (length out.old)) }
        ensures out { out.new ≡ outgoing_after_leave self.old (leave_of user.number radio.number (length out.old)) out.old }
        ensures refused { is_ok result ≡ false → self.new ≡ self.old }
        ensures others { OthersSame user.number self.old self.new }
    {
        if out.len() < PLACES {
            return Err(Refusal::OutgoingTooShort);
        }
        let served = ServedUser::try_from(user)?;
        let clock = self.clock();
        change::leave(
            &mut self.accounts[served.index()],
            served,
            radio,
            clock,
            out,
        )
    }
}
