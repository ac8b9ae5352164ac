//! CANCEL of a pending affiliation, by its numbers and by its token.
ghost use Rattle.std.specs.Prelude.{◌≡◌, false};
ghost use Rattle.notice.specs.Implicit.{is_yes};
ghost use Rattle.serving.specs.States.{standings, OthersSame};
ghost use Rattle.serving.specs.Pendings.{serving_cancel, standings_after_cancel};

use crate::pending::Pending;
use crate::state::Serving;
use mcptt::{McpttId, Refusal, ServedUser};
use notice::Begun;

#[tactic(auto, using(crate::proofs::Accounts::accounts))]
impl Serving {
    /// CANCEL of any user, radio, group and serial: removes that pending affiliation, live or not; the
    /// answer is whether there was one.
    ///
    /// Refuses with 5 a user, radio or group out of range.
    pub fn cancel_of(&mut self, user: McpttId, begun: Begun) -> Result<bool, Refusal>
        ensures answer { result ≡ serving_cancel self.old user.number begun.radio.number begun.group.number begun.serial }
        ensures standings { standings self.new ≡ standings_after_cancel self.old user.number begun.radio.number begun.group.number begun.serial }
        ensures stays { is_yes result ≡ false → self.new ≡ self.old }
        ensures others { OthersSame user.number self.old self.new }
    {
        let served = ServedUser::try_from(user)?;
        notice::cancel(&mut self.accounts[served.index()], begun)
    }

    /// CANCEL: spends the pending affiliation and removes its entry; no where that is gone.
    pub fn cancel(&mut self, pending: Pending) -> bool
        ensures answer { result ≡ is_yes (serving_cancel self.old pending.user.number pending.begun.radio.number pending.begun.group.number pending.begun.serial) }
        ensures standings { standings self.new ≡ standings_after_cancel self.old pending.user.number pending.begun.radio.number pending.begun.group.number pending.begun.serial }
        ensures stays { result ≡ false → self.new ≡ self.old }
        ensures others { OthersSame pending.user.number self.old self.new }
    {
        let (user, begun) = pending.spent();
        self.cancel_of(user, begun).unwrap_or(false)
    }
}
