//! COMPLETE of a pending affiliation, by its numbers and by its token.
ghost use Rattle.std.specs.Prelude.{◌≡◌, false};
ghost use Rattle.notice.specs.Implicit.{is_yes};
ghost use Rattle.serving.specs.States.{standings, OthersSame};
ghost use Rattle.serving.specs.Pendings.{serving_complete, standings_after_complete};

use crate::pending::Pending;
use crate::state::Serving;
use mcptt::{McpttId, Refusal, ServedUser};
use notice::Begun;

#[tactic(auto, using(crate::proofs::Accounts::accounts))]
impl Serving {
    /// COMPLETE of any user, radio, group and serial: makes that pending affiliation an affiliation, if it
    /// is live; the answer is whether there was one.
    ///
    /// Refuses with 5 a user, radio or group out of range.
    pub fn complete_of(&mut self, user: McpttId, begun: Begun) -> Result<bool, Refusal>
        ensures answer { result ≡ serving_complete self.old user.number begun.radio.number begun.group.number begun.serial }
        ensures standings { standings self.new ≡ standings_after_complete self.old user.number begun.radio.number begun.group.number begun.serial }
        ensures stays { is_yes result ≡ false → self.new ≡ self.old }
        ensures others { OthersSame user.number self.old self.new }
    {
        let served = ServedUser::try_from(user)?;
        let time = self.time;
        notice::complete(&mut self.accounts[served.index()], time, begun)
    }

    /// COMPLETE: spends the pending affiliation after a 2xx answer; no where its entry is gone or not live.
    pub fn complete(&mut self, pending: Pending) -> bool
        ensures answer { result ≡ is_yes (serving_complete self.old pending.user.number pending.begun.radio.number pending.begun.group.number pending.begun.serial) }
        ensures standings { standings self.new ≡ standings_after_complete self.old pending.user.number pending.begun.radio.number pending.begun.group.number pending.begun.serial }
        ensures stays { result ≡ false → self.new ≡ self.old }
        ensures others { OthersSame pending.user.number self.old self.new }
    {
        let (user, begun) = pending.spent();
        self.complete_of(user, begun).unwrap_or(false)
    }
}
