//! NOTIFY, OUTCOME and STATUS of a user.
ghost use Rattle.std.specs.Prelude.{◌≡◌, false, is_ok};
ghost use Rattle.serving.specs.States.{standings, OthersSame};
ghost use Rattle.notice.specs.Notices.{said};
ghost use Rattle.serving.specs.Notices.{serving_notify, standings_after_notify, serving_outcome, standings_after_outcome, serving_status};

use crate::state::Serving;
use mcptt::{ClientId, GroupId, McpttId, Refusal, ServedUser};
use notice::{Event, Notice};

#[tactic(auto, using(crate::proofs::Accounts::accounts))]
impl Serving {
    /// NOTIFY: an owner's word on a group; the answer is how many statuses changed.
    ///
    /// Refuses with 5 a user, group or set of radios out of range, and with 8 a user who is not enrolled.
    pub fn notify(&mut self, user: McpttId, notice: Notice) -> Result<usize, Refusal>
        ensures answer { result ≡ serving_notify self.old user.number (said notice) }
        ensures standings { standings self.new ≡ standings_after_notify self.old user.number (said notice) }
        ensures refused { is_ok result ≡ false → self.new ≡ self.old }
        ensures others { OthersSame user.number self.old self.new }
    {
        let served = ServedUser::try_from(user)?;
        let time = self.time;
        notice::notify(&mut self.accounts[served.index()], time, notice)
    }

    /// OUTCOME: what became of the request with this serial; the answer is how many entries were removed.
    ///
    /// Refuses with 5 a user or SIP code out of range, and with 8 a user who is not enrolled.
    pub fn outcome(&mut self, user: McpttId, serial: u32, event: Event) -> Result<usize, Refusal>
        ensures answer { result ≡ serving_outcome self.old user.number serial event }
        ensures standings { standings self.new ≡ standings_after_outcome self.old user.number serial event }
        ensures refused { is_ok result ≡ false → self.new ≡ self.old }
        ensures others { OthersSame user.number self.old self.new }
    {
        let served = ServedUser::try_from(user)?;
        notice::outcome(&mut self.accounts[served.index()], serial, event)
    }

    /// STATUS: whether the radio holds the group.
    ///
    /// Refuses with 5 a user, radio or group out of range, and with 8 a user who is not enrolled.
    pub fn status(&self, user: McpttId, radio: ClientId, group: GroupId) -> Result<bool, Refusal>
        ensures { result ≡ serving_status self.now user.number radio.number group.number }
    {
        let served = ServedUser::try_from(user)?;
        notice::status(&self.accounts[served.index()], self.time, radio, group)
    }
}
