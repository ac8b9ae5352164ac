//! BEGIN, which hands out a pending affiliation.
ghost use Rattle.std.specs.Prelude.{◌≡◌, false, is_ok};
ghost use Rattle.serving.specs.States.{standings, OthersSame};
ghost use Rattle.serving.specs.Pendings.{serving_begin, standings_after_begin, handed_out};

use crate::pending::Pending;
use crate::state::Serving;
use mcptt::{ClientId, GroupId, McpttId, Refusal, ServedUser};
use notice::Begun;

#[tactic(auto, using(crate::proofs::Accounts::accounts))]
impl Serving {
    /// BEGIN where the serial is all that is wanted, as in a list of calls that names it later.
    ///
    /// Refuses with 5 a user, radio or group out of range, and with 8 and 11 to 14 what the user's
    /// account refuses.
    pub fn begin_of(
        &mut self,
        user: McpttId,
        radio: ClientId,
        group: GroupId,
    ) -> Result<u32, Refusal>
        ensures answer { result ≡ serving_begin self.old user.number radio.number group.number }
        ensures standings { standings self.new ≡ standings_after_begin self.old user.number radio.number group.number }
        ensures refused { is_ok result ≡ false → self.new ≡ self.old }
        ensures others { OthersSame user.number self.old self.new }
    {
        let served = ServedUser::try_from(user)?;
        let time = self.time;
        notice::begin(&mut self.accounts[served.index()], time, radio, group)
    }

    /// BEGIN: affiliates a radio implicitly, and hands out the pending affiliation, which must be spent.
    ///
    /// Refuses with 5 a user, radio or group out of range, and with 8 and 11 to 14 what the user's
    /// account refuses.
    pub fn begin(
        &mut self,
        user: McpttId,
        radio: ClientId,
        group: GroupId,
    ) -> Result<Pending, Refusal>
        ensures answer { result ≡ handed_out user.number radio.number group.number (serving_begin self.old user.number radio.number group.number) }
        ensures standings { standings self.new ≡ standings_after_begin self.old user.number radio.number group.number }
        ensures refused { is_ok result ≡ false → self.new ≡ self.old }
        ensures others { OthersSame user.number self.old self.new }
    {
        let serial = self.begin_of(user, radio, group)?;
        Ok(Pending::new(
            user,
            Begun {
                radio,
                group,
                serial,
            },
        ))
    }
}
