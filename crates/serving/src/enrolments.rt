//! The unused gateway, and ENROL.
ghost use Rattle.std.specs.Prelude.{◌≡◌, false, replicate, is_ok};
ghost use Rattle.mcptt.specs.Refusals.{answered};
ghost use Rattle.rows.specs.Standings.{standing, unused};
ghost use Rattle.serving.specs.States.{standings, OthersSame};
ghost use Rattle.serving.specs.Enrolments.{enrolled_with, enrol_refusal, after_enrol};

use crate::state::Serving;
use mcptt::{McpttId, Refusal, ServedUser, Settings};
use rows::{Account, Enrolment, Time};

/// Gives an account the limit and the next serial.
fn enrol(account: &mut Account, limit: u32, first_serial: u32)
    ensures { standing account.new ≡ enrolled_with (standing account.old) limit first_serial }
{
    account.enrolment = Some(Enrolment {
        limit,
        next_serial: first_serial,
    });
}

#[tactic(auto, using(crate::proofs::Accounts::accounts))]
impl Serving {
    /// The serving half of an unused gateway: the time is 0, and nobody is enrolled.
    pub fn new(settings: Settings) -> Serving
        ensures settings { result.settings ≡ settings }
        ensures time { result.time.seconds ≡ 0 }
        ensures standings { standings result ≡ replicate 64 unused }
    {
        Serving {
            settings,
            time: Time::start(),
            accounts: [Account::unused(); 64],
        }
    }

    /// ENROL: gives a user the limit N2 and the first serial.
    ///
    /// Refuses with 5 a user outside 1 to 64, with 6 one who is enrolled already, and with 7 a limit
    /// outside 1 to 16 or a first serial of 0.
    pub fn enrol(&mut self, user: McpttId, limit: u32, first_serial: u32) -> Result<(), Refusal>
        ensures answer { result ≡ answered (enrol_refusal self.old user.number limit first_serial) }
        ensures standings { standings self.new ≡ after_enrol self.old user.number limit first_serial }
        ensures refused { is_ok result ≡ false → self.new ≡ self.old }
        ensures others { OthersSame user.number self.old self.new }
    {
        let served = ServedUser::try_from(user)?;
        let place = served.index();
        if self.accounts[place].enrolment.is_some() {
            return Err(Refusal::AlreadyEnrolled);
        }
        if limit == 0 || limit > 16 || first_serial == 0 {
            return Err(Refusal::EnrolmentOutOfRange);
        }
        enrol(&mut self.accounts[place], limit, first_serial);
        Ok(())
    }
}
