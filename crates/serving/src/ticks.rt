//! TICK, which alone moves the time.
ghost use Rattle.std.specs.Prelude.{◌≡◌, false, is_ok};
ghost use Rattle.mcptt.specs.Refusals.{answered};
ghost use Rattle.serving.specs.Ticks.{tick_refusal, time_after};

use crate::state::Serving;
use mcptt::Refusal;
use rows::Time;

impl Serving {
    /// TICK: it is now so many seconds after the start; the present time may be named again.
    ///
    /// Refuses with 2 a time before the present one, and with 3 one above 1,099,511,627,776.
    pub fn tick(&mut self, seconds: u64) -> Result<(), Refusal>
        ensures answer { result ≡ answered (tick_refusal self.old.time.seconds seconds) }
        ensures time { self.new.time.seconds ≡ time_after self.old.time.seconds seconds }
        ensures refused { is_ok result ≡ false → self.new ≡ self.old }
        ensures settings { self.new.settings ≡ self.old.settings }
        ensures accounts { self.new.accounts ≡ self.old.accounts }
    {
        if seconds < self.time.seconds {
            return Err(Refusal::TimeBackwards);
        }
        self.time = Time::try_from(seconds)?;
        Ok(())
    }
}
