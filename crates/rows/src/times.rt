//! How a time is made.
ghost use Rattle.std.specs.Prelude.{◌≡◌, false, MatchResult};
ghost use Rattle.mcptt.specs.declared.refusal.Refusal.TheVariants.{TimeTooFar};
ghost use Rattle.rows.specs.Times.{is_time};

use crate::time::Time;
use mcptt::Refusal;

impl Time {
    /// The start.
    pub fn start() -> Time
        ensures { result.seconds ≡ 0 }
    {
        Time { seconds: 0 }
    }
}

/// The time, or refusal 3 above 1,099,511,627,776.
impl TryFrom<u64> for Time {
    type Error = Refusal;

    ghost try_from_gives = { λ seconds r. MatchResult r (λ t. t.seconds ≡ seconds) (λ e. (is_time seconds ≡ false) × (e ≡ TimeTooFar)) };

    fn try_from(seconds: u64) -> Result<Time, Refusal> {
        match seconds {
            0..=1_099_511_627_776 => Ok(Time { seconds }),
            _ => Err(Refusal::TimeTooFar),
        }
    }
}
