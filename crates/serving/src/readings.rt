//! What the serving half tells of itself: its settings, its time, and who is enrolled.
ghost use Rattle.std.specs.Prelude.{◌≡◌};
ghost use Rattle.serving.specs.Enrolments.{is_enrolled, enrolled_of};

use crate::state::Serving;
use mcptt::{McpttId, ServedUser, Settings};
use rows::Time;

impl Serving {
    /// Timer F and the grant G.
    pub fn settings(&self) -> Settings
        ensures { result ≡ self.now.settings }
    {
        self.settings
    }

    /// The time.
    pub fn time(&self) -> Time
        ensures { result ≡ self.now.time }
    {
        self.time
    }

    /// Whether a user is enrolled; a number outside 1 to 64 is nobody's.
    pub fn is_enrolled(&self, user: McpttId) -> bool
        ensures { result ≡ is_enrolled self.now user.number }
    {
        ServedUser::try_from(user).is_ok_and(|served| self.accounts[served.index()]
            .enrolment
            .is_some())
    }

    /// How many users are enrolled.
    pub fn enrolled(&self) -> usize
        ensures { result ≡ enrolled_of self.now }
    {
        self.accounts
            .iter()
            .filter(|account| account.enrolment.is_some())
            .count()
    }
}
