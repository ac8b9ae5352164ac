//! How settings are made.
ghost use Rattle.std.specs.Prelude.{◌≡◌, false, ◌&&◌, MatchResult};
ghost use Rattle.mcptt.specs.Ranges.{is_timer, is_grant, usual_timer, usual_grant};
ghost use Rattle.mcptt.specs.declared.refusal.Refusal.TheVariants.{SettingOutOfRange};

use crate::refusal::Refusal;
use crate::setting::Settings;

impl Settings {
    /// The settings, or refusal 1 where timer F is not 1 to 3,600 or the grant under 2,592,000.
    pub fn of(timer: u32, grant: u32) -> Result<Settings, Refusal>
        ensures { MatchResult result (λ s. (s.timer ≡ timer) × (s.grant ≡ grant)) (λ e. ((is_timer timer && is_grant grant) ≡ false) × (e ≡ SettingOutOfRange)) }
    {
        match (timer, grant) {
            (1..=3600, 2_592_000..) => Ok(Settings { timer, grant }),
            _ => Err(Refusal::SettingOutOfRange),
        }
    }

    /// The settings of a gateway that was given none: F is 32, G 2,592,000.
    pub fn usual() -> Settings
        ensures timer { result.timer ≡ usual_timer }
        ensures grant { result.grant ≡ usual_grant }
    {
        Settings {
            timer: 32,
            grant: 2_592_000,
        }
    }
}
