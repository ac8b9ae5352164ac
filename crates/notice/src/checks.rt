//! The check of the numbers that name a radio and a group.
ghost use Rattle.std.specs.Prelude.{◌≡◌, true, false, ◌&&◌, MatchResult};
ghost use Rattle.mcptt.specs.Ranges.{is_radio, is_group};
ghost use Rattle.mcptt.specs.declared.refusal.Refusal.TheVariants.{NumberOutOfRange};

use mcptt::{ClientId, Group, GroupId, Radio, Refusal};

/// The radio, or refusal 5 where it or the group is out of range.
pub(crate) fn checked(radio: ClientId, group: GroupId) -> Result<Radio, Refusal>
    ensures { MatchResult result (λ x. (x.number ≡ radio.number) × ((is_radio radio.number && is_group group.number) ≡ true)) (λ e. ((is_radio radio.number && is_group group.number) ≡ false) × (e ≡ NumberOutOfRange)) }
{
    let checked_radio = Radio::try_from(radio)?;
    Group::try_from(group)?;
    Ok(checked_radio)
}
