//! The lowest user whom only the sheets name.
ghost use Rattle.commission.specs.Users.{OnlyOn, Lowest};
ghost use Rattle.commission.specs.declared.difference.Side.TheVariants.{Sheets};

use mcptt::McpttId;
use roster::Catalogue;
use serving::Serving;

/// The lowest user above `after` whom some document names and who is not enrolled.
pub fn lowest_extra<C: Catalogue>(serving: &Serving, roster: &C, after: u32) -> Option<McpttId>
    ensures { Lowest (OnlyOn Sheets serving.now (C.Roster.held roster.now)) after result }
{
    (0..roster.carried_count())
        .filter_map(|place| roster.group_at(place))
        .flat_map(|group| {
            (0..roster.member_count(group)).filter_map(move |place| roster.member_at(group, place))
        })
        .filter(|user| user.number > after && !serving.is_enrolled(*user))
        .min()
}
