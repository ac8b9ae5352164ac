//! The comparison.
ghost use Rattle.commission.specs.Users.{OnlyOn, Lowest, LowestDifference, Compares};
ghost use Rattle.commission.specs.declared.difference.Side.TheVariants.{RadioList, Sheets};

use crate::difference::{Difference, Side};
use crate::extra::lowest_extra;
use crate::named::is_named;
use mcptt::McpttId;
use roster::Catalogue;
use serving::Serving;

/// The lowest user above `after` who is enrolled and whom no document names.
// a struct for the three parameters would be longer than the two functions that share them
fn lowest_missing<C: Catalogue>(serving: &Serving, roster: &C, after: u32) -> Option<McpttId>
    ensures { Lowest (OnlyOn RadioList serving.now (C.Roster.held roster.now)) after result }
{
    (1..=64).map(|number| McpttId { number }).find(|user| {
        user.number > after && serving.is_enrolled(*user) && !is_named(roster, *user)
    })
}

/// The lowest user above `after` whom one side names and the other does not.
pub fn next_difference<C: Catalogue>(
    serving: &Serving,
    roster: &C,
    after: u32,
) -> Option<Difference>
    ensures { LowestDifference serving.now (C.Roster.held roster.now) after result }
{
    let missing = lowest_missing(serving, roster, after).map(|user| Difference {
        user,
        side: Side::RadioList,
    });
    let extra = lowest_extra(serving, roster, after).map(|user| Difference {
        user,
        side: Side::Sheets,
    });
    missing.into_iter().chain(extra).min()
}

/// How many users the radio list and the sheets name, where these are the same, else the lowest
/// difference.
pub fn compare<C: Catalogue>(serving: &Serving, roster: &C) -> Result<usize, Difference>
    ensures { Compares serving.now (C.Roster.held roster.now) result }
{
    next_difference(serving, roster, 0).map_or_else(|| Ok(serving.enrolled()), Err)
}
