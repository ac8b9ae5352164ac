//! A sheet placed in a roster.
ghost use Rattle.roster.specs.Meaning.{Replaced};
ghost use Rattle.roster.specs.Placing.{unplaced};
ghost use Rattle.sheet.specs.Decoded.{group_of, content_of};
ghost use Rattle.std.specs.Prelude.{◌≡◌, Some, None, MatchResult};

use crate::roster::Roster;
use mcptt::{GroupId, Refusal};
use sheet::read;

/// Reads a sheet and puts its document in place of the group's former one, if any. Answers the group,
/// or refuses with 18, 19 or 20 as the reader does, then 21 as the roster does; then all stays.
pub fn place_sheet<R: Roster>(roster: &mut R, bytes: &[u8]) -> Result<GroupId, Refusal>
    ensures { let held = R.Roster.held roster.old in
        let carried = R.Roster.carried roster.old in
        MatchResult result
        (λ g. (unplaced R.Roster.GROUPS held carried bytes.now ≡ None)
        × (g.number ≡ group_of bytes.now)
        × Replaced R.Roster.GROUPS held (R.Roster.held roster.new) carried
        (group_of bytes.now) (content_of bytes.now))
        (λ e. (unplaced R.Roster.GROUPS held carried bytes.now ≡ Some e)
        × (roster.new ≡ roster.old)) }
{
    let document = read(bytes)?;
    roster.replace(&document)?;
    Ok(document.group)
}
