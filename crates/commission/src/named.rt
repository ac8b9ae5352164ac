//! Whether the documents of a roster name a user.
ghost use Rattle.std.specs.Prelude.{Decides};
ghost use Rattle.commission.specs.Users.{Named};

use mcptt::McpttId;
use roster::Catalogue;

/// Whether the document of some group names the user.
pub fn is_named<C: Catalogue>(roster: &C, user: McpttId) -> bool
    ensures { Decides result (Named (C.Roster.held roster.now) user.number) }
{
    (0..roster.carried_count())
        .filter_map(|place| roster.group_at(place))
        .any(|group| roster.names(group, user))
}
