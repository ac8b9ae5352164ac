//! The token of a pending affiliation.
ghost use Rattle.std.specs.Prelude.{◌≡◌, true};
ghost use Rattle.serving.specs.Pendings.{pending_of};

use mcptt::McpttId;
use notice::Begun;

/// An implicit affiliation that was begun. It stands outside the tables, and must be spent by COMPLETE
/// or CANCEL: no way out of the host's code may forget it.
pub struct Pending {
    user: McpttId,
    begun: Begun,
    /// Whether COMPLETE or CANCEL has spent it: a flag, because what asks a proof of each way of letting a
    /// token go is its `Drop`, and a contract that no call can meet is refused. BEGIN hands out none that is, and only `spent` marks one.
    settled: bool,
}

// A token that is not settled may not be let go.
impl Drop for Pending {
    fn drop(self)
        requires { self.settled ≡ true }
    {
        let Pending {
            user: _,
            begun: _,
            settled: _,
        } = self;
    }
}

impl Pending {
    pub(crate) fn new(user: McpttId, begun: Begun) -> Pending
        ensures { result ≡ pending_of user.number begun.radio.number begun.group.number begun.serial }
    {
        Pending {
            user,
            begun,
            settled: false,
        }
    }

    /// The serial that BEGIN took.
    pub fn serial(&self) -> u32
        ensures { result ≡ self.now.begun.serial }
    {
        self.begun.serial
    }

    /// The only way that a token ends.
    pub(crate) fn spent(mut self) -> (McpttId, Begun)
        ensures { (result.0 ≡ self.user) × (result.1 ≡ self.begun) }
    {
        self.settled = true;
        (self.user, self.begun)
    }
}
