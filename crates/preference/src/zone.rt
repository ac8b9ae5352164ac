//! Groups by how far their zone lies from the user's home zone.
ghost use Rattle.std.specs.Prelude.{◌≡◌, replicate};
ghost use Rattle.preference.specs.Orders.{by_rank};
ghost use Rattle.preference.specs.Zones.{far_from_home};
ghost use Rattle.std.proofs.Common.{rules};

use crate::order::Preference;
use mcptt::{GroupId, ServedUser};

/// The smaller distance between the zone of the group and the home zone of the user comes first,
/// then the smaller group. User 1 has the first home.
#[derive(Clone, Copy, Debug, PartialEq, Eq)]
pub struct ZoneOrder {
    pub homes: [u16; 64],
}

impl ZoneOrder {
    /// The order for users who all have one home zone.
    pub fn all_home(zone: u16) -> ZoneOrder
        ensures { result.homes ≡ replicate 64 zone }
    {
        ZoneOrder { homes: [zone; 64] }
    }

    /// How far the zone of a group lies from the home zone of a user.
    fn distance(&self, user: ServedUser, group: GroupId) -> u16
        ensures { result ≡ far_from_home self.now.homes user.number group.number }
    {
        let home = self.homes[user.index()];
        let zone = (group.number / 65536) as u16;
        zone.abs_diff(home)
    }
}

impl Preference for ZoneOrder {
    ghost before = { λ z u a b. by_rank (far_from_home z.homes u) a b };

    ghost irreflexive = { Prim.search rules };

    ghost decisive = { Prim.search rules };

    ghost transitive = { Prim.search rules };

    fn comes_before(&self, user: ServedUser, a: GroupId, b: GroupId) -> bool {
        (self.distance(user, a), a) < (self.distance(user, b), b)
    }
}
