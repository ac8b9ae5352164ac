//! The checks that make a checked identity of a number that was handed in.
ghost use Rattle.std.specs.Prelude.{◌≡◌, ◌-◌, ◌<◌};
ghost use Rattle.mcptt.specs.Ranges.{is_user, is_served, is_radio, is_group, is_radio_set, has_radio, set_of};
ghost use Rattle.mcptt.specs.Refusals.{Checks};

use crate::checked::{Group, Radio, RadioSet, ServedUser, User};
use crate::identity::{ClientId, GroupId, McpttId};
use crate::refusal::Refusal;

/// The user, or refusal 5 for the number 0.
impl TryFrom<McpttId> for User {
    type Error = Refusal;

    ghost try_from_gives = { λ id r. Checks (λ x. x.number) is_user id.number r };

    fn try_from(id: McpttId) -> Result<User, Refusal> {
        match id.number {
            0 => Err(Refusal::NumberOutOfRange),
            number => Ok(User { number }),
        }
    }
}

/// The user, or refusal 5 for a number outside 1 to 64.
impl TryFrom<McpttId> for ServedUser {
    type Error = Refusal;

    ghost try_from_gives = { λ id r. Checks (λ x. x.number) is_served id.number r };

    fn try_from(id: McpttId) -> Result<ServedUser, Refusal> {
        match id.number {
            number @ 1..=64 => Ok(ServedUser { number }),
            _ => Err(Refusal::NumberOutOfRange),
        }
    }
}

/// The radio, or refusal 5 for a number outside 1 to 4.
impl TryFrom<ClientId> for Radio {
    type Error = Refusal;

    ghost try_from_gives = { λ id r. Checks (λ x. x.number) is_radio id.number r };

    fn try_from(id: ClientId) -> Result<Radio, Refusal> {
        match id.number {
            number @ 1..=4 => Ok(Radio { number }),
            _ => Err(Refusal::NumberOutOfRange),
        }
    }
}

/// The group, or refusal 5 for the number 0.
impl TryFrom<GroupId> for Group {
    type Error = Refusal;

    ghost try_from_gives = { λ id r. Checks (λ x. x.number) is_group id.number r };

    fn try_from(id: GroupId) -> Result<Group, Refusal> {
        match id.number {
            0 => Err(Refusal::NumberOutOfRange),
            number => Ok(Group { number }),
        }
    }
}

/// The set, or refusal 5 for a number above 15.
impl TryFrom<u8> for RadioSet {
    type Error = Refusal;

    ghost try_from_gives = { λ bits r. Checks (λ x. x.bits) is_radio_set bits r };

    fn try_from(bits: u8) -> Result<RadioSet, Refusal> {
        match bits {
            0..=15 => Ok(RadioSet { bits }),
            _ => Err(Refusal::NumberOutOfRange),
        }
    }
}

impl ServedUser {
    /// Where the user stands among the 64, counted from 0.
    pub fn index(self) -> usize
        ensures place { result ≡ self.number - 1 }
        ensures within { result < 64 }
    {
        self.number as usize - 1
    }
}

impl Radio {
    /// Where the radio stands among the four of its user, counted from 0.
    pub fn index(self) -> usize
        ensures place { result ≡ self.number - 1 }
        ensures within { result < 4 }
    {
        (self.number - 1) as usize
    }
}

impl RadioSet {
    /// The set of those radios whose mark is set.
    pub fn marked(one: bool, two: bool, three: bool, four: bool) -> RadioSet
        ensures { result.bits ≡ set_of one two three four }
    {
        let bits = u8::from(one) + 2 * u8::from(two) + 4 * u8::from(three) + 8 * u8::from(four);
        RadioSet { bits }
    }

    /// Whether the set has the radio.
    pub fn has(self, radio: Radio) -> bool
        ensures { result ≡ has_radio self.bits radio.number }
    {
        self.bits >> radio.index() & 1 == 1
    }
}
