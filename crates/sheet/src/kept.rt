//! What a sheet that is kept as bytes says. Any 512 bytes say something; a count above 64 is read as 64.
ghost use Rattle.std.specs.Prelude.{◌≡◌, ◌+◌, ◌≤◌, min, length, drop};
ghost use Rattle.sheet.specs.Contents.{content};
ghost use Rattle.sheet.specs.Decoded.{group_of, member_of, members_of, content_of};
ghost use Rattle.sheet.specs.Octets.{pair_at};
ghost use Rattle.sheet.specs.Rules.{names};

use crate::document::{Document, Member};
use crate::octets::{pair, quad};
use mcptt::{GroupId, McpttId};

/// What stands in a place beyond the count.
const NOBODY: Member = Member {
    user: McpttId { number: 0 },
    required: false,
    may_join: false,
    may_start: false,
};

/// The group of a sheet.
pub fn sheet_group(bytes: &[u8; 512]) -> GroupId
    ensures { result.number ≡ group_of bytes.now }
{
    GroupId {
        number: quad(bytes, 0),
    }
}

/// How many members a sheet counts.
fn sheet_count(bytes: &[u8; 512]) -> usize
    ensures { result ≡ min (pair_at bytes.now 6) 64 }
{
    usize::from(pair(bytes, 6)).min(64)
}

/// The member in the five bytes from `at` on.
fn member(bytes: &[u8], at: usize) -> Member
    requires { at + 5 ≤ length bytes.now }
    ensures { result ≡ member_of (drop at bytes.now) }
{
    let marks = bytes[at + 4];
    Member {
        user: McpttId {
            number: quad(bytes, at),
        },
        required: marks % 2 == 1,
        may_join: marks / 2 % 2 == 1,
        may_start: marks / 4 % 2 == 1,
    }
}

/// Whether some member of a sheet is this user, from the bytes alone.
pub fn sheet_names(bytes: &[u8; 512], user: McpttId) -> bool
    ensures { result ≡ names user.number (content_of bytes.now).members }
{
    (0..sheet_count(bytes)).any(|i| quad(bytes, 8 + 5 * i) == user.number)
}

/// Reads the members of a sheet into as many places as there are.
fn read_members(bytes: &[u8; 512], places: &mut [Member])
    requires { length places.old ≤ 64 }
    ensures { places.new ≡ members_of (length places.old) (drop 8 bytes.now) }
{
    // No `array::from_fn`: it would be asked for the places beyond the count too.
    for (i, place) in places.iter_mut().enumerate() {
        *place = member(bytes, 8 + 5 * i);
    }
}

/// The document of a sheet.
pub fn sheet_document(bytes: &[u8; 512]) -> Document
    ensures says { content result ≡ content_of bytes.now }
    ensures count { result.count ≤ 64 }
{
    let count = sheet_count(bytes);
    let mut members = [NOBODY; 64];
    read_members(bytes, &mut members[..count]);
    let marks = bytes[4];
    Document {
        disabled: marks % 2 == 1,
        invite_members: marks / 2 % 2 == 1,
        limit: bytes[5],
        members,
        count,
    }
}
