//! The parts of a sheet, written one after another.
ghost use Rattle.std.specs.Prelude.{◌≡◌, ◌+◌, ◌-◌, ◌*◌, ◌≤◌, ◌++◌, length, take, replicate};
ghost use Rattle.sheet.specs.Contents.{content};
ghost use Rattle.sheet.specs.Layout.{member_bytes, members_bytes, head_bytes};

use crate::document::{Document, Member};
use crate::octets::put;
use mcptt::GroupId;

/// Writes a member into the five bytes from the place `at` on.
fn put_member(out: &mut [u8], at: usize, member: &Member)
    requires { at + 5 ≤ length out.old }
    ensures { take (at + 5) out.new ≡ take at out.old ++ member_bytes member.now }
{
    let [high, second, third, low] = member.user.number.to_be_bytes();
    let marks = u8::from(member.required)
        + 2 * u8::from(member.may_join)
        + 4 * u8::from(member.may_start);
    put(out, at, &[high, second, third, low, marks]);
}

/// Writes the members from place 8 on.
pub(crate) fn put_members(out: &mut [u8], members: &[Member])
    requires few { length members.now ≤ 64 }
    requires sheet { length out.old ≡ 512 }
    ensures { take (8 + 5 * length members.now) out.new
        ≡ take 8 out.old ++ members_bytes members.now }
{
    for (i, member) in members.iter().enumerate() {
        put_member(out, 8 + 5 * i, member);
    }
}

/// Writes bytes 0 to 7.
pub(crate) fn put_head(out: &mut [u8], group: GroupId, document: &Document)
    requires few { document.now.count ≤ 64 }
    requires sheet { length out.old ≡ 512 }
    ensures { take 8 out.new ≡ head_bytes group.number (content document.now) }
{
    let marks = u8::from(document.disabled) + 2 * u8::from(document.invite_members);
    put(out, 0, &group.number.to_be_bytes());
    put(out, 4, &[marks, document.limit]);
    put(out, 6, &(document.count as u16).to_be_bytes());
}

/// Writes zeros from the place `from` on, before the place 508.
pub(crate) fn put_zeros(out: &mut [u8], from: usize)
    requires before { from ≤ 508 }
    requires sheet { length out.old ≡ 512 }
    ensures { take 508 out.new ≡ take from out.old ++ replicate (508 - from) 0 }
{
    out[from..508].fill(0);
}
