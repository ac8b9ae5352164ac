//! The writer of sheets.
ghost use Rattle.sheet.specs.Promises.{Writes};

use crate::document::Document;
use crate::octets::{put, sum};
use crate::parts::{put_head, put_members, put_zeros};
use mcptt::{GroupId, Refusal};

/// Writes the sheet of a group's document into `out`, or leaves it as it is: refusal 18 where it has
/// not 512 bytes, then 20 where the document breaks the rules.
pub fn write(group: GroupId, document: &Document, out: &mut [u8]) -> Result<(), Refusal>
    ensures { Writes group.number document.now out.old out.new result }
{
    if out.len() != 512 {
        return Err(Refusal::NotSheetSize);
    }
    if !document.keeps_rules(group) {
        return Err(Refusal::ContentFaulty);
    }
    put_head(out, group, document);
    put_members(out, document.listed());
    put_zeros(out, 8 + 5 * document.count);
    let total = sum(out);
    put(out, 508, &total.to_be_bytes());
    Ok(())
}
