//! The reader of sheets.
ghost use Rattle.std.specs.Prelude.{◌≡◌, true, ◌↔◌, IsTrue};
ghost use Rattle.sheet.specs.Contents.{content};
ghost use Rattle.sheet.specs.Layout.{sheet_bytes};
ghost use Rattle.sheet.specs.Promises.{Reads, ReadsAll, AnswersTo};
ghost use Rattle.sheet.specs.Rules.{lawful};

use crate::document::Document;
use crate::group_document::GroupDocument;
use crate::kept::{sheet_document, sheet_group};
use crate::octets::{quad, sum};
use crate::writer::write;
use mcptt::{GroupId, Refusal};

/// Whether the document keeps the rules and the bytes are its sheet.
fn is_sheet_of(bytes: &[u8; 512], group: GroupId, document: &Document) -> bool
    ensures { IsTrue result
        ↔ ((lawful group.number document.now ≡ true)
        × (bytes.now ≡ sheet_bytes group.number (content document.now))) }
{
    let mut sheet = [0; 512];
    write(group, document, &mut sheet).is_ok() && *bytes == sheet
}

/// The group and the document whose sheet these bytes are: refusal 18 where they are not 512, then 19
/// where the sum is wrong, then 20 where they are against the layout or the rules.
pub fn read(bytes: &[u8]) -> Result<GroupDocument, Refusal>
    ensures reads { Reads bytes.now result }
    ensures all { ReadsAll bytes.now result }
    ensures answers { AnswersTo bytes.now result }
{
    let Ok(sheet) = <&[u8; 512]>::try_from(bytes) else {
        return Err(Refusal::NotSheetSize);
    };
    if sum(sheet) != quad(sheet, 508) {
        return Err(Refusal::WrongSum);
    }
    let group = sheet_group(sheet);
    let document = sheet_document(sheet);
    if is_sheet_of(sheet, group, &document) {
        Ok(GroupDocument { group, document })
    } else {
        Err(Refusal::ContentFaulty)
    }
}
