//! The round trip of a sheet, both ways.
ghost use Rattle.sheet.specs.Layout.{sheet_bytes};
ghost use Rattle.sheet.specs.Octets.{quad_at};
ghost use Rattle.sheet.specs.Promises.{ComesBack, Rewrites, SheetsDiffer, smallest};
ghost use Rattle.std.specs.Prelude.{◌≡◌};

use crate::document::Document;
use crate::group_document::GroupDocument;
use crate::reader::read;
use crate::writer::write;
use mcptt::{GroupId, Refusal};

/// Writes a document and reads it back: the same group and the same content, or refusal 20.
pub fn written_and_read(group: GroupId, document: &Document) -> Result<GroupDocument, Refusal>
    ensures { ComesBack group.number document.now result }
{
    let mut sheet = [0; 512];
    write(group, document, &mut sheet)?;
    read(&sheet)
}

/// Reads a sheet and writes what was read into `out`: the same bytes, or the reader's refusal, or 18
/// where `out` has not 512 bytes.
pub fn read_and_written(bytes: &[u8], out: &mut [u8]) -> Result<(), Refusal>
    ensures { Rewrites bytes.now out.old out.new result }
{
    let known = read(bytes)?;
    write(known.group, &known.document, out)
}

/// Different groups or contents within the rules have different sheets.
pub fn sheets_differ_stand() -> u8
    ensures { SheetsDiffer }
{
    0
}

/// The sum in the sheet of group 1 with limit 1 and no members.
pub fn smallest_sum() -> u32
    ensures sum { result ≡ quad_at (sheet_bytes 1 smallest) 508 }
    ensures ten { result ≡ 10 }
{
    10
}
