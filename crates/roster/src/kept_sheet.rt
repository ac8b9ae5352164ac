//! The store of 8 sheets, and its pages: a sheet is kept as its bytes, and every answer is read from them.
ghost use Rattle.roster.specs.Sheets.{sheet_says};
ghost use Rattle.std.proofs.Common.{lit≤};

use crate::page::{Page, Shelved};
use crate::page_roster::PageRoster;
use mcptt::{GroupId, McpttId};
use sheet::{GroupDocument, sheet_document, sheet_group, sheet_names, write};

/// A roster of 8 sheets, kept as bytes.
pub type SheetStore = PageRoster<KeptSheet, 8>;

/// A sheet of the store. Any 512 bytes say a group and a document.
#[derive(Clone, Copy, Debug)]
pub struct KeptSheet {
    pub bytes: [u8; 512],
}

impl Page for KeptSheet {
    ghost says = { sheet_says };

    fn of(document: &GroupDocument) -> KeptSheet {
        let mut bytes = [0; 512];
        // A document within the rules is never refused.
        let _ = write(document.group, &document.document, &mut bytes);
        KeptSheet { bytes }
    }

    fn unused() -> KeptSheet {
        KeptSheet { bytes: [0; 512] }
    }

    fn group(&self) -> GroupId {
        sheet_group(&self.bytes)
    }

    fn names(&self, user: McpttId) -> bool {
        sheet_names(&self.bytes, user)
    }

    fn member_count(&self) -> usize {
        sheet_document(&self.bytes).listed().len()
    }

    fn member_at(&self, place: usize) -> Option<McpttId> {
        sheet_document(&self.bytes)
            .listed()
            .get(place)
            .map(|member| member.user)
    }
}

impl Shelved<8> for KeptSheet {
    ghost few = { (lit≤ tt, lit≤ tt) };
}
