//! The table of 16 documents, and its pages.
ghost use Rattle.roster.specs.Slots.{slot_says};
ghost use Rattle.std.proofs.Common.{lit≤};

use crate::page::{Page, Shelved};
use crate::page_roster::PageRoster;
use mcptt::{GroupId, McpttId};
use sheet::{Document, GroupDocument, Member};

/// A roster of 16 documents.
pub type DocumentTable = PageRoster<Slot, 16>;

/// A group and its document.
#[derive(Clone, Copy, Debug)]
pub struct Slot {
    pub group: GroupId,
    pub document: Document,
}

const NOBODY: Member = Member {
    user: McpttId { number: 0 },
    required: false,
    may_join: false,
    may_start: false,
};

impl Page for Slot {
    ghost says = { slot_says };

    fn of(document: &GroupDocument) -> Slot {
        Slot {
            group: document.group,
            document: document.document,
        }
    }

    fn unused() -> Slot {
        Slot {
            group: GroupId { number: 0 },
            document: Document {
                disabled: false,
                invite_members: false,
                limit: 0,
                members: [NOBODY; 64],
                count: 0,
            },
        }
    }

    fn group(&self) -> GroupId {
        self.group
    }

    fn names(&self, user: McpttId) -> bool {
        self.document.names(user)
    }

    fn member_count(&self) -> usize {
        self.document.listed().len()
    }

    fn member_at(&self, place: usize) -> Option<McpttId> {
        self.document.listed().get(place).map(|member| member.user)
    }
}

impl Shelved<16> for Slot {
    ghost few = { (lit≤ tt, lit≤ tt) };
}
