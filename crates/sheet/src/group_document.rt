//! A group with its document, both within the rules.
ghost use Rattle.std.specs.Prelude.{◌≡◌, true};
ghost use Rattle.sheet.specs.Rules.{lawful};

use crate::document::Document;
use mcptt::GroupId;

/// A group from 1 and a document of it that keeps the rules of a document.
#[derive(Clone, Copy, Debug)]
pub struct GroupDocument {
    pub group: GroupId,
    pub document: Document,
    ghost lawful: { lawful group.number document ≡ true },
}
