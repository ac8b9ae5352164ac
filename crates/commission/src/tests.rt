//! A small site with two groups, compared, mended and compared again.
use crate::{Difference, Side, compare, next_difference};
use mcptt::{GroupId, McpttId, Settings};
use roster::{Catalogue, DocumentTable, Roster};
use serving::Serving;
use sheet::{Document, GroupDocument, Member};

fn member(number: u32) -> Member {
    Member {
        user: McpttId { number },
        required: false,
        may_join: true,
        may_start: false,
    }
}

fn place(roster: &mut DocumentTable, group: u32, one: u32, two: u32) -> bool {
    let mut members = [member(0); 64];
    members[0] = member(one);
    members[1] = member(two);
    let document = Document {
        disabled: false,
        invite_members: false,
        limit: 8,
        members,
        count: 2,
    };
    GroupDocument::of(GroupId { number: group }, &document)
        .and_then(|known| roster.replace(&known))
        .is_ok()
}

fn found(number: u32, side: Side) -> Difference {
    Difference {
        user: McpttId { number },
        side,
    }
}

#[test]
fn found_and_mended(rt: HostRuntime) {
    let mut serving = Serving::new(Settings::usual());
    let mut roster: DocumentTable = <DocumentTable as Roster>::empty();
    assert!(rt; compare(&serving, &roster) == Ok(0));
    assert!(rt; serving.enrol(McpttId { number: 64 }, 1, 1).is_ok());
    assert!(rt; serving.enrol(McpttId { number: 5 }, 1, 1).is_ok());
    assert!(rt; place(&mut roster, 90, 5, 99) && place(&mut roster, 10, 7, 5));
    assert!(rt; compare(&serving, &roster) == Err(found(7, Side::Sheets)));
    assert!(rt; next_difference(&serving, &roster, 7) == Some(found(64, Side::RadioList)));
    assert!(rt; next_difference(&serving, &roster, 99).is_none());
    assert!(rt; place(&mut roster, 90, 5, 64) && place(&mut roster, 10, 5, 64));
    assert!(rt; compare(&serving, &roster) == Ok(2));
}
