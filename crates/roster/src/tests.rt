//! Both rosters, by tests that know them by their traits alone.
use crate::{Catalogue, DocumentTable, Roster, SheetStore, place_sheet};
use mcptt::{GroupId, McpttId, Refusal};
use sheet::{Document, GroupDocument, Member, write};
use std::process::Abort;
use std::test::Fail;

fn group(number: u32) -> GroupId {
    GroupId { number }
}

fn user(number: u32) -> McpttId {
    McpttId { number }
}

/// A document with one member.
fn naming(number: u32) -> Document {
    let member = Member {
        user: user(number),
        required: true,
        may_join: false,
        may_start: true,
    };
    Document {
        disabled: false,
        invite_members: true,
        limit: 1,
        members: [member; 64],
        count: 1,
    }
}

/// Whether the roster took a document of the group with one member.
fn took<R: Roster>(roster: &mut R, number: u32, member: u32) -> bool {
    GroupDocument::of(group(number), &naming(member)).is_ok_and(|document| roster
        .replace(&document)
        .is_ok())
}

fn replaces<R: Catalogue + Drop>(rt: &impl Abort) -> Result<(), Fail> {
    let mut roster = R::empty();
    assert!(rt; !roster.has_document(group(0)) && !roster.has_document(group(10)));
    assert!(rt; !roster.names(group(10), user(7)) && roster.carried_count() == 0);
    assert!(rt; took(&mut roster, 10, 7) && took(&mut roster, 20, 8));
    assert!(rt; roster.has_document(group(10)) && roster.names(group(10), user(7)));
    assert!(rt; !roster.names(group(10), user(8)) && !roster.names(group(20), user(7)));
    assert!(rt; took(&mut roster, 10, 9) && !took(&mut roster, 0, 9));
    assert!(rt; roster.names(group(10), user(9)) && !roster.names(group(10), user(7)));
    assert!(rt; roster.names(group(20), user(8)) && !roster.has_document(group(30)));
    assert!(rt; roster.carried_count() == 2 && roster.group_at(2).is_none());
    assert_eq!(rt; roster.group_at(1).ok_or("no group")?.number, 20);
    assert!(rt; roster.member_count(group(10)) == 1 && roster.member_count(group(30)) == 0);
    assert_eq!(rt;
        roster.member_at(group(10), 0).ok_or("no member")?.number,
        9
    );
    assert!(rt; roster.member_at(group(10), 1).is_none());
    Ok(())
}

fn fills<R: Catalogue + Drop>(rt: &impl Abort, places: usize) {
    let mut roster = R::empty();
    assert_eq!(rt; R::room(), places);
    for number in 1..=R::room() as u32 {
        assert!(rt; took(&mut roster, number, number + 100));
    }
    assert_eq!(rt; roster.carried_count(), places);
    assert!(rt; !took(&mut roster, 99, 1) && !roster.has_document(group(99)));
    assert!(rt; took(&mut roster, 2, 50) && roster.names(group(2), user(50)));
    assert!(rt; !roster.names(group(2), user(102)) && roster.names(group(1), user(101)));
    assert!(rt; roster.names(group(8), user(108)) && roster.carried_count() == places);
}

/// The number with which a sheet of the group is refused, if it is.
fn placed<R: Roster>(roster: &mut R, number: u32, length: usize) -> Option<u8> {
    let mut bytes = [0; 512];
    let _ = write(group(number), &naming(5), &mut bytes);
    place_sheet(roster, &bytes[..length.min(512)])
        .err()
        .map(Refusal::number)
}

fn takes_sheets<R: Roster + Drop>(rt: &impl Abort) {
    let mut roster = R::empty();
    assert_eq!(rt; placed(&mut roster, 90, 511), Some(18));
    assert_eq!(rt; placed(&mut roster, 0, 512), Some(20));
    assert!(rt; !roster.has_document(group(0)) && !roster.has_document(group(90)));
    assert_eq!(rt; placed(&mut roster, 90, 512), None);
    assert!(rt; roster.names(group(90), user(5)) && !roster.names(group(90), user(6)));
    for number in 1..R::room() as u32 {
        assert_eq!(rt; placed(&mut roster, number, 512), None);
    }
    assert_eq!(rt; placed(&mut roster, 91, 512), Some(21));
    assert_eq!(rt; placed(&mut roster, 90, 512), None);
}

#[test]
fn table_of_documents(rt: HostRuntime) -> Result<(), Fail> {
    replaces::<DocumentTable>(&rt)?;
    fills::<DocumentTable>(&rt, 16);
    takes_sheets::<DocumentTable>(&rt);
    Ok(())
}

#[test]
fn store_of_sheets(rt: HostRuntime) -> Result<(), Fail> {
    replaces::<SheetStore>(&rt)?;
    fills::<SheetStore>(&rt, 8);
    takes_sheets::<SheetStore>(&rt);
    Ok(())
}
