//! Sheets and documents at the edges of the rules, and every refusal by an example.
use crate::octets::{put, sum};
use crate::{
    Document, Member, read, read_and_written, sheet_document, sheet_group, sheet_names, write,
    written_and_read,
};
use mcptt::{GroupId, McpttId, Refusal};
use std::array;
use std::process::Abort;

/// The users from 1001 on in all 64 places, of which `count` count, none of them required.
fn document(limit: u8, count: usize) -> Document {
    Document {
        disabled: false,
        invite_members: false,
        limit,
        members: array::from_fn(|i| Member {
            user: McpttId {
                number: 1001 + i as u32,
            },
            required: false,
            may_join: true,
            may_start: true,
        }),
        count,
    }
}

/// The number of the refusal, if it is one.
fn refused<T: Drop>(answer: Result<T, Refusal>) -> Option<u8> {
    answer.err().map(Refusal::number)
}

/// What comes of writing into a buffer full of 7s, which a refusal leaves as it was.
fn written(rt: &impl Abort, group: u32, document: &Document) -> Option<u8> {
    let mut out = [7; 512];
    let answer = write(GroupId { number: group }, document, &mut out);
    assert!(rt; answer.is_ok() || out == [7; 512]);
    refused(answer)
}

/// What comes of reading a sheet in which one byte, at a place up to 507, was altered and the sum put
/// right again.
fn altered(sheet: &[u8; 512], at: usize, byte: u8) -> Option<u8> {
    let mut bytes = *sheet;
    bytes[at.min(507)] = byte;
    let total = sum(&bytes);
    put(&mut bytes, 508, &total.to_be_bytes());
    refused(read(&bytes))
}

#[test]
fn a_sheet_byte_by_byte(rt: HostRuntime) {
    let group = GroupId {
        number: 0x0A0B_0C0D,
    };
    let mut written = document(2, 2);
    written.invite_members = true;
    written.members[0].user.number = 0x0102_0304;
    written.members[0].required = true;
    written.members[0].may_join = false;
    let mut sheet = [7; 512];
    assert!(rt; write(group, &written, &mut sheet).is_ok());
    let mut expected = [0; 512];
    put(
        &mut expected,
        0,
        &[10, 11, 12, 13, 2, 2, 0, 2, 1, 2, 3, 4, 5, 0, 0, 3, 234, 6],
    );
    put(&mut expected, 508, &[0, 0, 17, 115]);
    assert!(rt; sheet == expected);
    assert!(rt; sheet_group(&sheet).number == 0x0A0B_0C0D);
    assert!(rt; sheet_names(&sheet, McpttId { number: 1002 }));
    assert!(rt; !sheet_names(&sheet, McpttId { number: 1003 }));
    let said = sheet_document(&sheet);
    assert!(rt; !said.disabled && said.invite_members && said.limit == 2 && said.count == 2);
    let first = said.members[0];
    assert!(rt; first.required && !first.may_join && first.may_start);
}

#[test]
fn documents_at_the_edges(rt: HostRuntime) {
    assert_eq!(rt; written(&rt, 1, &document(1, 0)), None);
    assert_eq!(rt; written(&rt, u32::MAX, &document(64, 64)), None);
    assert_eq!(rt;
        refused(written_and_read(GroupId { number: 1 }, &document(64, 64))),
        None
    );
    assert_eq!(rt; written(&rt, 0, &document(1, 0)), Some(20));
    assert_eq!(rt; written(&rt, 1, &document(0, 0)), Some(20));
    assert_eq!(rt; written(&rt, 1, &document(65, 0)), Some(20));
    assert_eq!(rt; written(&rt, 1, &document(1, 65)), Some(20));
    let mut faulty = document(1, 64);
    faulty.members[0].required = true;
    assert_eq!(rt; written(&rt, 1, &faulty), None);
    faulty.members[63].required = true;
    assert_eq!(rt; written(&rt, 1, &faulty), Some(20));
    faulty.limit = 2;
    assert_eq!(rt; written(&rt, 1, &faulty), None);
    faulty.members[0].user.number = 0;
    assert_eq!(rt; written(&rt, 1, &faulty), Some(20));
    faulty.members[0].user = faulty.members[63].user;
    assert_eq!(rt; written(&rt, 1, &faulty), Some(20));
    faulty.count = 63;
    assert_eq!(rt; written(&rt, 1, &faulty), None);
    assert!(rt; faulty.names(McpttId { number: 1064 }) && !faulty.names(McpttId { number: 1001 }));
    assert_eq!(rt;
        refused(written_and_read(GroupId { number: 1 }, &faulty)),
        None
    );
    assert_eq!(rt;
        refused(written_and_read(GroupId { number: 0 }, &faulty)),
        Some(20)
    );
}

#[test]
fn sizes_and_sums(rt: HostRuntime) {
    let group = GroupId { number: 1 };
    let mut sheet = [0; 512];
    assert!(rt; write(group, &document(1, 0), &mut sheet).is_ok());
    assert!(rt; sheet[508] == 0 && sheet[509] == 0 && sheet[510] == 0 && sheet[511] == 10);
    let mut long = [7; 513];
    assert!(rt; read_and_written(&sheet, &mut long) == Err(Refusal::NotSheetSize));
    assert!(rt; write(group, &document(0, 0), &mut long) == Err(Refusal::NotSheetSize));
    assert!(rt; long == [7; 513]);
    let mut short = [7; 511];
    assert!(rt; write(group, &document(1, 0), &mut short) == Err(Refusal::NotSheetSize));
    assert_eq!(rt; refused(read(&long)), Some(18));
    assert_eq!(rt; refused(read(&sheet[1..])), Some(18));
    assert_eq!(rt; refused(read(&[])), Some(18));
    assert_eq!(rt; refused(read(&sheet)), None);
    for at in 508..512 {
        let mut wrong = sheet;
        wrong[at] = 11;
        assert_eq!(rt; refused(read(&wrong)), Some(19));
    }
    let mut faulty = sheet;
    faulty[4] = 255;
    assert_eq!(rt; refused(read(&faulty)), Some(19));
    let mut copy = [7; 512];
    assert!(rt; read_and_written(&sheet, &mut copy).is_ok() && copy == sheet);
}

#[test]
fn content_against_the_layout(rt: HostRuntime) {
    let mut sheet = [0; 512];
    let known = document(1, 2);
    assert!(rt; write(GroupId { number: 1 }, &known, &mut sheet).is_ok());
    let within = [(0, 1), (4, 1), (4, 3), (5, 64), (12, 0), (12, 7), (17, 5)];
    for (at, byte) in within {
        assert_eq!(rt; altered(&sheet, at, byte), None);
    }
    let against = [
        (3, 0),
        (4, 4),
        (4, 8),
        (4, 16),
        (4, 32),
        (4, 64),
        (4, 128),
        (5, 0),
        (5, 65),
        (6, 1),
        (7, 1),
        (7, 3),
        (7, 65),
        (11, 234),
        (12, 14),
        (12, 22),
        (12, 38),
        (17, 70),
        (17, 134),
        (18, 1),
        (22, 1),
        (23, 1),
        (328, 1),
        (507, 1),
    ];
    for (at, byte) in against {
        assert_eq!(rt; altered(&sheet, at, byte), Some(20));
    }
    sheet[6] = 255;
    assert_eq!(rt; altered(&sheet, 7, 255), Some(20));
    sheet[6] = 0;
    sheet[10] = 0;
    assert_eq!(rt; altered(&sheet, 11, 0), Some(20));
    sheet[10] = 3;
    sheet[12] = 1;
    assert_eq!(rt; altered(&sheet, 17, 1), Some(20));
}
