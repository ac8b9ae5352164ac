//! Both orders on small examples.
use crate::*;
use mcptt::{GroupId, McpttId, ServedUser};
use std::process::Abort;
use std::test::Fail;

fn row(group: u32, priority: u8) -> PriorityRow {
    PriorityRow {
        group: GroupId { number: group },
        priority,
    }
}

/// Checks that `a` comes before `b`, and not `b` before `a`.
fn check_first<P: Preference>(
    rt: &impl Abort,
    order: &P,
    user: u32,
    a: u32,
    b: u32,
) -> Result<(), Fail> {
    let user = ServedUser::try_from(McpttId { number: user })?;
    let a = GroupId { number: a };
    let b = GroupId { number: b };
    assert!(rt; order.comes_before(user, a, b));
    assert!(rt; !order.comes_before(user, b, a));
    Ok(())
}

#[test]
fn the_first_row_decides(rt: HostRuntime) -> Result<(), Fail> {
    let mut table = PriorityTable::empty();
    check_first(&rt, &table, 1, 10, 20)?;
    table.rows[0] = row(20, 5);
    table.rows[3] = row(10, 7);
    table.rows[4] = row(10, 1);
    check_first(&rt, &table, 1, 20, 10)?;
    check_first(&rt, &table, 64, 10, 30)
}

#[test]
fn a_group_in_no_row_has_255(rt: HostRuntime) -> Result<(), Fail> {
    let mut table = PriorityTable::empty();
    table.rows[31] = row(30, 255);
    check_first(&rt, &table, 1, 20, 30)?;
    check_first(&rt, &table, 1, 30, 40)?;
    table.rows[1] = row(40, 254);
    check_first(&rt, &table, 1, 40, 20)?;
    table.rows[0] = row(0, 3);
    check_first(&rt, &table, 1, 40, 0)
}

#[test]
fn the_nearer_zone_comes_first(rt: HostRuntime) -> Result<(), Fail> {
    let mut order = ZoneOrder::all_home(10);
    order.homes[0] = 13;
    order.homes[63] = 0;
    let [eight, ten, twelve, thirteen] = [8 * 65536 + 9, 10 * 65536 + 1, 12 * 65536, 13 * 65536];
    check_first(&rt, &order, 2, ten, eight)?;
    check_first(&rt, &order, 2, twelve, thirteen)?;
    check_first(&rt, &order, 2, eight, thirteen)?;
    check_first(&rt, &order, 2, eight, twelve)?;
    check_first(&rt, &order, 2, ten, ten + 1)?;
    check_first(&rt, &order, 1, thirteen, ten)?;
    check_first(&rt, &order, 63, ten, thirteen)?;
    check_first(&rt, &order, 64, eight, ten)
}
