//! The table at two sorts of records: entries kept by group, and listings kept by user.
ghost use Rattle.std.specs.Prelude.{◌≡◌, ◌+◌, ◌≤◌, true, not, [], ◌∷◌, ◌++◌, take, drop, is_ok, if◌then◌else◌, count_by, filter, MatchOption, ◌==◌, nat_lt, slice_set};
ghost use Rattle.table.specs.Tables.{first_place, live_of};

use crate::*;
use mcptt::{GroupId, McpttId};
use std::test::Fail;

#[derive(Clone, Copy)]
struct Entry {
    group: GroupId,
    end: u64,
    serial: u32,
}

impl Record for Entry {
    type Id = GroupId;

    ghost ident = { λ e. e.group.number };

    ghost until = { λ e. e.end };

    fn key(&self) -> GroupId {
        self.group
    }

    fn end(&self) -> u64 {
        self.end
    }
}

#[derive(Clone, Copy)]
struct Row {
    entries: [Entry; 3],
    count: usize,
    ghost within: { count ≤ 3 },
}

impl Row {
    fn add(&mut self, new: Entry) -> Result<(), Full>
        ensures fits { is_ok result ≡ nat_lt self.old.count 3 }
        ensures count { self.new.count ≡ (if is_ok result then self.old.count + 1 else self.old.count) }
        ensures entries { self.new.entries ≡ (if is_ok result then slice_set self.old.entries self.old.count new else self.old.entries) }
    {
        let mut table = Table::over(&mut self.entries, &mut self.count);
        table.add(new)
    }

    fn find(&self, group: GroupId, time: u64) -> Option<usize>
        ensures { result ≡ first_place (live_of (λ e. e.group.number) (λ e. e.end) group.number time) (take self.now.count self.now.entries) }
    {
        find(&self.entries[..self.count], group, time)
    }

    fn count_live(&self, time: u64) -> usize
        ensures { result ≡ count_by (λ e. nat_lt time e.end) (take self.now.count self.now.entries) }
    {
        count_live(&self.entries[..self.count], time)
    }

    fn remove(&mut self, group: GroupId) -> bool
        ensures behind { drop self.new.count self.new.entries ≡ drop self.new.count self.old.entries }
        ensures any { result ≡ nat_lt self.new.count self.old.count }
        ensures used { take self.new.count self.new.entries ≡ filter (λ e. not (e.group.number == group.number)) (take self.old.count self.old.entries) }
    {
        let mut table = Table::over(&mut self.entries, &mut self.count);
        table.remove(group)
    }
}

#[derive(Clone, Copy)]
struct Listing {
    user: McpttId,
    radios: u8,
    end: u64,
}

impl Record for Listing {
    type Id = McpttId;

    ghost ident = { λ l. l.user.number };

    ghost until = { λ l. l.end };

    fn key(&self) -> McpttId {
        self.user
    }

    fn end(&self) -> u64 {
        self.end
    }
}

#[derive(Drop)]
struct Listings {
    listings: [Listing; 2],
    count: usize,
    ghost within: { count ≤ 2 },
}

impl Listings {
    fn renew(&mut self, new: Listing, time: u64) -> Result<(), Full>
        ensures { MatchOption (first_place (live_of (λ l. l.user.number) (λ l. l.end) new.user.number time) (take self.old.count self.old.listings)) ((is_ok result ≡ nat_lt self.old.count 2) × (self.new.count ≡ (if is_ok result then self.old.count + 1 else self.old.count)) × (self.new.listings ≡ (if is_ok result then slice_set self.old.listings self.old.count new else self.old.listings))) (λ i. (is_ok result ≡ true) × (self.new.count ≡ self.old.count) × (self.new.listings ≡ slice_set self.old.listings i new)) }
    {
        let mut table = Table::over(&mut self.listings, &mut self.count);
        match table.find(new.user, time) {
            Some(i) => {
                table.replace(i, new);
                Ok(())
            }
            None => table.add(new),
        }
    }

    fn keep_with_radios(&mut self)
        ensures { take self.new.count self.new.listings ≡ filter (λ l. not (l.radios == 0)) (take self.old.count self.old.listings) }
    {
        let mut table = Table::over(&mut self.listings, &mut self.count);
        table.retain(|listing| listing.radios != 0);
    }
}

fn entry_of(group: u32, end: u64) -> Entry {
    Entry {
        group: GroupId { number: group },
        end,
        serial: 0,
    }
}

fn row_of(one: Entry, two: Entry, three: Entry) -> Result<Row, Full> {
    let mut row = Row {
        entries: [entry_of(0, 0); 3],
        count: 0,
    };
    row.add(one)?;
    row.add(two)?;
    row.add(three)?;
    Ok(row)
}

fn listing_of(user: u32, radios: u8, end: u64) -> Listing {
    Listing {
        user: McpttId { number: user },
        radios,
        end,
    }
}

#[test]
fn a_full_row_refuses_and_stays(rt: HostRuntime) -> Result<(), Fail> {
    let mut row = row_of(entry_of(10, 100), entry_of(20, 200), entry_of(30, 300))?;
    assert!(rt; row.add(entry_of(40, 400)) == Err(Full));
    assert!(rt; row.count == 3);
    assert!(rt; row.entries[2].group.number == 30);
    Ok(())
}

#[test]
fn only_what_ends_later_is_live(rt: HostRuntime) -> Result<(), Fail> {
    let row = row_of(entry_of(10, 100), entry_of(10, 200), entry_of(20, 300))?;
    let ten = GroupId { number: 10 };
    assert!(rt; row.find(ten, 99) == Some(0));
    assert!(rt; row.find(ten, 100) == Some(1));
    assert!(rt; row.find(ten, 199) == Some(1));
    assert!(rt; row.find(ten, 200) == None);
    assert!(rt; row.count_live(99) == 3);
    assert!(rt; row.count_live(100) == 2);
    assert!(rt; row.count_live(300) == 0);
    Ok(())
}

#[test]
fn removal_keeps_the_order(rt: HostRuntime) -> Result<(), Fail> {
    let mut row = row_of(entry_of(10, 100), entry_of(20, 200), entry_of(30, 300))?;
    let twenty = GroupId { number: 20 };
    assert!(rt; row.remove(twenty));
    assert!(rt; row.count == 2);
    assert!(rt; row.entries[0].group.number == 10);
    assert!(rt; row.entries[1].group.number == 30);
    assert!(rt; !row.remove(twenty));
    assert!(rt; row.count == 2);
    Ok(())
}

#[test]
fn a_listing_is_renewed_in_place(rt: HostRuntime) -> Result<(), Fail> {
    let mut listed = Listings {
        listings: [listing_of(0, 0, 0); 2],
        count: 0,
    };
    listed.renew(listing_of(5, 1, 100), 0)?;
    listed.renew(listing_of(6, 0, 100), 0)?;
    listed.renew(listing_of(5, 3, 200), 99)?;
    assert!(rt; listed.count == 2);
    assert!(rt; listed.listings[0].radios == 3);
    assert!(rt; listed.renew(listing_of(7, 1, 300), 0) == Err(Full));
    listed.keep_with_radios();
    assert!(rt; listed.count == 1);
    assert!(rt; listed.listings[0].user.number == 5);
    Ok(())
}

#[test]
fn owned_slots(rt: HostRuntime) -> Result<(), Fail> {
    let mut slots: Slots<Listing, 3> = Slots::empty(listing_of(0, 0, 0));
    slots.add(listing_of(5, 1, 100))?;
    slots.add(listing_of(6, 0, 100))?;
    slots.add(listing_of(7, 2, 100))?;
    assert!(rt; slots.add(listing_of(8, 1, 100)) == Err(Full));
    slots.retain(|listing| listing.radios != 0);
    assert_eq!(rt; slots.len(), 2);
    assert!(rt; slots.as_slice()[1].user == McpttId { number: 7 });
    Ok(())
}

#[test]
fn a_slice_without_a_table(rt: HostRuntime) -> Result<(), Fail> {
    let row = row_of(entry_of(10, 100), entry_of(20, 200), entry_of(10, 300))?;
    let mut entries = row.entries;
    let ten = GroupId { number: 10 };
    assert!(rt; is_of(&entries[0], ten) && !is_of(&entries[1], ten));
    assert!(rt; is_live_of(&entries[0], ten, 99) && !is_live_of(&entries[0], ten, 100));
    assert_eq!(rt; position(&entries, |one| one.end == 200), Some(1));
    assert_eq!(rt; position(&entries, |one| one.end == 400), None);
    assert_eq!(rt; retain(&mut entries, 3, |one| one.end != 200), 2);
    assert_eq!(rt; entries[1].end, 300);
    Ok(())
}
