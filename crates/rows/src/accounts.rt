//! What an account tells of its user.
ghost use Rattle.std.specs.Prelude.{◌≡◌, ◌+◌, ◌-◌, ◌≤◌, IsSome, Some, None, MatchResult, slice_set};
ghost use Rattle.mcptt.specs.declared.refusal.Refusal.TheVariants.{NotEnrolled};
ghost use Rattle.rows.specs.Entries.{holds};
ghost use Rattle.rows.specs.Holdings.{row_of, user_holds, held_without, held_elsewhere, held_groups, radios_holding, number_of, is_left_out};
ghost use Rattle.rows.specs.Lists.{listed};
ghost use Rattle.rows.specs.Standings.{used, standing, unused, SameOthers};

use crate::account::{Account, Enrolment};
use crate::group_list::Groups;
use crate::row::Row;
use mcptt::{GroupId, Radio, RadioSet, Refusal};

/// Whether the row at a place is that of the radio that is left out, if one is.
fn is_left_out(left_out: Option<Radio>, place: usize) -> bool
    ensures { result ≡ is_left_out (number_of left_out) (place + 1) }
{
    left_out.is_some_and(|radio| radio.index() == place)
}

impl Account {
    /// The account of nobody yet.
    pub fn unused() -> Account
        ensures { standing result ≡ unused }
    {
        Account {
            enrolment: None,
            rows: [Row::new(); 4],
        }
    }

    /// The enrolment, or refusal 8 where there is none.
    pub fn enrolled(&self) -> Result<Enrolment, Refusal>
        ensures { MatchResult result (λ e. self.now.enrolment ≡ Some e) (λ e. (self.now.enrolment ≡ None) × (e ≡ NotEnrolled)) }
    {
        self.enrolment.ok_or(Refusal::NotEnrolled)
    }

    /// The row of a radio.
    pub fn row(&self, radio: Radio) -> &Row
        ensures { used result.now ≡ row_of (standing self.now).rows radio.number }
    {
        &self.rows[radio.index()]
    }

    /// Whether the radio holds the group.
    pub fn holds(&self, radio: Radio, group: GroupId, time: u64) -> bool
        ensures { result ≡ holds time group.number (row_of (standing self.now).rows radio.number) }
    {
        self.row(radio).holds(group, time)
    }

    /// Whether any radio of the user holds the group.
    pub fn user_holds(&self, group: GroupId, time: u64) -> bool
        ensures { result ≡ user_holds time group.number (standing self.now).rows }
    {
        self.rows.iter().any(|row| row.holds(group, time))
    }

    /// The set of the user's radios that hold the group.
    pub fn radios_holding(&self, group: GroupId, time: u64) -> RadioSet
        ensures { result.bits ≡ radios_holding time group.number (standing self.now).rows }
    {
        let [one, two, three, four] = &self.rows;
        RadioSet::marked(
            one.holds(group, time),
            two.holds(group, time),
            three.holds(group, time),
            four.holds(group, time),
        )
    }

    /// The different groups that the user's radios hold, but for one radio, if one is left out.
    fn held_without(&self, left_out: Option<Radio>, time: u64) -> Groups
        ensures listed { listed result ≡ held_without time (number_of left_out) (standing self.now).rows }
        ensures few { IsSome left_out → result.groups.count ≤ 72 }
    {
        let mut found = Groups::new();
        for (k, row) in self.rows.iter().enumerate() {
            if !is_left_out(left_out, k) {
                row.gather(time, &mut found);
            }
        }
        found
    }

    /// The different groups that the user's other radios hold.
    pub fn held_elsewhere(&self, radio: Radio, time: u64) -> Groups
        ensures count { result.groups.count ≤ 72 }
        ensures listed { listed result ≡ held_elsewhere time radio.number (standing self.now).rows }
    {
        self.held_without(Some(radio), time)
    }

    /// The different groups that the user holds.
    pub fn held_groups(&self, time: u64) -> Groups
        ensures { listed result ≡ held_groups time (standing self.now).rows }
    {
        self.held_without(None, time)
    }

    /// Puts a row in the place of a radio's.
    pub fn put(&mut self, radio: Radio, row: Row)
        ensures enrolment { self.new.enrolment ≡ self.old.enrolment }
        ensures rows { self.new.rows ≡ slice_set self.old.rows (radio.number - 1) row }
        ensures others { SameOthers radio.number self.old self.new }
        ensures used { (standing self.new).rows ≡ slice_set (standing self.old).rows (radio.number - 1) (used row) }
    {
        self.rows[radio.index()] = row;
    }
}
