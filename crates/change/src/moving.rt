//! What becomes of the entries of a row.
ghost use Rattle.std.specs.Prelude.{◌≡◌, ◌+◌, ◌*◌, ◌≤◌, []};
ghost use Rattle.rows.specs.Lists.{listed};
ghost use Rattle.rows.specs.Standings.{used};
ghost use Rattle.table.specs.Kept.{items};
ghost use Rattle.change.specs.Moves.{renewed, given_up, moved, begun, changed_row, left, left_row};

use crate::asked::Clock;
use crate::plan::{Move, Sending};
use crate::planned::Moves;
use mcptt::GroupId;
use rows::{Entry, Groups, Row, Status};
use table::{Slots, is_live};

/// When a call is made, until when a kept entry runs, and until when one that is given up.
#[derive(Clone, Copy)]
pub(crate) struct Span {
    pub(crate) time: u64,
    pub(crate) until: u64,
    pub(crate) gone: u64,
}

impl Clock {
    /// The span of a call that keeps entries for an interval: one that is given up lives on for twice timer F.
    pub(crate) fn span(self, interval: u32) -> Span
        ensures time { result.time ≡ self.time.seconds }
        ensures until { result.until ≡ self.time.seconds + interval }
        ensures gone { result.gone ≡ self.time.seconds + 2 * self.timer }
    {
        let time = self.time.seconds;
        Span {
            time,
            until: time + u64::from(interval),
            gone: time + 2 * u64::from(self.timer),
        }
    }
}

impl Span {
    /// What becomes of a live entry of a kept group.
    fn renew(self, entry: &Entry) -> Move
        ensures { result ≡ renewed self.until entry.now entry.now.status }
    {
        let (status, sending) = match entry.status {
            Status::Affiliating => (Status::Affiliating, Sending::Silent),
            Status::Affiliated => (Status::Affiliated, Sending::Silent),
            Status::Deaffiliating | Status::Deaffiliated => (
                Status::Affiliating,
                Sending::Affiliate,
            ),
        };
        Move {
            entry: Entry {
                status,
                end: self.until,
                ..*entry
            },
            sending,
        }
    }

    /// What becomes of a live entry of any other group.
    fn give_up(self, entry: &Entry) -> Move
        ensures { result ≡ given_up self.gone entry.now entry.now.status }
    {
        let given_up = Entry {
            status: Status::Deaffiliating,
            end: self.gone,
            ..*entry
        };
        let (entry, sending) = match entry.status {
            Status::Affiliating => (given_up, Sending::Silent),
            Status::Affiliated => (given_up, Sending::Release),
            Status::Deaffiliating | Status::Deaffiliated => (*entry, Sending::Silent),
        };
        Move { entry, sending }
    }

    /// What CHANGE makes of an entry: nothing of one that is not live.
    fn moved(self, entry: &Entry, chosen: &Groups) -> Option<Move>
        ensures { result ≡ moved (listed chosen.now) self.time self.until self.gone entry.now }
    {
        if !is_live(entry, self.time) {
            None
        } else if chosen.has(entry.group) {
            Some(self.renew(entry))
        } else {
            Some(self.give_up(entry))
        }
    }

    /// The entry that CHANGE begins for a kept group, if the row has no live one.
    fn begun(self, row: &Row, group: GroupId) -> Option<Move>
        ensures { result ≡ begun (used row.now) self.time self.until group }
    {
        if row.lives(group, self.time) {
            return None;
        }
        Some(Move {
            entry: Entry {
                group,
                status: Status::Affiliating,
                end: self.until,
                serial: 0,
            },
            sending: Sending::Affiliate,
        })
    }

    /// What LEAVE makes of an entry, live or not.
    fn left(self, entry: &Entry) -> Move
        ensures { result ≡ left self.time self.gone entry.now }
    {
        let sending = match entry.status {
            Status::Affiliated if is_live(entry, self.time) => Sending::Release,
            _ => Sending::Silent,
        };
        Move {
            entry: Entry {
                status: Status::Deaffiliating,
                end: self.gone,
                ..*entry
            },
            sending,
        }
    }

    /// What CHANGE makes of a row.
    pub(crate) fn changed_row(self, row: &Row, chosen: &Groups) -> Moves
        requires { chosen.now.groups.count ≤ 16 }
        ensures { items result ≡ changed_row (listed chosen.now) self.time self.until self.gone (used row.now) }
    {
        let mut moves = no_moves();
        moves.add_each(row.as_slice(), |entry| self.moved(entry, chosen));
        moves.add_each(chosen.as_slice(), |group| self.begun(row, *group));
        moves
    }

    /// What LEAVE makes of a row.
    pub(crate) fn left_row(self, row: &Row) -> Moves
        ensures count { result.count ≤ 24 }
        ensures items { items result ≡ left_row self.time self.gone (used row.now) }
    {
        let mut moves = no_moves();
        moves.add_each(row.as_slice(), |entry| Some(self.left(entry)));
        moves
    }
}

fn no_moves() -> Moves
    ensures count { result.count ≡ 0 }
    ensures items { items result ≡ [] }
{
    Slots::empty(Move {
        entry: Entry {
            group: GroupId { number: 0 },
            status: Status::Deaffiliated,
            end: 0,
            serial: 0,
        },
        sending: Sending::Silent,
    })
}
