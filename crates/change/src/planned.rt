//! What CHANGE or LEAVE is going to do.
ghost use Rattle.std.specs.Prelude.{◌+◌, ◌^◌, ◌≤◌};

use crate::plan::Move;
use mcptt::Radio;
use rows::Enrolment;
use table::Slots;

/// The moves of a row, in order. There is a place for each entry of it and for 16 new ones.
pub(crate) type Moves = Slots<Move, 40>;

/// The moves of a radio's row, which are as many as a row can have, the enrolment, in which 24 serials
/// are left, and how many wanted groups are turned down.
#[derive(Clone, Copy)]
pub(crate) struct Plan {
    pub(crate) radio: Radio,
    pub(crate) enrolment: Enrolment,
    pub(crate) moves: Moves,
    pub(crate) turned_down: usize,
    ghost fits_row: { moves.count ≤ 24 },
    ghost serials_left: { enrolment.next_serial + 25 ≤ 2 ^ 32 },
}
