//! The account of a served user.
use crate::row::Row;

/// What ENROL gives a user: the limit N2, and the next serial.
#[derive(Clone, Copy, Debug, PartialEq, Eq)]
pub struct Enrolment {
    pub limit: u32,
    pub next_serial: u32,
}

/// What is kept of one served user: the enrolment, once ENROL was made, and the rows of radios 1 to 4.
#[derive(Clone, Copy)]
pub struct Account {
    pub enrolment: Option<Enrolment>,
    pub rows: [Row; 4],
}
