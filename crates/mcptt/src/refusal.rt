//! What a call refuses, and whose doing it is.

/// Why a call was refused. The numbers 1 to 21 are those that a host reports.
#[derive(Clone, Copy, Debug, PartialEq, Eq)]
pub enum Refusal {
    /// Timer F or the grant G is out of range.
    SettingOutOfRange = 1,
    /// TICK names a time before the present one.
    TimeBackwards = 2,
    /// TICK names a time above 1,099,511,627,776.
    TimeTooFar = 3,
    /// The outgoing list has fewer than 24 places.
    OutgoingTooShort = 4,
    /// A user, radio, group, SIP code or set of radios is out of range.
    NumberOutOfRange = 5,
    /// The user is enrolled already.
    AlreadyEnrolled = 6,
    /// N2 is not 1 to 16, or the first serial is 0.
    EnrolmentOutOfRange = 7,
    /// The user is not enrolled.
    NotEnrolled = 8,
    /// The interval is 0.
    IntervalZero = 9,
    /// The wanted list has over 16 groups, a 0 or a group twice.
    WantedListFaulty = 10,
    /// The next serial is above 4,294,967,271.
    SerialsUsedUp = 11,
    /// The new row would have over 24 entries.
    RowTooLong = 12,
    /// The radio holds the group already.
    HeldAlready = 13,
    /// The user holds N2 groups, and not this one.
    LimitReached = 14,
    /// Expires is neither 0 nor 4,294,967,295.
    ExpiresOutOfRange = 15,
    /// The group has no document.
    NoDocument = 16,
    /// The document does not name the user.
    UserNotNamed = 17,
    /// A sheet has 512 bytes, and this has not.
    NotSheetSize = 18,
    /// The sum in the last four bytes is wrong.
    WrongSum = 19,
    /// The content is against the layout of a sheet or the rules of a document.
    ContentFaulty = 20,
    /// The roster carries its full number of groups.
    RosterFull = 21,
}

/// Whose doing a refusal is.
#[derive(Clone, Copy, PartialEq, Eq)]
pub enum Party {
    Integrator,
    Technician,
    RadioSide,
    OutsideServer,
    GroupOffice,
}

/// The SIP answer that goes with a refusal, where an outside server waits for one.
#[derive(Clone, Copy, PartialEq, Eq)]
pub struct SipAnswer {
    pub code: u16,
    pub min_expires: Option<u32>,
}
