//! What a refusal says of itself, answered from the definitions in specs.
ghost use Rattle.std.specs.Prelude.{◌≡◌, Some};
ghost use Rattle.mcptt.specs.Refusals.{number_of, party_of, words_of, sip_of};

use crate::refusal::{Party, Refusal, SipAnswer};
use std::fmt;

impl Refusal {
    /// The number that a host reports.
    pub fn number(self) -> u8
        ensures { result ≡ number_of self }
    {
        self as u8
    }

    /// Whose doing it is.
    pub fn party(self) -> Party
        ensures { result ≡ party_of (number_of self) }
    {
        match self {
            Refusal::SettingOutOfRange
            | Refusal::TimeBackwards
            | Refusal::TimeTooFar
            | Refusal::OutgoingTooShort
            | Refusal::NumberOutOfRange => Party::Integrator,
            Refusal::AlreadyEnrolled | Refusal::EnrolmentOutOfRange => Party::Technician,
            Refusal::NotEnrolled
            | Refusal::IntervalZero
            | Refusal::WantedListFaulty
            | Refusal::SerialsUsedUp
            | Refusal::RowTooLong
            | Refusal::HeldAlready
            | Refusal::LimitReached => Party::RadioSide,
            Refusal::ExpiresOutOfRange | Refusal::NoDocument | Refusal::UserNotNamed => {
                Party::OutsideServer
            }
            Refusal::NotSheetSize
            | Refusal::WrongSum
            | Refusal::ContentFaulty
            | Refusal::RosterFull => Party::GroupOffice,
        }
    }

    /// The SIP answer to an outside server, for the refusals that have one.
    pub fn sip(self) -> Option<SipAnswer>
        ensures { result ≡ sip_of (number_of self) }
    {
        match self {
            Refusal::ExpiresOutOfRange => Some(SipAnswer {
                code: 423,
                min_expires: Some(u32::MAX),
            }),
            Refusal::NoDocument | Refusal::UserNotNamed => Some(SipAnswer {
                code: 403,
                min_expires: None,
            }),
            _ => None,
        }
    }

    /// The refusal in words.
    pub fn words(self) -> &'static str
        ensures { result.now ≡ words_of self }
    {
        match self {
            Refusal::SettingOutOfRange => "timer F or grant G out of range",
            Refusal::TimeBackwards => "earlier than the time",
            Refusal::TimeTooFar => "time above 1099511627776",
            Refusal::OutgoingTooShort => "outgoing list under 24 places",
            Refusal::NumberOutOfRange => "number out of range",
            Refusal::AlreadyEnrolled => "already enrolled",
            Refusal::EnrolmentOutOfRange => "N2 not 1 to 16, or first serial 0",
            Refusal::NotEnrolled => "not enrolled",
            Refusal::IntervalZero => "interval 0",
            Refusal::WantedListFaulty => "over 16 wanted groups, a 0 or a group twice",
            Refusal::SerialsUsedUp => "next serial above 4294967271",
            Refusal::RowTooLong => "new row over 24 entries",
            Refusal::HeldAlready => "radio holds the group",
            Refusal::LimitReached => "user holds N2 groups and not this one",
            Refusal::ExpiresOutOfRange => "Expires neither 0 nor 4294967295",
            Refusal::NoDocument => "group without a document",
            Refusal::UserNotNamed => "user not named",
            Refusal::NotSheetSize => "not 512 bytes",
            Refusal::WrongSum => "wrong sum",
            Refusal::ContentFaulty => "content against the layout or the rules of a document",
            Refusal::RosterFull => "roster full",
        }
    }
}

impl fmt::Display for Refusal {
    ghost output = { λ r. Some (words_of r) };

    fn fmt<W: fmt::Write>(&self, f: &mut fmt::Formatter<W>) -> fmt::Result {
        f.write_str(self.words())
    }
}
