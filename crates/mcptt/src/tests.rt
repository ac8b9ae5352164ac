//! Examples at the edges of each range, and the numbers of the refusals.
use crate::{
    ClientId, Group, GroupId, McpttId, Party, Radio, RadioSet, Refusal, ServedUser, Settings,
    SipAnswer, User,
};
use std::test::Fail;

fn served(number: u32) -> bool {
    ServedUser::try_from(McpttId { number }).is_ok()
}

fn radio(number: u32) -> bool {
    Radio::try_from(ClientId { number }).is_ok()
}

#[test]
fn ranges_of_identities(rt: HostRuntime) {
    assert!(rt; !served(0) && served(1) && served(64) && !served(65));
    assert!(rt; !radio(0) && radio(1) && radio(4) && !radio(5));
    assert!(rt; User::try_from(McpttId { number: 0 }).is_err());
    assert!(rt; User::try_from(McpttId { number: u32::MAX }).is_ok());
    assert!(rt; Group::try_from(GroupId { number: 0 }).is_err());
    assert!(rt; Group::try_from(GroupId { number: u32::MAX }).is_ok());
    assert!(rt; RadioSet::try_from(15).is_ok() && RadioSet::try_from(16).is_err());
}

#[test]
fn radios_of_a_set(rt: HostRuntime) -> Result<(), Fail> {
    let set = RadioSet::marked(true, false, false, true);
    assert!(rt; set.bits == 9);
    let expected = [(1, true), (2, false), (3, false), (4, true)];
    for (number, is_in) in expected.iter() {
        match Radio::try_from(ClientId { number: *number }) {
            Ok(radio) => assert!(rt; set.has(radio) == *is_in),
            Err(_) => return Err(Fail::new("a radio out of range")),
        }
    }
    Ok(())
}

#[test]
fn ranges_of_settings(rt: HostRuntime) -> Result<(), Fail> {
    let usual = Settings::usual();
    assert!(rt; usual.timer == 32 && usual.grant == 2_592_000);
    assert!(rt; Settings::of(1, 2_592_000).is_ok() && Settings::of(3600, u32::MAX).is_ok());
    assert!(rt; Settings::of(0, 2_592_000).is_err() && Settings::of(3601, 2_592_000).is_err());
    match Settings::of(32, 2_591_999) {
        Ok(_) => Err(Fail::new("a grant out of range")),
        Err(refusal) => {
            assert!(rt; refusal.number() == 1);
            Ok(())
        },
    }
}

#[test]
fn what_refusals_say(rt: HostRuntime) {
    let refusal = Refusal::ExpiresOutOfRange;
    let brief = SipAnswer {
        code: 423,
        min_expires: Some(u32::MAX),
    };
    assert!(rt; refusal.number() == 15 && refusal.party() == Party::OutsideServer);
    assert!(rt; refusal.sip() == Some(brief));
    assert!(rt; Refusal::UserNotNamed.sip().is_some() && Refusal::NotSheetSize.sip().is_none());
    assert!(rt; Refusal::NumberOutOfRange.party() == Party::Integrator);
    assert!(rt; Refusal::AlreadyEnrolled.party() == Party::Technician);
    assert!(rt; Refusal::NotEnrolled.party() == Party::RadioSide);
    assert!(rt; Refusal::RosterFull.party() == Party::GroupOffice);
    assert!(rt; Refusal::WrongSum.number() == 19 && Refusal::WrongSum.words() == "wrong sum");
}
