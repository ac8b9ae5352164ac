//! A small site, call by call: one proved fact about the rules of the serving half.
#![tactic(auto)]

ghost use Rattle.small_site.specs.SmallSite.{SmallSite};

/// The calls of user 7 on a small site come out as `specs/SmallSite.antt` writes them down.
pub fn small_site_stands() -> u8
    ensures { SmallSite }
{
    0
}
