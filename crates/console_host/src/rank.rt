//! The order of the rules.
ghost use Rattle.std.specs.Prelude.{◌≡◌};
ghost use Rattle.console_host.specs.Judging.{rank, lesser};

use psd_base::console::RuleName;

/// The place of a rule in the order in which rules are named: the fixed ones, the deny list's, the allow list's.
fn rank(rule: RuleName) -> u16
    ensures { result ≡ rank rule }
{
    match rule {
        RuleName::Fixed(number) => u16::from(number),
        RuleName::Deny(place) => 256 + u16::from(place),
        RuleName::NotAllowed => 512,
    }
}

/// The rule that comes first of the least so far and this one.
pub fn lesser(least: Option<RuleName>, rule: RuleName) -> RuleName
    ensures { result ≡ lesser least rule }
{
    match least {
        None => rule,
        Some(before) => {
            if rank(rule) < rank(before) {
                rule
            } else {
                before
            }
        }
    }
}
