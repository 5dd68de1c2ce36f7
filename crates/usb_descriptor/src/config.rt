//! The configuration descriptor with all that belongs to it (USB 2.0, sections 9.6.3 to 9.6.6).

ghost use Rattle.std.specs.Prelude.{◌≡◌, ℕ, ◌+◌, ◌<◌, ◌≤◌, List, [], ◌∷◌, ◌^◌, length, Some, None, MatchResult, OnOk, IfErr};
ghost use Rattle.usb_descriptor.specs.declared.fault.DescWhy.{DescWhy as Why};
ghost use Rattle.usb_descriptor.specs.declared.descriptor.TheConstants.{CONFIGURATION};
ghost use Rattle.usb_descriptor.specs.Descriptor.{descriptors_of, kind_of};
ghost use Rattle.usb_descriptor.specs.Fault.{config_verdict, config_fault, total_fault, first_fault, IsHeadedBy};
ghost use Rattle.usb_descriptor.specs.Place.{StandsAt, ComesFirst};
ghost use Rattle.usb_descriptor.specs.Tally.{Tallies};

use crate::descriptor::{CONFIGURATION, split_first};
use crate::fault::{DescFault, DescWhy};
use crate::tally::Tally;
use crate::view::ConfigView;

/// Reads a configuration descriptor with the interface, endpoint and other descriptors that follow it.
///
/// The view borrows the bytes. Of the faults the first is named, at the first byte of its descriptor:
/// Short at 0 where there are fewer than 9 bytes; Kind where the first descriptor isn't of kind 2; Length
/// where a length is below 2, or 9 for kinds 2, 4 and 21 hexadecimal, or 7 for kind 5, or runs past the
/// end; Total at 2 where wTotalLength isn't the number of bytes; Order where an endpoint or HID descriptor
/// comes before any interface descriptor, a second configuration descriptor comes, or an interface number
/// comes twice with alternate setting 0; TooMany at the ninth interface or the seventeenth endpoint. At
/// one descriptor Kind comes before Length, Order and TooMany, in this order.
pub fn read_config(bytes: &[u8]) -> Result<ConfigView<'_>, DescFault>
    ensures verdict { result ≡ config_verdict bytes.now }

    // The bytes are read exactly where no fault stands anywhere. The fault that is named stands where it is
    // said to, and none stands before it or at its place and is judged earlier.
    ensures faultless { OnOk result ((why : Why) (at : ℕ) → StandsAt bytes.now why at → ⊥) }
    ensures stands { IfErr result (λ f. StandsAt bytes.now f.why f.at) }
    ensures first { IfErr result
        (λ f. (why : Why) (at : ℕ) → StandsAt bytes.now why at → ComesFirst f why at) }
{
    judged(bytes)
}

/// The view or the first fault.
fn judged(bytes: &[u8]) -> Result<ConfigView<'_>, DescFault>
    ensures { result ≡ config_verdict bytes.now }
{
    let (first, others) = split_head(bytes)?;
    check_total(bytes)?;
    let tally = tally_of(first, others)?;
    Ok(ConfigView::new(bytes, &tally))
}

/// The configuration descriptor and the bytes after it.
fn split_head(bytes: &[u8]) -> Result<(&[u8], &[u8]), DescFault>
    ensures { MatchResult result (λ p. IsHeadedBy bytes.now p.0.now p.1.now)
        (λ f. config_fault bytes.now ≡ Some f) }
{
    if bytes.len() < 9 {
        return Err(DescFault {
            at: 0,
            why: DescWhy::Short,
        });
    }
    if bytes[1] != CONFIGURATION {
        return Err(DescFault {
            at: 0,
            why: DescWhy::Kind,
        });
    }
    let Some((first, others)) = split_first(bytes) else {
        return Err(DescFault {
            at: 0,
            why: DescWhy::Length,
        });
    };
    Ok((first, others))
}

/// Refuses bytes whose number isn't their wTotalLength.
#[tactic(auto, unfolding(crate::specs::Fault::total_fault))]
fn check_total(bytes: &[u8]) -> Result<(), DescFault>
    requires { 9 ≤ length bytes.now }
    ensures verdict { MatchResult result (λ _. total_fault bytes.now ≡ None)
        (λ f. total_fault bytes.now ≡ Some f) }
    ensures places { OnOk result (length bytes.now < 2 ^ 16) }
{
    let total = u16::from_le_bytes([bytes[2], bytes[3]]);
    if usize::from(total) != bytes.len() {
        return Err(DescFault {
            at: 2,
            why: DescWhy::Total,
        });
    }
    Ok(())
}

/// The tally of the configuration descriptor and the others.
fn tally_of(first: &[u8], others: &[u8]) -> Result<Tally, DescFault>
    requires kind { kind_of first.now ≡ CONFIGURATION }
    requires places { length first.now + length others.now < 2 ^ 16 }
    ensures { MatchResult result
        (λ tally. (first_fault (first.now ∷ []) (descriptors_of others.now) ≡ None)
        × Tallies (first.now ∷ descriptors_of others.now) tally)
        (λ f. first_fault (first.now ∷ []) (descriptors_of others.now) ≡ Some f) }
{
    let mut tally = Tally::new();
    let mut rest = others;
    while !rest.is_empty() {
        match tally.add_first(rest) {
            Ok(after) => rest = after,
            Err(why) => {
                return Err(DescFault {
                    at: (first.len() + others.len() - rest.len()) as u16,
                    why,
                });
            }
        }
    }
    Ok(tally)
}
