//! Numbers as decimal digits say them.
ghost use Rattle.std.specs.Prelude.{◌≡◌};
ghost use Rattle.psd_base.specs.Reading.{number_after, number_in, with_digit};

/// The number with one more decimal digit.
#[tactic(auto, unfolding(crate::specs::Reading::with_digit))]
fn with_digit(number: u32, byte: u8) -> Option<u32>
    ensures { result ≡ with_digit number byte }
{
    if byte.is_ascii_digit() {
        number.checked_mul(10)?.checked_add(u32::from(byte - b'0'))
    } else {
        None
    }
}

/// The number that a word of decimal digits says, or `None` where a byte is no digit or the number has more than 32
/// bits. Zeros may stand before it, and no digits say 0: a reader of one spelling alone refuses these itself.
#[tactic(auto, unfolding(crate::specs::Reading::number_in, crate::specs::Reading::number_after))]
pub fn number_in(word: &[u8]) -> Option<u32>
    ensures { result ≡ number_in word.now }
{
    let mut number = 0;
    'digits: for byte in word {
        number = with_digit(number, *byte)?;
    }
    Some(number)
}
