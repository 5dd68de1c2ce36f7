//! The numbers in a report.
ghost use Rattle.std.specs.Prelude.{◌≡◌, ◌+◌, ◌≤◌, ◌<◌, ◌^◌, ◌/◌, ◌%◌, slice_index};
ghost use Rattle.hid_report.specs.Elements.{raw_bits};

use crate::bit_place::BitPlace;
use crate::bit_size::BitSize;

/// A byte of a report, or 0 behind its end.
#[inline(always)]
pub fn byte_at(report: &[u8], index: u64) -> u64
    ensures value { result ≡ slice_index report.now index }
    ensures small { result < 256 }
{
    if index >= report.len() as u64 {
        return 0;
    }
    report[index as usize] as u64
}

/// `bits` bits of a report from bit `place` on, which lie in one byte.
#[inline(always)]
fn piece_at(report: &[u8], place: u64, bits: u64) -> u64
    requires { place % 8 + bits ≤ 8 }
    ensures value { result ≡ slice_index report.now (place / 8) / 2 ^ (place % 8) % 2 ^ bits }
    ensures narrow { result < 2 ^ bits }
{
    (byte_at(report, place / 8) >> (place % 8)) % (1 << bits)
}

/// The number that `size` bits of a report make, the least significant first.
#[tactic(auto, using(crate::proofs::ElementLaws::piece_steps))]
#[inline(always)]
pub fn number_at(report: &[u8], place: BitPlace, size: BitSize) -> u64
    ensures value { result ≡ raw_bits report.now place size }
    ensures narrow { result < 2 ^ size }
    ensures fits { result < 2 ^ 32 }
{
    let bit = place.bit();
    let bits = size.bits() as u64;
    if bit % 8 + bits <= 8 {
        return piece_at(report, bit, bits);
    }
    pieces_at(report, bit, size)
}

/// The same, read byte by byte.
fn pieces_at(report: &[u8], place: u64, size: BitSize) -> u64
    requires { place < 2 ^ 63 }
    ensures value { result ≡ raw_bits report.now place size }
    ensures narrow { result < 2 ^ size }
    ensures fits { result < 2 ^ 32 }
{
    let size = size.bits() as u64;
    let mut value = 0;
    let mut taken = 0;
    while taken < size {
        let bits = (8 - (place + taken) % 8).min(size - taken);
        value += piece_at(report, place + taken, bits) * (1 << taken);
        taken += bits;
    }
    value
}
