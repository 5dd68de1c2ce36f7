//! Where the value of an element lies in a report.
ghost use Rattle.std.specs.Prelude.{◌≡◌, ◌*◌, ◌<◌, ◌≤◌, ◌^◌, IfSome};
ghost use Rattle.hid_report.specs.Pointer.{IsSmall};
ghost use Rattle.hid_report.specs.Sources.{value_by, bounded, counted_by, value_from, weight_from, IsNarrow};

use crate::bit_place::BitPlace;
use crate::bit_size::BitSize;
use crate::globals::signed;
use crate::number::{byte_at, number_at};

/// What one element is read from, and its logical bounds.
#[derive(Clone, Copy)]
pub struct Source {
    pub place: BitPlace,
    pub size: BitSize,
    pub minimum: i64,
    pub maximum: i64,
}

impl Source {
    /// The value in a report, unless it is out of the logical bounds.
    #[inline(always)]
    pub fn counted(&self, report: &[u8]) -> Option<i64>
        ensures value { result ≡ counted_by self.now report.now }
        ensures small { self.now.size ≤ 16 → IfSome result (λ value. IsSmall value) }
    {
        let bit = self.place.bit();
        if self.size.bits() == 8 && bit % 8 == 0 {
            return self.counted_byte(report, bit / 8);
        }
        self.counted_bits(report)
    }

    /// The same of an element that is this byte.
    #[inline(always)]
    fn counted_byte(&self, report: &[u8], index: u64) -> Option<i64>
        requires size { self.now.size ≡ 8 }
        requires place { self.now.place ≡ index * 8 }
        ensures value { result ≡ counted_by self.now report.now }
        ensures small { IfSome result (λ value. IsSmall value) }
    {
        let byte = byte_at(report, index);
        bounded(BitSize::new(8), self.minimum, self.maximum, byte)
    }

    /// The same of an element of any bits.
    #[tactic(auto, unfolding(crate::specs::Sources::counted_by))]
    #[inline(always)]
    fn counted_bits(&self, report: &[u8]) -> Option<i64>
        ensures value { result ≡ counted_by self.now report.now }
        ensures small { self.now.size ≤ 16 → IfSome result (λ value. IsSmall value) }
    {
        let raw = number_at(report, self.place, self.size);
        bounded(self.size, self.minimum, self.maximum, raw)
    }
}

/// The value of an element whose bits make this number, unless it is out of the logical bounds.
#[inline(always)]
pub fn bounded(size: BitSize, minimum: i64, maximum: i64, raw: u64) -> Option<i64>
    requires { raw < 2 ^ 32 }
    ensures value { result ≡ bounded size minimum maximum raw }
    ensures small { size ≤ 16 → raw < 2 ^ size → IfSome result (λ value. IsSmall value) }
{
    let value = value_by(size, minimum, raw);
    if minimum <= value && value <= maximum {
        Some(value)
    } else {
        None
    }
}

#[inline(always)]
fn value_by(size: BitSize, minimum: i64, raw: u64) -> i64
    requires { raw < 2 ^ 32 }
    ensures value { result ≡ value_by size minimum raw }
    ensures small { size ≤ 16 → raw < 2 ^ size → IsSmall result }
{
    if minimum < 0 {
        signed((1 << size.bits() as u64) / 2, raw)
    } else {
        raw as i64
    }
}

/// What a report says by a source: 0 where there is none or its value is out of the logical bounds.
#[inline(always)]
fn value_from(source: &Option<Source>, report: &[u8]) -> i64
    ensures value { result ≡ value_from report.now source.now }
    ensures small { IsNarrow source.now → IsSmall result }
{
    match source {
        None => 0,
        Some(source) => match source.counted(report) {
            Some(value) => value,
            None => 0,
        },
    }
}

/// The weight of a button that is down, else 0.
#[inline(always)]
pub fn weight_from(source: &Option<Source>, report: &[u8], weight: u8) -> u8
    ensures value { result ≡ weight_from report.now source.now weight }
    ensures most { result ≤ weight }
{
    if value_from(source, report) == 0 {
        0
    } else {
        weight
    }
}

/// A motion: a value of at most 16 bits.
#[inline(always)]
pub fn motion_from(source: &Option<Source>, report: &[u8]) -> i32
    requires { IsNarrow source.now }
    ensures value { result ≡ value_from report.now source.now }
    ensures small { IsSmall result }
{
    value_from(source, report) as i32
}
