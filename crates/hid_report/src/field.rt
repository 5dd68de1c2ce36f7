//! A field of a report.

use crate::bit_size::BitSize;
use crate::usage::Span;
use arrayvec::ArrayVec;

/// One Input item that isn't constant: `count` elements of `size` bits each.
#[derive(Default, Drop)]
pub struct Field {
    pub id: u8,
    /// The bit of the report at which the field begins, its ID byte not counted.
    pub place: u16,
    pub size: BitSize,
    pub count: u32,
    pub variable: bool,
    pub relative: bool,
    pub minimum: i64,
    pub maximum: i64,
    pub spans: ArrayVec<Span, 32>,
}
