//! The values of the global items.
ghost use Rattle.std.specs.Prelude.{◌≡◌, ◌<◌, ◌^◌};
ghost use Rattle.hid_report.specs.Globals.{no_globals, with_global, signed_value, signed_datum};
ghost use Rattle.hid_report.specs.Fields.{logical_maximum};

use crate::item::{Datum, Global};

/// The values of the global items that a field keeps; 0 where none was given.
#[derive(Clone, Copy, Default)]
pub struct Globals {
    pub page: u32,
    pub minimum: Datum,
    pub maximum: Datum,
    pub size: u32,
    pub count: u32,
    pub id: u8,
}

impl Globals {
    /// The values where no global item was given.
    pub fn new() -> Globals
        ensures { result ≡ no_globals }
    {
        let zero = Datum { raw: 0, bytes: 0 };
        Globals {
            page: 0,
            minimum: zero,
            maximum: zero,
            size: 0,
            count: 0,
            id: 0,
        }
    }

    /// The values after a global item.
    pub fn with(self, tag: Global, datum: Datum) -> Globals
        requires { tag ≡ Global.ReportId → datum.raw < 256 }
        ensures { result ≡ with_global tag datum self }
    {
        match tag {
            Global::UsagePage => Globals {
                page: datum.raw,
                ..self
            },
            Global::LogicalMinimum => Globals {
                minimum: datum,
                ..self
            },
            Global::LogicalMaximum => Globals {
                maximum: datum,
                ..self
            },
            Global::ReportSize => Globals {
                size: datum.raw,
                ..self
            },
            Global::ReportId => Globals {
                id: datum.raw as u8,
                ..self
            },
            Global::ReportCount => Globals {
                count: datum.raw,
                ..self
            },
        }
    }

    /// The largest value that counts: taken unsigned where it lies below the minimum.
    pub fn logical_maximum(&self) -> i64
        ensures { result ≡ logical_maximum self.now }
    {
        let maximum = signed_data(self.maximum);
        if maximum < signed_data(self.minimum) {
            self.maximum.raw as i64
        } else {
            maximum
        }
    }
}

/// `raw` as a number of which the upper half of the range, from `half` on, stands for negative numbers.
pub fn signed(half: u64, raw: u64) -> i64
    requires half_fits { half < 2 ^ 32 }
    requires raw_fits { raw < 2 ^ 33 }
    ensures { result ≡ signed_value half raw }
{
    if raw < half {
        raw as i64
    } else {
        raw as i64 - 2 * half as i64
    }
}

/// An item's data as a signed number.
pub fn signed_data(datum: Datum) -> i64
    ensures value { result ≡ signed_datum datum }
{
    match datum.bytes {
        1 => signed(128, datum.raw as u64),
        2 => signed(32768, datum.raw as u64),
        4 => signed(2147483648, datum.raw as u64),
        _ => datum.raw as i64,
    }
}
