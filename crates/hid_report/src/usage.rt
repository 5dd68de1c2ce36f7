//! Usages, ranges of usages, and the lists that they make.
ghost use Rattle.std.specs.Prelude.{◌≡◌, ◌<◌, ◌≤◌, ◌^◌, length, map};
ghost use Rattle.std.specs.Prelude.{Option, None};
ghost use Rattle.std.specs.List.{list_any};
ghost use Rattle.hid_report.specs.Usages.{full_usage, span_of};
ghost use Rattle.hid_report.specs.Elements.{usage_at, last_usage, element_usage, meets, holds_key};

use crate::item::Datum;
use crate::page::KEYBOARD_PAGE;
use arrayvec::ArrayVec;

/// A usage or a range of usages as its items give it: an end of 4 bytes has its page in the high half, a
/// shorter one takes the Usage Page that stands at the main item.
#[derive(Clone, Copy, Default)]
pub struct UsageRange {
    pub low: Datum,
    pub high: Datum,
}

/// The usages from `low` to `high`, with their pages in the high half. It is empty where `high` is below `low`.
#[derive(Clone, Copy, Default)]
pub struct Span {
    pub low: u64,
    pub high: u64,
}

/// The usage with its page in the high half.
pub fn with_page(page: u32, datum: Datum) -> u64
    ensures value { result ≡ full_usage page datum }
    ensures fits { result < 2 ^ 49 }
{
    if datum.bytes == 4 {
        datum.raw as u64
    } else {
        page as u64 * 65536 + datum.raw as u64
    }
}

impl UsageRange {
    /// The range with the page of its main item.
    pub fn span(self, page: u32) -> Span
        ensures { result ≡ span_of page self }
    {
        Span {
            low: with_page(page, self.low),
            high: with_page(page, self.high),
        }
    }
}

/// The ranges with the page of their main item.
pub fn spans_of(ranges: &[UsageRange], page: u32) -> ArrayVec<Span, 32>
    requires { length ranges.now ≤ 32 }
    ensures { result.items ≡ map (span_of page) ranges.now }
{
    let mut spans = ArrayVec::new();
    for range in ranges {
        spans.push(range.span(page));
    }
    spans
}

/// The usage at place `n` of the list that the ranges make.
#[tactic(auto, using(crate::proofs::ElementLaws::usage_steps))]
pub fn nth_usage(spans: &[Span], n: u64) -> Option<u64>
    ensures { result ≡ usage_at spans.now n }
{
    let mut left = n;
    for span in spans {
        if span.low <= span.high {
            let last = span.high - span.low;
            if left <= last {
                return Some(span.low + left);
            }
            left -= last + 1;
        }
    }
    None
}

/// The last usage of the list.
#[tactic(auto, using(crate::proofs::ElementLaws::usage_steps))]
fn final_usage(spans: &[Span]) -> Option<u64>
    ensures { result ≡ last_usage None spans.now }
{
    let mut last = None;
    for span in spans {
        if span.low <= span.high {
            last = Some(span.high);
        }
    }
    last
}

/// The usage of element `j` of a variable item: the last one of the list counts on.
pub fn usage_of(spans: &[Span], j: u64) -> Option<u64>
    ensures { result ≡ element_usage spans.now j }
{
    match nth_usage(spans, j) {
        Some(usage) => Some(usage),
        None => final_usage(spans),
    }
}

fn meets_range(span: &Span, low: u64, high: u64) -> bool
    ensures { result ≡ meets span.now low high }
{
    span.low <= span.high && span.low <= high && low <= span.high
}

fn span_holds_key(span: &Span) -> bool
    ensures { result ≡ holds_key span.now }
{
    meets_range(span, KEYBOARD_PAGE + 0x04, KEYBOARD_PAGE + 0xA4)
        || meets_range(span, KEYBOARD_PAGE + 0xE0, KEYBOARD_PAGE + 0xE7)
}

/// Whether a list of usages has a key that is passed on.
pub fn lists_key(spans: &[Span]) -> bool
    ensures { result ≡ list_any holds_key spans.now }
{
    for span in spans {
        if span_holds_key(span) {
            return true;
        }
    }
    false
}
