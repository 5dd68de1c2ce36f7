//! Report descriptors with their answers, found by hand from HID 1.11 and the limits of `LayoutWhy`.
//!
//! A row `DESCRIPTOR => ANSWER` has the fault with its place, or `ok` and what the layout has: keys, a
//! pointer, an absolute axis. A row `DESCRIPTOR | REPORT => KEYS ; SAMPLE` has the keys that are down in
//! ascending order or `none`, and the buttons, X, Y and wheel; `-` where the report isn't read so. Bytes are
//! hexadecimal, `17*a101` is 17 times a101, and a row with `#` gives the reason for the next ones.
use crate::hexadecimal::hex;
use hid_report::{Layout, read_layout};
use std::alloc::{AllocError, Global};
use std::process::Abort;
use std::test::Fail;

/// The descriptors with a name.
const NAMES: [(&str, &str); 4] = [
    ("@keyboard", KEYBOARD),
    ("@boot", BOOT_KEYBOARD),
    ("@mouse", MOUSE),
    ("@packed", PACKED_MOUSE),
];

/// A keyboard of 8 modifiers, 5 lamps and 6 keys; bounds and usages up to 0xA4.
const KEYBOARD: &str =
    "05010906a101050719e029e71500250175019508810295017508810195057501050819012905910295017503910195067508150026a4000507190029a48100c0";

/// A mouse of 5 buttons and X, Y and wheel of 8 bits from -127 to 127.
const MOUSE: &str =
    "05010902a1010901a1000509190129051500250195057501810295017503810105010930093109381581257f750895038106c0c0";

/// The boot keyboard without its lamps; bounds and usages up to 0x65.
const BOOT_KEYBOARD: &str =
    "05010906a101050719e029e7150025017501950881029501750881039506750815002565190029658100c0";

/// Five buttons, X and Y of 12 bits from -2047 to 2047 in three bytes, and a wheel of 8 bits.
const PACKED_MOUSE: &str =
    "05010902a1010901a100050919012905150025017501950581027503950181030501093009311601f826ff07750c9502810609381581257f750895018106c0c0";

const ENDS: &str = "
# no item, and nothing open
 => ok
# the last item ends with the bytes; one and two bytes of data announced, and none or one there
0501 => ok
05 => Truncated 0
0601 => Truncated 0
# four announced, three there, at the second item
0501 07000000 => Truncated 2
# a long item of two bytes of data; without the last of them; without its length; without its tag
fe0200aabb => ok
fe0200aa => Truncated 0
fe => Truncated 0
0501 fe00 => Truncated 2
# an End Collection in the data of a long item is none
fe0100c0 a101 c0 => ok
c0 => Unbalanced 0
a101 => Unbalanced 2
a101 c0 c0 => Unbalanced 3
# the length is the place of a collection left open
a101 a100 c0 => Unbalanced 5
b4 => Unbalanced 0
a4 b4 => ok
a4 b4 b4 => Unbalanced 2
# the first faulty place is named: a wide field before a cut item
7521 9501 8102 05 => Wide 4
";

const SIZES: &str = "
9501 8102 => ZeroSize 2
7500 9501 8102 => ZeroSize 4
# no element, a constant item, an Output item
7500 9500 8102 => ok
7500 9501 8103 => ok
7500 9501 9102 => ok
# the least and the largest ID, in one, two and four bytes
8501 85ff 86ff00 8701000000 => ok
8500 => BadId 0
860001 => BadId 0
8501 8700000100 => BadId 2
# an item without data gives 0
84 => BadId 0
# 32 bits, 33 bits, and 33 bits of a field without elements; a constant item may be wider
7520 9501 8102 => ok
7521 9501 8102 => Wide 4
7521 9500 8102 => Wide 4
7521 9501 8103 => ok
";

const COUNTS: &str = "
# 64 fields and 65; fields without elements count too, constant items don't
7501 9501 64*8102 => ok
7501 9501 65*8102 => Fields 132
7501 9500 64*8102 => ok
7501 9500 65*8102 => Fields 132
7501 9501 65*8103 => ok
# 16 collections are within the limit, but open at the end; closed ones make room
16*a101 16*c0 => ok
16*a101 => Unbalanced 32
17*a101 => Depth 32
16*a101 c0 a101 => Unbalanced 35
16*a101 c0 a101 a101 => Depth 35
40*a101c0 => ok
# 4 Pushes and 5; closed ones make room
4*a4 => ok
5*a4 => Pushes 4
4*a4 b4 a4 => ok
4*a4 b4 a4 a4 => Pushes 6
# Pop returns to the size at its Push, also from two levels; without it the size stays
7508 a4 7521 b4 9501 8102 => ok
7508 a4 7521 9501 8102 => Wide 7
7508 a4 7510 a4 7521 b4 b4 9501 8102 => ok
7508 a4 7510 a4 7521 b4 7521 9501 8102 => Wide 13
";

const USAGES: &str = "
32*0901 => ok
33*0901 => Usages 64
# a range is one more
31*0901 1901 2903 => ok
32*0901 1901 2903 => Usages 66
# a maximum below its minimum and one without a minimum don't count
32*0901 1905 2904 => ok
32*0901 2903 => ok
# a maximum uses its minimum up: the second doesn't count
31*0901 1901 2903 2905 => ok
# a main item ends the list, Output too; one of an unknown tag doesn't
32*0901 8102 0901 => ok
32*0901 9102 0901 => ok
32*0901 d0 0901 => Usages 65
# a minimum of page 7 in 4 bytes, above a short maximum of page 0 and below one of page 7
0500 32*0901 1b04000700 2905 => ok
0507 32*0901 1b04000700 2905 => Usages 71
";

const LENGTHS: &str = "
# 512 bits, of fields or constant, and more
7520 9510 8102 => ok
7520 9511 8102 => Long 4
7501 960002 8103 => ok
7501 960102 8103 => Long 5
# two items of 256 bits, and one bit more
7520 9508 8102 8102 => ok
7520 9508 8102 8102 7501 9501 8102 => Long 12
# 63 bytes and the ID byte, 64 bytes and the ID byte
8501 7508 953f 8102 => ok
8501 7508 9540 8102 => Long 6
# each report is counted apart
8501 7520 950f 8102 8502 8102 => ok
# the first Report ID item makes the report before it longer
7508 953f 8102 8501 => ok
7520 9510 8102 8501 => Long 6
# the product of the largest size and count
77ffffffff 97ffffffff 8103 => Long 10
# Output and Feature items have no bits here
7520 9520 9102 b102 => ok
";

const RANKS: &str = "
# Wide comes before Long, ZeroSize before Fields, Fields before Wide, BadId before Long
7521 9510 8102 => Wide 4
7501 9500 64*8102 7500 9501 8102 => ZeroSize 136
7501 9500 64*8102 7521 8102 => Fields 134
7520 9510 8102 8500 => BadId 6
";

const HAVE: &str = "
@keyboard => ok keys
@mouse => ok pointer
# a vendor page
0600ff 0901 a101 0902 1500 26ff00 7508 9508 8102 c0 => ok
# consumer keys are no keys here
050c0901a10185011900 2a3c021500263c02 950175108100c0 => ok
# a tablet; an absolute wheel is no absolute axis; a relative axis of 17 bits is neither read nor absolute
0501 0930 0931 1500 26ff7f 7510 9502 8102 => ok absolute
0501 0938 1581 257f 7508 9501 8102 => ok
0501 0930 160080 26ff7f 7511 9501 8106 => ok
# keys and a pointer in one interface
8501 0507 0904 15002501 7501 9501 8102 8502 0501 0930 1581 257f 7508 9501 8106 => ok keys pointer
# an array that lists no passed-on key, one that does, and one without elements
0507 1901 2903 1501 2503 7508 9501 8100 => ok
0507 1900 2904 1500 2504 7508 9501 8100 => ok keys
0507 1900 2904 1500 2504 7508 9500 8100 => ok
# more usages than elements: the key comes too late
0507 0901 0904 15002501 7501 9501 8102 => ok
# an array of buttons is no pointer field
0509 1901 2905 1501 2505 7508 9501 8100 => ok
";

const KEYBOARDS: &str = "
# left shift and A; the keyboard can't tell its keys; a byte is missing
@keyboard | 0200040000000000 => 04e1 ; -
@keyboard | 0000010101010101 => - ; -
@keyboard | 02000400000000 => - ; -
# the boot keyboard of HID 1.11, appendix B.1, without lamps: 0x66 is above its logical maximum 0x65
@boot | 0200040500000000 => 0405e1 ; -
@boot | 0000660000000000 => none ; -
# one rollover element is enough; a byte too many
@boot | 0000040000000001 => - ; -
@boot | 000000000000000000 => - ; -
# report ID 1: right GUI and 0x29, by this ID and by another one
05010906a101 8501 0507 19e029e7 15002501 7501 9508 8102 9506 7508 1500 26a400 1900 2aa400 8100 c0 | 0180290000000000 => 29e7 ; -
05010906a101 8501 0507 19e029e7 15002501 7501 9508 8102 9506 7508 1500 26a400 1900 2aa400 8100 c0 | 0280290000000000 => - ; -
# a bit for each of 128 keys from 0x04 on
05010906a101 0507 1904 2983 15002501 7501 9580 8102 c0 | 01000000000000000000000000000080 => 0483 ; -
05010906a101 0507 1904 2983 15002501 7501 9580 8102 c0 | 00000000000000000000000000000000 => none ; -
# two usages for eight bits: the last one counts on
0507 1904 2905 15002501 7501 9508 8102 | 04 => 05 ; -
0507 1904 2905 15002501 7501 9508 8102 | 01 => 04 ; -
# a key interface behind a vendor page with another ID
0600ff 0901 a101 8501 1500 26ff00 7508 9502 0901 8102 c0 05010906a101 8502 0507 19e029e7 2501 7501 9508 8102 c0 | 0201 => e0 ; -
";

const VALUES: &str = "
# two bits from -1 to 1: 3 is -1, 2 is -2, which doesn't count
0507 0904 15ff 2501 7502 9501 8102 | 03 => 04 ; -
0507 0904 15ff 2501 7502 9501 8102 | 02 => none ; -
0507 0904 15ff 2501 7502 9501 8102 | 01 => 04 ; -
# a maximum of -1 below the minimum 0 is 255
0507 1900 29ff 1500 25ff 7508 9501 8100 | a4 => a4 ; -
# a maximum below the minimum also when unsigned: no value counts
0507 1904 2909 1505 2503 7508 9501 8100 | 04 => none ; -
# an array whose minimum is 1: its value 5 is the fifth usage
0507 1904 2908 1501 2505 7508 9501 8100 | 05 => 08 ; -
0507 1904 2908 1501 2505 7508 9501 8100 | 00 => none ; -
# an array from -2 on: the value -2 is the first usage
0507 1904 2908 15fe 2502 7508 9501 8100 | fe => 04 ; -
# an array that lists a usage and then a range: the third is the range's second; beyond the list is nothing
0507 0929 1904 2908 1500 2507 7508 9501 8100 | 02 => 05 ; -
0507 0929 1904 2905 1500 2507 7508 9501 8100 | 03 => none ; -
# rollover in an array that isn't usable for keys
0507 1901 2903 1501 2503 7508 9501 8100 1904 2910 1500 250c 8100 | 0100 => - ; -
0507 1901 2903 1501 2503 7508 9501 8100 1904 2910 1500 250c 8100 | 0000 => 04 ; -
";

const PAGES: &str = "
# a usage of 4 bytes has its page with it
0b04000700 15002501 7501 9501 8102 | 01 => 04 ; -
# a short usage takes the page at the main item
0904 0507 15002501 7501 9501 8102 | 01 => 04 ; -
0507 0904 0509 15002501 7501 9501 8102 | 01 => - ; 8 0 0 0
# a short minimum and a long maximum
0507 1904 2b06000700 15002501 7501 9503 8102 | 07 => 040506 ; -
# a usage between minimum and maximum stands before the range; the later of two minimums counts
0507 1904 0929 2906 15002501 7501 9504 8102 | 01 => 29 ; -
0507 1904 1910 2911 15002501 7501 9501 8102 | 01 => 10 ; -
# an Output item ends the list
0507 0904 7501 9501 9102 15002501 8102 | 01 => - ; -
# a page above 65,535 is no page that is asked for
0707000100 0904 15002501 7501 9501 8102 | 01 => - ; -
# Pop brings the ID back
8501 a4 8502 b4 0507 0904 15002501 7501 9501 8102 | 0101 => 04 ; -
8501 a4 8502 b4 0507 0904 15002501 7501 9501 8102 | 0201 => - ; -
# a field before the first Report ID item has the ID 0, and its report a zero byte before it
0507 0904 15002501 7501 9501 8102 8501 8102 | 0001 => 04 ; -
0507 0904 15002501 7501 9501 8102 8501 8102 | 01 => - ; -
# a range that is empty by the page at its maximum stays out, also where a later page would fill it
0500 1b04000700 2905 0507 15002501 7501 9501 8102 | 01 => - ; -
# a range that the page at the main item empties gives no usage
0507 1b04000700 2905 0904 0500 15002501 7501 9502 8102 | 01 => - ; -
";

const MICE: &str = "
@mouse | 05fb0a01 => - ; 5 -5 10 1
# -128 is below the logical minimum
@mouse | 00800000 => - ; 0 0 0 0
# five buttons, X and Y of 12 bits from -2047 to 2047 in three bytes: buttons 1 and 5, X 0x123, Y 0xffe
@packed | 1123e1ff81 => - ; 17 291 -2 -127
# X 0x800 is -2048
@packed | 0000080000 => - ; 0 0 0 0
# report ID 1, by this ID and by another one
05010902a1018501 0901a100 0509 1901 2903 15002501 9503 7501 8102 9501 7505 8103 0501 0930 0931 1581 257f 7508 9502 8106 c0c0 | 010105fb => - ; 1 5 -5 0
05010902a1018501 0901a100 0509 1901 2903 15002501 9503 7501 8102 9501 7505 8103 0501 0930 0931 1581 257f 7508 9502 8106 c0c0 | 020105fb => - ; -
# a wheel alone
0501 0938 1581 257f 7508 9501 8106 | fe => - ; 0 0 0 -2
# 16 bits are read, 17 bits aren't
0501 0930 160080 26ff7f 7510 9501 8106 | 0080 => - ; 0 -32768 0 0
0501 0930 160080 26ff7f 7511 9501 8106 | 008000 => - ; -
# a button of 32 bits up to 4,294,967,295
0509 0901 1500 27ffffffff 7520 9501 8102 | 00000080 => - ; 1 0 0 0
# the first X counts, an absolute X isn't read
0501 0930 0930 1581 257f 7508 9502 8106 | 0305 => - ; 0 3 0 0
0501 0930 1581 257f 7508 9501 8102 0930 8106 | 0305 => - ; 0 5 0 0
# absolute axes beside buttons
0509 1901 2908 15002501 7501 9508 8102 0501 0930 0931 26ff00 7508 9502 8102 | 0a0102 => - ; 10 0 0 0
# an unsigned axis from 0 to 255
0501 0930 1500 26ff00 7508 9501 8106 | ff => - ; 0 255 0 0
";

#[test]
fn items_and_their_ends(rt: HostRuntime) -> Result<(), Fail> {
    check_rows(&rt, rt.alloc(), ENDS)
}

#[test]
fn sizes_and_ids(rt: HostRuntime) -> Result<(), Fail> {
    check_rows(&rt, rt.alloc(), SIZES)
}

#[test]
fn numbers_of_fields_collections_and_pushes(rt: HostRuntime) -> Result<(), Fail> {
    check_rows(&rt, rt.alloc(), COUNTS)
}

#[test]
fn usages_before_a_main_item(rt: HostRuntime) -> Result<(), Fail> {
    check_rows(&rt, rt.alloc(), USAGES)
}

#[test]
fn lengths_of_reports(rt: HostRuntime) -> Result<(), Fail> {
    check_rows(&rt, rt.alloc(), LENGTHS)
}

#[test]
fn several_faults_at_one_item(rt: HostRuntime) -> Result<(), Fail> {
    check_rows(&rt, rt.alloc(), RANKS)
}

#[test]
fn what_layouts_have(rt: HostRuntime) -> Result<(), Fail> {
    check_rows(&rt, rt.alloc(), HAVE)
}

#[test]
fn keyboards(rt: HostRuntime) -> Result<(), Fail> {
    check_rows(&rt, rt.alloc(), KEYBOARDS)
}

#[test]
fn values_and_bounds(rt: HostRuntime) -> Result<(), Fail> {
    check_rows(&rt, rt.alloc(), VALUES)
}

#[test]
fn pages_and_lists_of_usages(rt: HostRuntime) -> Result<(), Fail> {
    check_rows(&rt, rt.alloc(), PAGES)
}

#[test]
fn mice(rt: HostRuntime) -> Result<(), Fail> {
    check_rows(&rt, rt.alloc(), MICE)
}

fn check_rows(rt: &impl Abort, alloc: Global, rows: &str) -> Result<(), Fail> {
    for row in rows.lines() {
        if let Some((question, want)) = row.split_once(" => ") {
            check_row(rt, alloc, question, want)?;
        }
    }
    Ok(())
}

fn check_row(rt: &impl Abort, alloc: Global, question: &str, want: &str) -> Result<(), Fail> {
    let answer = match question.split_once(" | ") {
        None => layout_text(rt, alloc, question)?,
        Some((descriptor, report)) => report_text(rt, alloc, descriptor, report)?,
    };
    assert_eq!(rt; answer.as_str(), want, "{question}");
    Ok(())
}

/// The fault of a descriptor, or what its layout has.
fn layout_text(rt: &impl Abort, alloc: Global, descriptor: &str) -> Result<String, Fail> {
    let bytes = hex(alloc, &NAMES, descriptor)?;
    assert!(rt; bytes.len() < 65536);
    let layout = match read_layout(bytes.as_slice()) {
        Err(fault) => return Ok(format!(in alloc; "{:?} {}", fault.why, fault.at)?),
        Ok(layout) => layout,
    };
    let mut text = String::from_str(alloc, "ok")?;
    for (has, name) in [
        (layout.has_keys(), " keys"),
        (layout.has_pointer(), " pointer"),
        (layout.has_absolute(), " absolute"),
    ] {
        if has {
            text.push_str(name)?;
        }
    }
    Ok(text)
}

/// What a layout reads in a report.
fn report_text(
    rt: &impl Abort,
    alloc: Global,
    descriptor: &str,
    report: &str,
) -> Result<String, Fail> {
    let bytes = hex(alloc, &NAMES, descriptor)?;
    assert!(rt; bytes.len() < 65536);
    let layout = read_layout(bytes.as_slice())?;
    let report = hex(alloc, &NAMES, report)?;
    let keys = keys_text(alloc, &layout, report.as_slice())?;
    let sample = match layout.pointer(report.as_slice()) {
        None => String::from_str(alloc, "-")?,
        Some(sample) => format!(in alloc;
            "{} {} {} {}",
            sample.buttons, sample.x, sample.y, sample.wheel
        )?,
    };
    Ok(format!(in alloc; "{keys} ; {sample}")?)
}

fn keys_text(alloc: Global, layout: &Layout, report: &[u8]) -> Result<String, AllocError> {
    let keys = match layout.keys(report) {
        None => return String::from_str(alloc, "-"),
        Some(keys) => keys,
    };
    if keys.is_empty() {
        return String::from_str(alloc, "none");
    }
    let mut text = String::new(alloc);
    for usage in 0..=255u8 {
        if keys.has(usage) {
            text.push_str(format!(in alloc; "{usage:02x}")?.as_str())?;
        }
    }
    Ok(text)
}
