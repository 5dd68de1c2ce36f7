//! The items of a report descriptor (HID 1.11, 6.2.2).
ghost use Rattle.std.specs.Prelude.{◌≡◌, ◌≢◌, ◌<◌, ◌≤◌, length, slice_index, IfSome};
ghost use Rattle.hid_report.specs.Items.{data_size, item_length, first_item, datum_of, item_by, main_item, global_item, local_item, flags_of};

/// The data of a short item: an unsigned number, and how many bytes it has (0, 1, 2 or 4).
#[derive(Clone, Copy, Default)]
pub struct Datum {
    pub raw: u32,
    pub bytes: u8,
}

/// What an Input item says of its elements.
#[derive(Clone, Copy)]
pub struct Flags {
    pub constant: bool,
    /// Each element is one usage, else an index into the list of usages.
    pub variable: bool,
    pub relative: bool,
}

/// The global items that a field keeps.
#[derive(Clone, Copy)]
pub enum Global {
    UsagePage,
    LogicalMinimum,
    LogicalMaximum,
    ReportSize,
    ReportId,
    ReportCount,
}

#[derive(Clone, Copy)]
pub enum Item {
    Input(Flags),
    /// Output or Feature: it gives no field and no bits.
    OtherMain,
    Collection,
    EndCollection,
    Global(Global, Datum),
    Push,
    Pop,
    Usage(Datum),
    UsageMinimum(Datum),
    UsageMaximum(Datum),
    /// An item of no meaning here, long items among them.
    Other,
}

/// An item, and how many bytes it has with its prefix.
#[derive(Clone, Copy)]
pub struct Entry {
    pub item: Item,
    pub length: usize,
}

/// The first byte of a long item, whose data's length stands in its second byte.
const LONG_ITEM: u8 = 0xFE;

fn data_bytes(prefix: u8) -> u8
    ensures value { result ≡ data_size prefix }
    ensures few { result ≤ 4 }
{
    if prefix % 4 == 3 { 4 } else { prefix % 4 }
}

fn length_of(bytes: &[u8]) -> usize
    requires { 0 < length bytes.now }
    ensures value { result ≡ item_length bytes.now }
    ensures some { 0 < result }
{
    if bytes[0] != LONG_ITEM {
        return 1 + data_bytes(bytes[0]) as usize;
    }
    if bytes.len() > 1 {
        3 + bytes[1] as usize
    } else {
        3
    }
}

#[tactic(auto, unfolding(crate::specs::Items::datum_of))]
fn datum_at(bytes: &[u8]) -> Datum
    requires whole { item_length bytes.now ≤ length bytes.now }
    requires short { slice_index bytes.now 0 ≢ 0xfe }
    ensures { result ≡ datum_of bytes.now }
{
    let size = data_bytes(bytes[0]);
    let raw = if size == 0 {
        0
    } else if size == 1 {
        bytes[1] as u32
    } else if size == 2 {
        u16::from_le_bytes([bytes[1], bytes[2]]) as u32
    } else {
        u32::from_le_bytes([bytes[1], bytes[2], bytes[3], bytes[4]])
    };
    Datum { raw, bytes: size }
}

fn main_at(tag: u8, datum: Datum) -> Item
    ensures { result ≡ main_item tag datum }
{
    match tag {
        8 => Item::Input(Flags {
            constant: datum.raw % 2 == 1,
            variable: datum.raw / 2 % 2 == 1,
            relative: datum.raw / 4 % 2 == 1,
        }),
        9 => Item::OtherMain,
        10 => Item::Collection,
        11 => Item::OtherMain,
        12 => Item::EndCollection,
        _ => Item::Other,
    }
}

fn global_at(tag: u8, datum: Datum) -> Item
    ensures { result ≡ global_item tag datum }
{
    match tag {
        0 => Item::Global(Global::UsagePage, datum),
        1 => Item::Global(Global::LogicalMinimum, datum),
        2 => Item::Global(Global::LogicalMaximum, datum),
        7 => Item::Global(Global::ReportSize, datum),
        8 => Item::Global(Global::ReportId, datum),
        9 => Item::Global(Global::ReportCount, datum),
        10 => Item::Push,
        11 => Item::Pop,
        _ => Item::Other,
    }
}

fn local_at(tag: u8, datum: Datum) -> Item
    ensures { result ≡ local_item tag datum }
{
    match tag {
        0 => Item::Usage(datum),
        1 => Item::UsageMinimum(datum),
        2 => Item::UsageMaximum(datum),
        _ => Item::Other,
    }
}

fn item_at(kind: u8, tag: u8, datum: Datum) -> Item
    ensures { result ≡ item_by kind tag datum }
{
    match kind {
        0 => main_at(tag, datum),
        1 => global_at(tag, datum),
        2 => local_at(tag, datum),
        _ => Item::Other,
    }
}

/// The first item of `bytes`, or None where it runs past their end.
#[tactic(auto, unfolding(crate::specs::Items::first_item))]
pub fn read_item(bytes: &[u8]) -> Option<Entry>
    requires { 0 < length bytes.now }
    ensures value { result ≡ first_item bytes.now }
    ensures some { IfSome result (λ entry. 0 < entry.length × entry.length ≤ length bytes.now) }
{
    let length = length_of(bytes);
    if length > bytes.len() {
        return None;
    }
    let prefix = bytes[0];
    if prefix == LONG_ITEM {
        return Some(Entry {
            item: Item::Other,
            length,
        });
    }
    let item = item_at(prefix / 4 % 4, prefix / 16, datum_at(bytes));
    Some(Entry { item, length })
}
