//! The one pass over a report descriptor: what its items so far have left.
ghost use Rattle.std.specs.Prelude.{◌≡◌, ℕ, ◌+◌, ◌-◌, ◌*◌, ◌<◌, ◌≤◌, ◌==◌, nat_lt, true, false, List, [], ◌∷◌, ◌++◌, length, slice_index, OnOk, IfOk, IfErr, IfSome, Option, Some, None, if◌then◌else◌};
ghost use Rattle.arrayvec.specs.ArrayVec.{array_vec_len};
ghost use Rattle.hid_report.specs.State.{state, verdict, grown_bits, is_grown_long, field_fault, input_fault, next_field, without_locals, with_field, with_input, id_fault, global_fault, after_global, maximum_fault, form_in, refusal, Takes};
ghost use Rattle.std.specs.Option.{option_map};
ghost use Rattle.std.specs.List.{find};
ghost use Rattle.hid_report.specs.Wanted.{is_usable};
ghost use Rattle.hid_report.specs.Globals.{with_global};
ghost use Rattle.hid_report.specs.Usages.{range_to};
ghost use Rattle.hid_report.specs.Faults.{fault_of};

use crate::bit_size::BitSize;
use crate::element::Wanted;
use crate::fault::LayoutWhy;
use crate::field::Field;
use crate::globals::{Globals, signed_data};
use crate::item::{Datum, Flags, Global, Item, read_item};
use crate::report_form::ReportForm;
use crate::usage::{UsageRange, spans_of, with_page};
use arrayvec::ArrayVec;

/// The most bits of a report, its ID byte included.
const REPORT_BITS: u64 = 512;

/// The most collections that are open at once.
const DEPTH: u8 = 16;

/// The widest element, in bits.
const WIDEST: u32 = 32;

/// What the items so far have left: the global values and those at the open Pushes, the usages since the last
/// main item, the open collections, the fields, and the length of each report.
#[derive(Drop)]
pub struct Pass {
    pub current: Globals,
    /// What stood at each open Push, the oldest first.
    pub saved: ArrayVec<Globals, 4>,
    /// The usages since the last main item.
    pub usages: ArrayVec<UsageRange, 32>,
    /// The Usage Minimum that waits for its Usage Maximum.
    pub minimum: Option<Datum>,
    /// The collections that are open.
    pub depth: u8,
    pub fields: ArrayVec<Field, 64>,
    /// The bits so far of the report of each ID, without its ID byte.
    pub bits: [u16; 256],
    /// Whether some item is a Report ID.
    pub numbered: bool,
}

impl Pass {
    /// The pass before the first item.
    pub fn new() -> Pass
        ensures { result ≡ state [] }
    {
        Pass {
            current: Globals::new(),
            saved: ArrayVec::new(),
            usages: ArrayVec::new(),
            minimum: None,
            depth: 0,
            fields: ArrayVec::new(),
            bits: [0; 256],
            numbered: false,
        }
    }

    /// Takes the first item of `bytes`, and answers how many bytes it has.
    pub fn take_first(&mut self, bytes: &[u8]) -> Result<usize, LayoutWhy>
        requires { 0 < length bytes.now }
        ensures ok { (past : List Item) → self.old ≡ state past
            → IfOk result (λ size. Takes past bytes.now size self.new) }
        ensures err { (past : List Item) → self.old ≡ state past
            → IfErr result (λ why. refusal past bytes.now ≡ Some why) }
    {
        let entry = match read_item(bytes) {
            Some(entry) => entry,
            None => return Err(LayoutWhy::Truncated),
        };
        match self.take(entry.item) {
            Ok(()) => Ok(entry.length),
            Err(why) => Err(why),
        }
    }

    /// The form of the report with the first field that has what is wanted.
    pub fn form_with(&self, wanted: Wanted) -> Option<ReportForm>
        ensures value { result
            ≡ option_map (λ field. form_in self.now field.id)
            (find (is_usable wanted) self.now.fields.items) }
        ensures id { IfSome result (λ form. form.id < 256) }
    {
        for field in self.fields.as_slice() {
            if field.is_usable(wanted) {
                return Some(self.form_of(field.id));
            }
        }
        None
    }

    /// The form of the report of an ID.
    fn form_of(&self, id: u8) -> ReportForm
        ensures value { result ≡ form_in self.now id }
        ensures id { result.id < 256 }
    {
        let id_bits = if self.numbered { 8 } else { 0 };
        let bits = self.bits[id as usize] as u32 + id_bits;
        ReportForm {
            id,
            length: ((bits + 7) / 8) as u16,
        }
    }

    /// Takes an item, or answers the first of the faults that stand at it. The clauses speak of all items so
    /// far, the newest first.
    fn take(&mut self, item: Item) -> Result<(), LayoutWhy>
        ensures fault { (past : List Item) → self.old ≡ state past → result ≡ verdict (fault_of past item) }
        ensures step { (past : List Item) → self.old ≡ state past
            → OnOk result (self.new ≡ state (item ∷ past)) }
    {
        match item {
            Item::Input(flags) => self.input(flags),
            Item::OtherMain => {
                self.end_locals();
                Ok(())
            }
            Item::Collection => self.collection(),
            Item::EndCollection => self.end_collection(),
            Item::Global(tag, datum) => self.global(tag, datum),
            Item::Push => self.push(),
            Item::Pop => self.pop(),
            Item::Usage(datum) => self.push_usage(UsageRange {
                low: datum,
                high: datum,
            }),
            Item::UsageMinimum(datum) => {
                self.minimum = Some(datum);
                Ok(())
            }
            Item::UsageMaximum(datum) => self.usage_maximum(datum),
            Item::Other => Ok(()),
        }
    }

    /// An Input item: its report grows, and it gives a field where it isn't constant.
    fn input(&mut self, flags: Flags) -> Result<(), LayoutWhy>
        ensures id { self.old.current.id < 256 }
        ensures fault { result ≡ verdict (input_fault flags self.old) }
        ensures step { OnOk result (self.new ≡ with_input flags self.old) }
    {
        let id = self.current.id;
        if !flags.constant {
            match self.field_fault() {
                Some(why) => return Err(why),
                None => {}
            }
        }
        match self.grown() {
            None => Err(LayoutWhy::Long),
            Some(bits) => {
                self.add_field(flags);
                self.bits[id as usize] = bits;
                self.end_locals();
                Ok(())
            }
        }
    }

    /// What a field by the present values is refused for, its report's length aside.
    fn field_fault(&self) -> Option<LayoutWhy>
        ensures { result ≡ field_fault self.now }
    {
        if self.current.size == 0 && self.current.count > 0 {
            Some(LayoutWhy::ZeroSize)
        } else if self.fields.is_full() {
            Some(LayoutWhy::Fields)
        } else if self.current.size > WIDEST {
            Some(LayoutWhy::Wide)
        } else {
            None
        }
    }

    /// The bits of the present report after one more Input item, or None where it is above 512 bits.
    fn grown(&self) -> Option<u16>
        ensures { result ≡ (if is_grown_long self.now then None else Some (grown_bits self.now)) }
    {
        let id_bits = if self.numbered { 8 } else { 0 };
        let before = self.bits[self.current.id as usize];
        let bits = before as u64 + self.current.size as u64 * self.current.count as u64;
        if bits + id_bits > REPORT_BITS {
            None
        } else {
            Some(bits as u16)
        }
    }

    /// Adds the field of an Input item that isn't constant.
    fn add_field(&mut self, flags: Flags)
        requires room { flags.constant ≡ false → array_vec_len self.old.fields < 64 }
        requires narrow { flags.constant ≡ false → self.old.current.size ≤ 32 }
        ensures { self.new ≡ with_field flags self.old }
    {
        if !flags.constant {
            self.push_field(flags);
        }
    }

    /// Adds a field by the present values.
    fn push_field(&mut self, flags: Flags)
        requires room { array_vec_len self.old.fields < 64 }
        requires narrow { self.old.current.size ≤ 32 }
        ensures { self.new ≡ record self.old {
          fields = record { items = self.old.fields.items ++ next_field flags self.old ∷ [] };
        } }
    {
        let id = self.current.id;
        let field = Field {
            id,
            place: self.bits[id as usize],
            size: BitSize::new(self.current.size as u8),
            count: self.current.count,
            variable: flags.variable,
            relative: flags.relative,
            minimum: signed_data(self.current.minimum),
            maximum: self.current.logical_maximum(),
            spans: spans_of(self.usages.as_slice(), self.current.page),
        };
        self.fields.push(field);
    }

    /// Begins a collection.
    fn collection(&mut self) -> Result<(), LayoutWhy>
        ensures fault { result
            ≡ verdict (if nat_lt 16 (self.old.depth + 1) then Some LayoutWhy.Depth else None) }
        ensures step { OnOk result
            (self.new ≡ without_locals (record self.old { depth = self.old.depth + 1 })) }
    {
        if self.depth >= DEPTH {
            return Err(LayoutWhy::Depth);
        }
        self.depth += 1;
        self.end_locals();
        Ok(())
    }

    /// Ends a collection.
    fn end_collection(&mut self) -> Result<(), LayoutWhy>
        ensures fault { result ≡ verdict (if self.old.depth == 0 then Some LayoutWhy.Unbalanced else None) }
        ensures step { OnOk result
            (self.new ≡ without_locals (record self.old { depth = self.old.depth - 1 })) }
    {
        if self.depth == 0 {
            return Err(LayoutWhy::Unbalanced);
        }
        self.depth -= 1;
        self.end_locals();
        Ok(())
    }

    /// Forgets the usages, as each main item does.
    fn end_locals(&mut self)
        ensures { self.new ≡ without_locals self.old }
    {
        self.usages.clear();
        self.minimum = None;
    }

    /// A global item that sets a value.
    fn global(&mut self, tag: Global, datum: Datum) -> Result<(), LayoutWhy>
        ensures fault { result ≡ verdict (global_fault tag datum self.old) }
        ensures step { OnOk result (self.new ≡ after_global tag datum self.old) }
    {
        match tag {
            Global::ReportId => self.report_id(datum),
            Global::UsagePage
            | Global::LogicalMinimum
            | Global::LogicalMaximum
            | Global::ReportSize
            | Global::ReportCount => {
                self.current = self.current.with(tag, datum);
                Ok(())
            }
        }
    }

    /// A Report ID: from the first one on each report has an ID byte, so the one before it grows by it.
    fn report_id(&mut self, datum: Datum) -> Result<(), LayoutWhy>
        ensures fault { result ≡ verdict (id_fault datum self.old) }
        ensures step { OnOk result (self.new ≡ record self.old {
          current = with_global Global.ReportId datum self.old.current;
          numbered = true;
        }) }
    {
        if datum.raw == 0 || datum.raw > u8::MAX as u32 {
            return Err(LayoutWhy::BadId);
        }
        if self.bits[0] as u64 + 8 > REPORT_BITS {
            return Err(LayoutWhy::Long);
        }
        self.current = self.current.with(Global::ReportId, datum);
        self.numbered = true;
        Ok(())
    }

    /// Keeps the global values.
    fn push(&mut self) -> Result<(), LayoutWhy>
        ensures fault { result
            ≡ verdict (if nat_lt 4 (array_vec_len self.old.saved + 1) then Some LayoutWhy.Pushes else None) }
        ensures step { OnOk result (self.new ≡ record self.old {
          saved = record { items = self.old.saved.items ++ self.old.current ∷ [] };
        }) }
    {
        if self.saved.is_full() {
            return Err(LayoutWhy::Pushes);
        }
        self.saved.push(self.current);
        Ok(())
    }

    /// Returns to the values at the last open Push.
    fn pop(&mut self) -> Result<(), LayoutWhy>
        ensures fault { result
            ≡ verdict (if array_vec_len self.old.saved == 0 then Some LayoutWhy.Unbalanced else None) }
        ensures saved { OnOk result (self.old.saved.items ≡ self.new.saved.items ++ self.new.current ∷ []) }
        ensures rest { OnOk result
            (self.new ≡ record self.old { saved = self.new.saved; current = self.new.current }) }
    {
        match self.saved.pop() {
            None => Err(LayoutWhy::Unbalanced),
            Some(globals) => {
                self.current = globals;
                Ok(())
            }
        }
    }

    /// Lists a usage or a range.
    fn push_usage(&mut self, range: UsageRange) -> Result<(), LayoutWhy>
        ensures fault { result
            ≡ verdict (if nat_lt 32
            (array_vec_len self.old.usages + 1) then Some LayoutWhy.Usages else None) }
        ensures step { OnOk result (self.new ≡ record self.old {
          usages = record { items = self.old.usages.items ++ range ∷ [] };
        }) }
    {
        if self.usages.is_full() {
            return Err(LayoutWhy::Usages);
        }
        self.usages.push(range);
        Ok(())
    }

    /// Ends a range, and uses the minimum that waits up. Without one, or with one above it, there is no range.
    fn usage_maximum(&mut self, high: Datum) -> Result<(), LayoutWhy>
        ensures fault { result ≡ verdict (maximum_fault high self.old) }
        ensures step { OnOk result (self.new ≡ record self.old {
          usages = record {
            items = self.old.usages.items
                ++ range_to self.old.current.page self.old.minimum high;
          };
          minimum = None;
        }) }
    {
        match self.minimum {
            None => Ok(()),
            Some(low) => {
                self.minimum = None;
                if with_page(self.current.page, low) > with_page(self.current.page, high) {
                    return Ok(());
                }
                self.push_usage(UsageRange { low, high })
            }
        }
    }
}
