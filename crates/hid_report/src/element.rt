//! The elements of a field: their usages, and their values in a report.
ghost use Rattle.std.specs.Prelude.{◌≡◌, ◌<◌, ◌≤◌, ◌^◌, true, false, [], IfSome, OnSome};
ghost use Rattle.std.specs.List.{list_any};
ghost use Rattle.hid_report.specs.Elements.{element_usage, is_rollover, is_button, takes, usages_of, counted, down_usage, down_in};
ghost use Rattle.hid_report.specs.Wanted.{is_wanted, is_one, is_usable};
ghost use Rattle.hid_report.specs.Keys.{press_all};
ghost use Rattle.hid_report.specs.Pointer.{is_usage, find_element, find_for};
ghost use Rattle.hid_report.specs.Sources.{source_of};

use crate::bit_place::BitPlace;
use crate::bit_size::BitSize;
use crate::field::Field;
use crate::number::number_at;
use crate::page::{
    add_key, is_axis_usage, is_button_usage, is_motion_usage, is_passed_key, is_rollover_usage,
};
use crate::source::Source;
use crate::usage::{lists_key, nth_usage, usage_of};
use psd_base::KeySet;

/// What the usages of a field are looked through for.
#[derive(Clone, Copy)]
pub enum Wanted {
    /// A key that is passed on.
    Key,
    /// A button or a motion that is read.
    Pointer,
    /// X or Y.
    Axis,
}

impl Field {
    /// What element `j` is read from.
    #[inline(always)]
    pub fn source(&self, numbered: bool, j: u32) -> Source
        ensures { result ≡ source_of numbered self.now j }
    {
        let first_bit = if numbered { 8 } else { 0 };
        let place = first_bit + self.place as u64 + j as u64 * self.size.bits() as u64;
        Source {
            place: BitPlace::new(place),
            size: self.size,
            minimum: self.minimum,
            maximum: self.maximum,
        }
    }

    /// The value of element `j` in a report, unless it is out of the logical bounds.
    #[tactic(auto, unfolding(crate::specs::Elements::counted, crate::specs::Sources::counted_by))]
    #[inline(always)]
    fn counted(&self, numbered: bool, report: &[u8], j: u32) -> Option<i64>
        ensures { result ≡ counted self.now numbered report.now j }
    {
        self.source(numbered, j).counted(report)
    }

    /// The usage that element `j` of a report says is down.
    #[tactic(auto, unfolding(crate::specs::Elements::down_usage))]
    pub fn down_usage(&self, numbered: bool, report: &[u8], j: u32) -> Option<u64>
        ensures { result ≡ down_usage self.now numbered report.now j }
    {
        let value = match self.counted(numbered, report, j) {
            Some(value) => value,
            None => return None,
        };
        if !self.variable {
            return nth_usage(self.spans.as_slice(), value.abs_diff(self.minimum));
        }
        if value == 0 {
            None
        } else {
            usage_of(self.spans.as_slice(), j as u64)
        }
    }

    fn is_wanted(&self, wanted: Wanted, usage: u64) -> bool
        ensures { result ≡ is_wanted wanted self.now usage }
    {
        match wanted {
            Wanted::Key => is_passed_key(usage),
            Wanted::Pointer => self.takes(usage),
            Wanted::Axis => is_axis_usage(usage),
        }
    }

    fn is_wanted_at(&self, wanted: Wanted, j: u32) -> bool
        ensures { result ≡ is_one (is_wanted wanted self.now) (element_usage self.now.spans.items j) }
    {
        match usage_of(self.spans.as_slice(), j as u64) {
            None => false,
            Some(usage) => self.is_wanted(wanted, usage),
        }
    }

    /// Whether some element has a usage that is wanted.
    #[tactic(auto, using(crate::proofs::ElementLaws::element_steps))]
    pub fn has_element(&self, wanted: Wanted) -> bool
        ensures { result ≡ list_any (is_wanted wanted self.now) (usages_of self.now) }
    {
        for j in 0..self.count {
            if self.is_wanted_at(wanted, j) {
                return true;
            }
        }
        false
    }

    /// Whether the field is a usable key field or pointer field, or has an X or Y that isn't relative.
    pub fn is_usable(&self, wanted: Wanted) -> bool
        ensures { result ≡ is_usable wanted self.now }
    {
        match wanted {
            Wanted::Key => {
                if self.variable {
                    self.has_element(Wanted::Key)
                } else {
                    self.count > 0 && lists_key(self.spans.as_slice())
                }
            }
            Wanted::Pointer => self.has_element(Wanted::Pointer),
            Wanted::Axis => self.variable && !self.relative && self.has_element(Wanted::Axis),
        }
    }

    fn is_usage_at(&self, wanted: u64, j: u32) -> bool
        ensures { result ≡ is_usage wanted (element_usage self.now.spans.items j) }
    {
        match usage_of(self.spans.as_slice(), j as u64) {
            None => false,
            Some(usage) => usage == wanted,
        }
    }

    /// The first element of this usage.
    #[tactic(auto, using(crate::proofs::ElementLaws::element_steps))]
    pub fn find_element(&self, wanted: u64) -> Option<u32>
        ensures { result ≡ find_element wanted self.now.spans.items 0 self.now.count }
    {
        for j in 0..self.count {
            if self.is_usage_at(wanted, j) {
                return Some(j);
            }
        }
        None
    }

    /// The first element of this usage, if the field is one of the report of this ID and the usage is read.
    pub fn find_for(&self, id: u8, usage: u64) -> Option<u32>
        ensures value { result ≡ find_for id usage self.now }
        ensures narrow { is_button usage ≡ false → OnSome result (self.now.size ≤ 16) }
    {
        if self.id == id && self.takes(usage) {
            self.find_element(usage)
        } else {
            None
        }
    }

    /// Whether it is seen at once that no element is down in a report: those of a variable field of at most
    /// 32 bits, which are all 0.
    #[tactic(auto, using(crate::proofs::BlankLaws::blank_fields))]
    fn is_blank(&self, numbered: bool, report: &[u8]) -> bool
        ensures { result ≡ true → down_in self.now numbered report.now ≡ [] }
    {
        let bits = self.count as u64 * self.size.bits() as u64;
        if !self.variable || bits > 32 {
            return false;
        }
        let first_bit = if numbered { 8 } else { 0 };
        number_at(
            report,
            BitPlace::new(first_bit + self.place as u64),
            BitSize::new(bits as u8),
        ) == 0
    }

    /// Puts the keys that are down in a report into a set.
    #[tactic(auto, using(crate::proofs::ElementLaws::element_steps))]
    pub fn press(&self, numbered: bool, report: &[u8], keys: &mut KeySet)
        ensures { keys.new ≡ press_all keys.old (down_in self.now numbered report.now) }
    {
        if self.is_blank(numbered, report) {
            return;
        }
        for j in 0..self.count {
            match self.down_usage(numbered, report, j) {
                None => {}
                Some(usage) => add_key(keys, usage),
            }
        }
    }

    /// Puts the keys that are down in a report into a set, unless an element of this array field names one of
    /// the usages by which a keyboard says that it can't tell its keys: whether one does.
    pub fn press_named(&self, numbered: bool, report: &[u8], keys: &mut KeySet) -> bool
        requires { self.now.variable ≡ false }
        ensures rollover { result ≡ list_any is_rollover (down_in self.now numbered report.now) }
        ensures keys { result ≡ false → keys.new ≡ press_all keys.old (down_in self.now numbered report.now) }
    {
        let first_bit = if numbered { 8 } else { 0 };
        let place = first_bit + self.place as usize;
        let start = place / 8;
        if self.size.bits() == 8 && place % 8 == 0 && start + self.count as usize <= report.len() {
            return self.press_bytes(numbered, report, start, keys);
        }
        self.press_elements(numbered, report, keys)
    }

    /// The same, element by element.
    #[tactic(auto, using(crate::proofs::ElementLaws::element_steps))]
    fn press_elements(&self, numbered: bool, report: &[u8], keys: &mut KeySet) -> bool
        ensures rollover { result ≡ list_any is_rollover (down_in self.now numbered report.now) }
        ensures keys { result ≡ false → keys.new ≡ press_all keys.old (down_in self.now numbered report.now) }
    {
        for j in 0..self.count {
            match self.down_usage(numbered, report, j) {
                None => {}
                Some(usage) => {
                    if is_rollover_usage(usage) {
                        return true;
                    }
                    add_key(keys, usage);
                }
            }
        }
        false
    }

    /// Whether an element of this usage is read as a button, or as a motion.
    pub fn takes(&self, usage: u64) -> bool
        ensures { result ≡ takes self.now usage }
    {
        self.variable
            && (is_button_usage(usage)
                || (self.relative && self.size.bits() <= 16 && is_motion_usage(usage)))
    }
}
