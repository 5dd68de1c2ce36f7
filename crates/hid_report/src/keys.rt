//! Reading key reports.
ghost use Rattle.std.specs.Prelude.{◌≡◌, false, not, Some, None, if◌then◌else◌};
ghost use Rattle.std.specs.List.{list_any};
ghost use Rattle.psd_base.specs.KeySet.{no_keys};
ghost use Rattle.hid_report.specs.Keys.{is_report, press_all, down_for, down_usages, rolls_over_for, keys_of};

use crate::field::Field;
use crate::layout::Layout;
use crate::report_form::ReportForm;
use psd_base::KeySet;

impl ReportForm {
    /// Whether bytes are a report of this form.
    pub fn fits(self, numbered: bool, report: &[u8]) -> bool
        ensures { result ≡ is_report self numbered report.now }
    {
        if report.len() != self.length as usize {
            return false;
        }
        !numbered || (report.len() > 0 && report[0] == self.id)
    }
}

impl Layout {
    /// The keys that a report of the interface says are down. None where there is no usable key field, where
    /// the bytes aren't a key report (its ID and length), or where an array element of the key report names
    /// one of the usages by which a keyboard says that it can't tell its keys (page 7, usages 1 to 3).
    #[tactic(auto, unfolding(crate::specs::Keys::keys_of))]
    pub fn keys(&self, report: &[u8]) -> Option<KeySet>
        ensures { result ≡ keys_of self.now report.now }
    {
        let form = match self.key_form() {
            Some(form) => form,
            None => return None,
        };
        if !form.fits(self.is_numbered(), report) {
            return None;
        }
        self.pressed(form.id, report)
    }

    /// The keys that are down in a report of this ID. None where one of its array elements names a rollover
    /// usage.
    #[tactic(auto, using(crate::proofs::ReportLaws::key_steps))]
    fn pressed(&self, id: u8, report: &[u8]) -> Option<KeySet>
        ensures { result
            ≡ (if not (list_any (rolls_over_for id self.now.numbered report.now) self.now.fields)
            then Some (press_all no_keys (down_usages id self.now.numbered report.now self.now.fields))
            else None) }
    {
        let numbered = self.is_numbered();
        let mut keys = KeySet::new();
        for field in self.fields() {
            if field.press_for(id, numbered, report, &mut keys) {
                return None;
            }
        }
        Some(keys)
    }
}

impl Field {
    /// Puts the keys that are down in a report of this ID into a set, unless an array element names a
    /// rollover usage: whether one does.
    #[tactic(auto, using(crate::proofs::ReportLaws::key_steps))]
    fn press_for(&self, id: u8, numbered: bool, report: &[u8], keys: &mut KeySet) -> bool
        ensures rollover { result ≡ rolls_over_for id numbered report.now self.now }
        ensures keys { result ≡ false
            → keys.new ≡ press_all keys.old (down_for id numbered report.now self.now) }
    {
        if self.id != id {
            return false;
        }
        if self.variable {
            self.press(numbered, report, keys);
            return false;
        }
        self.press_named(numbered, report, keys)
    }
}
