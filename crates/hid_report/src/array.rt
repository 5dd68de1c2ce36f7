//! The usages that the elements of an array field name.
ghost use Rattle.std.specs.Prelude.{◌≡◌, ◌+◌, ◌*◌, ◌≤◌, ◌<◌, ◌^◌, true, false, length};
ghost use Rattle.std.specs.List.{list_any};
ghost use Rattle.hid_report.specs.Elements.{is_rollover, first_bit, down_in};
ghost use Rattle.hid_report.specs.Wanted.{is_one};
ghost use Rattle.hid_report.specs.Keys.{press_all};
ghost use Rattle.hid_report.specs.Arrays.{named_by, is_idle, press_one};

use crate::field::Field;
use crate::page::{add_key, is_passed_key, is_rollover_usage};
use crate::source::bounded;
use crate::usage::nth_usage;
use psd_base::KeySet;

impl Field {
    /// The usage that an array element of this number names.
    #[inline(always)]
    fn named_by(&self, raw: u64) -> Option<u64>
        requires { raw < 2 ^ 32 }
        ensures { result ≡ named_by self.now raw }
    {
        match bounded(self.size, self.minimum, self.maximum, raw) {
            None => None,
            Some(value) => nth_usage(self.spans.as_slice(), value.abs_diff(self.minimum)),
        }
    }

    /// Whether 0 names neither a key that is passed on nor a rollover usage.
    #[inline(always)]
    fn is_idle_at_zero(&self) -> bool
        ensures { result ≡ is_idle (named_by self.now 0) }
    {
        match self.named_by(0) {
            None => true,
            Some(usage) => !is_rollover_usage(usage) && !is_passed_key(usage),
        }
    }

    /// The byte that names nothing: 0 where it is idle, and else none, which is 256.
    #[inline(always)]
    fn idle_byte(&self) -> u16
        ensures { result < 256 → is_idle (named_by self.now result) ≡ true }
    {
        if self.is_idle_at_zero() { 0 } else { 256 }
    }

    /// Puts the key that an element of this number names into a set, unless it names a rollover usage:
    /// whether it does.
    #[inline(always)]
    fn press_number(&self, raw: u64, keys: &mut KeySet) -> bool
        requires { raw < 2 ^ 32 }
        ensures rollover { result ≡ is_one is_rollover (named_by self.now raw) }
        ensures keys { result ≡ false → keys.new ≡ press_one keys.old (named_by self.now raw) }
    {
        match self.named_by(raw) {
            None => false,
            Some(usage) => {
                if is_rollover_usage(usage) {
                    return true;
                }
                add_key(keys, usage);
                false
            }
        }
    }

    /// The same of an element that is a byte, where it may be known that the byte `idle` names nothing.
    #[tactic(auto, using(crate::proofs::ArrayLaws::idle_steps))]
    #[inline(always)]
    fn press_byte(&self, byte: u8, idle: u16, keys: &mut KeySet) -> bool
        requires { idle < 256 → is_idle (named_by self.now idle) ≡ true }
        ensures rollover { result ≡ is_one is_rollover (named_by self.now byte) }
        ensures keys { result ≡ false → keys.new ≡ press_one keys.old (named_by self.now byte) }
        ensures small { byte < 256 }
    {
        if byte as u16 == idle {
            return false;
        }
        self.press_number(byte as u64, keys)
    }

    /// Puts the keys that are down in a report into a set, unless an element names a rollover usage: whether
    /// one does. The elements are the bytes from `start` on.
    pub fn press_bytes(
        &self,
        numbered: bool,
        report: &[u8],
        start: usize,
        keys: &mut KeySet,
    ) -> bool
        requires array { self.now.variable ≡ false }
        requires size { self.now.size ≡ 8 }
        requires place { first_bit numbered + self.now.place ≡ start * 8 }
        requires within { start + self.now.count ≤ length report.now }
        ensures rollover { result ≡ list_any is_rollover (down_in self.now numbered report.now) }
        ensures keys { result ≡ false → keys.new ≡ press_all keys.old (down_in self.now numbered report.now) }
    {
        let idle = self.idle_byte();
        for j in 0..self.count {
            let byte = report[start + j as usize];
            if self.press_byte(byte, idle, keys) {
                return true;
            }
        }
        false
    }
}
