//! A set of keys that are down.
ghost use Rattle.std.specs.Prelude.{◌≡◌, ◌+◌, ◌-◌, ◌<◌, ◌≤◌, ℕ, Bool, List, [], ◌∷◌, length, IsTrue, IfSome, IfNone, nat_le, if◌then◌else◌};
ghost use Rattle.psd_base.specs.KeySet.{is_passed_on, no_keys, has_key, with_key, without_key, has_no_key, union, difference, keys_from, IsKeySet};
ghost use Rattle.psd_base.specs.KeyWords.{IsLowestBit};

use std::marker::Model;

/// How many words keep a set.
const WORDS: usize = 4;

/// A set of keyboard usages that are passed on (HID Usage Tables, page 7): 0x04 to 0xA4 are ordinary keys
/// and 0xE0 to 0xE7 modifiers. Contracts see a flag for each value of a byte.
#[derive(Clone, Copy)]
pub struct KeySet {
    /// The flag of usage u is bit u % 64 of word u / 64.
    words: [u64; WORDS],
}

impl Model for KeySet {
    ghost use Rattle.std.specs.Prelude.{ℕ, Bool, List};
    ghost use Rattle.std.proofs.Common.{ap};
    ghost use Rattle.psd_base.specs.KeyWords.{flags_of, words_of, IsWords};
    ghost use Rattle.psd_base.specs.KeyWordLaws.{words_of-flags_of};

    ghost Value = { List Bool };

    ghost view = { λ keys. flags_of keys.words };

    ghost invariant = { λ keys. IsWords keys.words };

    ghost inverse = { λ flags. record { words = words_of flags } };

    ghost inverse_ok = { λ keys form. ap (λ (words : List ℕ). record { words = words })
        (words_of-flags_of keys.words form.four form.fit) };
}

impl PartialEq for KeySet {
    ghost use Rattle.std.specs.Cmp.{booleans_Decides, bool_eq_equiv, partial_equiv_from_equiv};
    ghost use Rattle.std.specs.Cmp.Lexicographic.{pointwise, lists_per};
    ghost use mathlib.Core.Bool.{beq};

    ghost eq = { pointwise beq };

    ghost laws = { lists_per (partial_equiv_from_equiv bool_eq_equiv) };

    fn eq(&self, other: &KeySet) -> bool {
        self.words == other.words
    }
}

impl Eq for KeySet {
    ghost use Rattle.std.specs.Cmp.{bool_eq_equiv};
    ghost use Rattle.std.specs.Cmp.Lexicographic.{lists_equiv};

    ghost laws = { lists_equiv bool_eq_equiv };
}

impl KeySet {
    /// The empty set.
    pub fn new() -> KeySet
        ensures { result ≡ no_keys }
    {
        KeySet { words: [0; WORDS] }
    }

    /// Whether `usage` is in the set.
    pub fn has(&self, usage: u8) -> bool
        ensures value { result ≡ has_key self.now usage }
        ensures form { IsKeySet self.now }
    {
        let word = self.words[usage as usize / 64];
        (word >> (usage % 64)) & 1 == 1
    }

    /// Whether no usage is in the set.
    pub fn is_empty(&self) -> bool
        ensures { result ≡ has_no_key self.now }
    {
        self.words == [0; WORDS]
    }

    /// Puts `usage` into the set.
    pub fn add(&mut self, usage: u8)
        requires { IsTrue (is_passed_on usage) }
        ensures { self.new ≡ with_key self.old usage }
    {
        self.words[usage as usize / 64] |= 1 << (usage % 64);
    }

    /// Takes `usage` out of the set, if it is there.
    pub fn remove(&mut self, usage: u8)
        ensures { self.new ≡ without_key self.old usage }
    {
        self.words[usage as usize / 64] &= !(1 << (usage % 64));
    }

    /// Puts all of `other` into the set.
    pub fn join(&mut self, other: &KeySet)
        ensures { self.new ≡ union self.old other.now }
    {
        self.words = [
            self.words[0] | other.words[0],
            self.words[1] | other.words[1],
            self.words[2] | other.words[2],
            self.words[3] | other.words[3],
        ];
    }

    /// The keys of the set that aren't in `other`.
    pub fn without(&self, other: &KeySet) -> KeySet
        ensures { result ≡ difference self.now other.now }
    {
        let words = [
            self.words[0] & !other.words[0],
            self.words[1] & !other.words[1],
            self.words[2] & !other.words[2],
            self.words[3] & !other.words[3],
        ];
        KeySet { words }
    }

    /// The least key of the set from `first` to `last`.
    pub fn least_between(&self, first: u8, last: u8) -> Option<u8>
        ensures none { IfNone result (keys_from self.now first (last + 1 - first) ≡ []) }
        ensures some { IfSome result (λ usage. keys_from self.now first (last + 1 - first)
            ≡ usage ∷ keys_from self.now (usage + 1) (last - usage)) }
        ensures inside { IfSome result (λ usage. (first ≤ usage) × (usage ≤ last)) }
    {
        let start = first as usize / 64;
        match lowest(self.words[start] >> (first % 64)) {
            Some(bit) => return up_to(last, first as u32 + bit),
            None => {}
        }
        for place in start + 1..WORDS {
            match lowest(self.words[place]) {
                Some(bit) => return up_to(last, 64 * place as u32 + bit),
                None => {}
            }
        }
        None
    }
}

/// The lowest bit of the word that is set.
fn lowest(word: u64) -> Option<u32>
    ensures none { IfNone result (word ≡ 0) }
    ensures some { IfSome result (λ bit. IsLowestBit word bit) }
{
    if word == 0 {
        None
    } else {
        Some(word.trailing_zeros())
    }
}

/// The usage, if it isn't above `last`.
fn up_to(last: u8, usage: u32) -> Option<u8>
    ensures { result ≡ (if nat_le usage last then Some usage else None) }
{
    if usage <= last as u32 {
        Some(usage as u8)
    } else {
        None
    }
}
