//! The words of the command line.
ghost use Rattle.std.specs.Prelude.{◌≡◌, ◌<◌, ◌≤◌, ◌==◌, [], ◌∷◌, ◌++◌, take, length, slice_get, Some};

use arrayvec::ArrayVec;
use std::marker::Model;

/// How many words are kept.
pub const WORDS_KEPT: usize = 4;

/// How many bytes of a word are kept.
pub const WORD_SIZE: usize = 16;

/// The first `WORDS_KEPT` words of the command line, each by its first `WORD_SIZE` bytes. No command has
/// more words or a longer one, so what is cut off never decides. Contracts see the list of the words' bytes.
#[derive(Debug, Drop)]
pub struct Words {
    words: ArrayVec<ArrayVec<u8, 16>, 4>,
}

impl Model for Words {
    ghost use Rattle.std.specs.Prelude.{List, ℕ, ◌≤◌, length};
    ghost use Rattle.psd_base.specs.Words.{bytes_of_words};

    ghost Value = { List (List ℕ) };

    ghost view = { λ words. bytes_of_words words.words };

    ghost invariant = { λ words. length words.words.items ≤ 4 };
}

impl Words {
    /// No words.
    pub fn new() -> Words
        ensures { result ≡ [] }
    {
        Words {
            words: ArrayVec::new(),
        }
    }

    /// Appends a word.
    pub fn push(&mut self, word: &str)
        ensures { self.new ≡ take WORDS_KEPT (self.old ++ take WORD_SIZE word.now ∷ []) }
    {
        if self.words.is_full() {
            return;
        }
        let bytes = word.as_bytes();
        let mut kept = ArrayVec::new();
        let _ = kept.try_extend_from_slice(&bytes[..bytes.len().min(WORD_SIZE)]);
        self.words.push(kept);
    }

    /// The number of words kept.
    pub fn len(&self) -> usize
        ensures { result ≡ length self.now }
    {
        self.words.len()
    }

    /// Whether there is no word.
    pub fn is_empty(&self) -> bool
        ensures { result ≡ (length self.now == 0) }
    {
        self.words.is_empty()
    }

    /// The kept bytes of the word at this place, counted from 0.
    pub fn word(&self, index: usize) -> &[u8]
        requires { index < length self.now }
        ensures { slice_get self.now index ≡ Some result.now }
    {
        self.words[index].as_slice()
    }
}
