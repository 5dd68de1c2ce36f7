//! A text in memory of its own, and what is appended to it.
ghost use Rattle.std.specs.Prelude.{◌≡◌, ◌+◌, ◌*◌, ◌≤◌, [], length, take, ◌++◌};
ghost use Rattle.std.specs.Fmt.{decimal};
ghost use Rattle.arrayvec.specs.ArrayVec.{array_vec_len};
ghost use Rattle.hex.specs.Hex.{encode_lower};
ghost use Rattle.port_transcript.specs.PortLine.{line_of, line_text};
ghost use Rattle.port_transcript.specs.Text.{bytes_text};

use crate::port::{ActLine, PORT_LINE_SIZE};
use crate::tick::{TICK_SIZE, TickDigits};
use itoa::{Buffer, Integer};
use psd_base::place::write_at;
use psd_base::{Bytes, Tick};
use std::marker::Model;

/// How many bytes a text can hold.
pub const TEXT_SIZE: usize = 4096;

/// The two hexadecimal digits of each byte.
static PAIRS: [u8; 512] = *b"\
      000102030405060708090a0b0c0d0e0f101112131415161718191a1b1c1d1e1f\
      202122232425262728292a2b2c2d2e2f303132333435363738393a3b3c3d3e3f\
      404142434445464748494a4b4c4d4e4f505152535455565758595a5b5c5d5e5f\
      606162636465666768696a6b6c6d6e6f707172737475767778797a7b7c7d7e7f\
      808182838485868788898a8b8c8d8e8f909192939495969798999a9b9c9d9e9f\
      a0a1a2a3a4a5a6a7a8a9aaabacadaeafb0b1b2b3b4b5b6b7b8b9babbbcbdbebf\
      c0c1c2c3c4c5c6c7c8c9cacbcccdcecfd0d1d2d3d4d5d6d7d8d9dadbdcdddedf\
      e0e1e2e3e4e5e6e7e8e9eaebecedeeeff0f1f2f3f4f5f6f7f8f9fafbfcfdfeff";

/// A text of at most `TEXT_SIZE` bytes, which lie in the value itself. A writer of many lines keeps one and empties
/// it, since a fresh one costs more than a line.
#[derive(Drop)]
pub struct Text {
    bytes: [u8; TEXT_SIZE],
    len: usize,
    tick: TickDigits,
}

impl Model for Text {
    ghost use Rattle.std.specs.Prelude.{◌≡◌, ℕ, ◌≤◌, length, take};
    ghost use Rattle.arrayvec.specs.ArrayVec.{ArrayVec};
    ghost use Rattle.port_transcript.specs.declared.text.TheConstants.{TEXT_SIZE};

    ghost Value = { ArrayVec ℕ };

    ghost view = { λ text. record { items = take text.len text.bytes } };

    ghost invariant = { λ text. record {
      within : text.len ≤ TEXT_SIZE;
      size : length text.bytes ≡ TEXT_SIZE;
    } };
}

impl Text {
    /// No bytes.
    pub fn new() -> Text
        ensures { result.items ≡ [] }
    {
        Text {
            bytes: [0; TEXT_SIZE],
            len: 0,
            tick: TickDigits::of(0),
        }
    }

    /// Drops every byte.
    pub fn clear(&mut self)
        ensures { self.new.items ≡ [] }
    {
        self.len = 0;
    }

    /// The digits of this tick. They are kept for the next line.
    #[inline(always)]
    pub fn digits_of(&mut self, tick: Tick) -> &TickDigits
        ensures { result.now ≡ tick }
    {
        self.tick.turn_to(tick);
        &self.tick
    }

    /// Makes it this line, in the place of what it held.
    pub(crate) fn set_to_line(&mut self, line: &ActLine)
        ensures items { self.new.items ≡ line_text (line_of line.now) }
        ensures len { array_vec_len self.new ≤ PORT_LINE_SIZE }
    {
        self.len = line.put(&mut self.bytes, 0);
    }

    /// How many bytes it has.
    pub fn len(&self) -> usize
        ensures value { result ≡ array_vec_len self.now }
        ensures fits { result ≤ TEXT_SIZE }
    {
        self.len
    }

    /// The bytes.
    pub fn as_slice(&self) -> &[u8]
        ensures value { result.now ≡ self.now.items }
        ensures fits { length result.now ≤ TEXT_SIZE }
    {
        &self.bytes[..self.len]
    }
}

/// Appends bytes. There is room for them.
#[inline(always)]
pub fn append(text: &mut Text, bytes: &[u8])
    requires { array_vec_len text.old + length bytes.now ≤ TEXT_SIZE }
    ensures items { text.new.items ≡ text.old.items ++ bytes.now }
    ensures len { array_vec_len text.new ≡ array_vec_len text.old + length bytes.now }
{
    write_at(&mut text.bytes, text.len, bytes);
    text.len += bytes.len();
}

/// Writes a word over the bytes from a place on, and answers the place behind it. The word's size is known where it is
/// written: so it costs a store or two, and less than as a slice. There is room for it.
#[inline(always)]
pub(crate) fn put_word<const SIZE: usize>(into: &mut [u8], at: usize, word: &[u8; SIZE]) -> usize
    requires { at + SIZE ≤ length into.old }
    ensures items { take result into.new ≡ take at into.old ++ word.now }
    ensures end { result ≡ at + SIZE }
    ensures len { length into.new ≡ length into.old }
{
    'bytes: for i in 0..SIZE {
        into[at + i] = word[i];
    }
    at + SIZE
}

/// Writes a number in decimal, and answers the place behind it. There is room for the longest of its type. It is a call
/// of its own, since most numbers of a port's line have one digit and don't come here.
#[inline(never)]
fn put_number<I: Integer>(into: &mut [u8], at: usize, number: I) -> usize
    requires { at + I.MAX_STR_LEN ≤ length into.old }
    ensures items { take result into.new ≡ take at into.old ++ I.text number }
    ensures end { result ≤ at + I.MAX_STR_LEN }
    ensures len { length into.new ≡ length into.old }
{
    let mut buffer = Buffer::new();
    let digits = buffer.format(number).as_bytes();
    write_at(into, at, digits);
    at + digits.len()
}

/// Appends a number in decimal. There is room for the longest of its type.
pub fn append_number<I: Integer>(text: &mut Text, number: I)
    requires { array_vec_len text.old + I.MAX_STR_LEN ≤ TEXT_SIZE }
    ensures items { text.new.items ≡ text.old.items ++ I.text number }
    ensures len { array_vec_len text.new ≤ array_vec_len text.old + I.MAX_STR_LEN }
{
    text.len = put_number(&mut text.bytes, text.len, number);
}

/// Writes a number of one byte in decimal, and answers the place behind it. There is room for three digits. Most
/// numbers have one, which is written directly.
#[inline(always)]
#[tactic(auto, using(std::proofs::lemmas::Fmt::decimal_digit, std::proofs::lemmas::List::take_more_set))]
pub(crate) fn put_byte(into: &mut [u8], at: usize, number: u8) -> usize
    requires { at + 3 ≤ length into.old }
    ensures items { take result into.new ≡ take at into.old ++ decimal number }
    ensures end { result ≤ at + 3 }
    ensures len { length into.new ≡ length into.old }
{
    if number < 10 {
        into[at] = b'0' + number;
        at + 1
    } else {
        put_number(into, at, number)
    }
}

/// Appends a tick in decimal. There is room for the longest.
pub(crate) fn append_tick(text: &mut Text, tick: Tick)
    requires { array_vec_len text.old + TICK_SIZE ≤ TEXT_SIZE }
    ensures items { text.new.items ≡ text.old.items ++ decimal tick }
    ensures len { array_vec_len text.new ≤ array_vec_len text.old + TICK_SIZE }
{
    text.tick.turn_to(tick);
    text.len = text.tick.put(&mut text.bytes, text.len);
}

/// Writes the hexadecimal digits of bytes, two for each, and answers the place behind them. There is room for them.
#[inline(always)]
pub(crate) fn put_digits(into: &mut [u8], at: usize, bytes: &[u8]) -> usize
    requires { at + 2 * length bytes.now ≤ length into.old }
    ensures items { take result into.new ≡ take at into.old ++ encode_lower bytes.now }
    ensures end { result ≡ at + 2 * length bytes.now }
    ensures len { length into.new ≡ length into.old }
{
    let end = at + 2 * bytes.len();
    write_digits(&mut into[at..end], bytes);
    end
}

/// Writes the hexadecimal digits of bytes.
#[inline(always)]
fn write_digits(into: &mut [u8], bytes: &[u8])
    requires { length into.old ≡ 2 * length bytes.now }
    ensures { into.new ≡ encode_lower bytes.now }
{
    'bytes: for i in 0..bytes.len() {
        let pair = 2 * bytes[i] as usize;
        let (high, low) = (PAIRS[pair], PAIRS[pair + 1]);
        into[2 * i] = high;
        into[2 * i + 1] = low;
    }
}

/// Appends the hexadecimal digits of bytes, two for each. There is room for them.
pub(crate) fn append_digits(text: &mut Text, bytes: &[u8])
    requires { array_vec_len text.old + 2 * length bytes.now ≤ TEXT_SIZE }
    ensures items { text.new.items ≡ text.old.items ++ encode_lower bytes.now }
    ensures len { array_vec_len text.new ≡ array_vec_len text.old + 2 * length bytes.now }
{
    text.len = put_digits(&mut text.bytes, text.len, bytes);
}

/// Writes bytes in hexadecimal, or `-` where there are none, and answers the place behind. There is room for the most.
#[inline(always)]
pub(crate) fn put_bytes<const SIZE: usize>(into: &mut [u8], at: usize, bytes: &Bytes<SIZE>) -> usize
    requires some { 1 ≤ SIZE }
    requires room { at + 2 * SIZE ≤ length into.old }
    ensures items { take result into.new ≡ take at into.old ++ bytes_text bytes.now }
    ensures end { result ≤ at + 2 * SIZE }
    ensures len { length into.new ≡ length into.old }
{
    let bytes = bytes.as_slice();
    if bytes.is_empty() {
        put_word(into, at, b"-")
    } else {
        put_digits(into, at, bytes)
    }
}

/// Appends bytes in hexadecimal, or `-` where there are none. There is room for the most.
pub(crate) fn append_bytes<const SIZE: usize>(text: &mut Text, bytes: &Bytes<SIZE>)
    requires some { 1 ≤ SIZE }
    requires room { array_vec_len text.old + 2 * SIZE ≤ TEXT_SIZE }
    ensures items { text.new.items ≡ text.old.items ++ bytes_text bytes.now }
    ensures len { array_vec_len text.new ≤ array_vec_len text.old + 2 * SIZE }
{
    text.len = put_bytes(&mut text.bytes, text.len, bytes);
}
