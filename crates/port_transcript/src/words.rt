//! The words of a line, and what each kind of word says.
//!
//! A word ends before a blank or a line feed. These readers may take more than the texts of lines, as leading zeros
//! and upper-case digits: the reader of lines refuses these.
ghost use Rattle.std.specs.Prelude.{◌≡◌, position};
ghost use Rattle.port_transcript.specs.ReadBack.{byte_of, first_word, flag_of, is_break, other_words, packet_of, setup_in, side_of};

use hex::FromHex;
use psd_base::{PACKET_SIZE, Packet, Setup, Side, number_in};

/// The first word, and the bytes behind it and the byte that ends it.
#[tactic(auto, unfolding(crate::specs::ReadBack::first_word, crate::specs::ReadBack::other_words))]
pub(crate) fn split_word(bytes: &[u8]) -> (&[u8], &[u8])
    ensures word { result.0.now ≡ first_word bytes.now }
    ensures others { result.1.now ≡ other_words bytes.now }
{
    match word_end(bytes) {
        Some(end) => (&bytes[..end], &bytes[end + 1..]),
        None => (bytes, &[]),
    }
}

/// The place of the byte that ends the first word.
fn word_end(bytes: &[u8]) -> Option<usize>
    ensures { result ≡ position is_break bytes.now }
{
    bytes
        .iter()
        .position(|byte| *byte == b' ' || *byte == b'\n')
}

/// The number of one byte that decimal digits say.
#[tactic(auto, unfolding(crate::specs::ReadBack::byte_of))]
pub(crate) fn byte_of(word: &[u8]) -> Option<u8>
    ensures { result ≡ byte_of word.now }
{
    let number = number_in(word)?;
    if number < 256 {
        Some(number as u8)
    } else {
        None
    }
}

#[tactic(auto, unfolding(crate::specs::ReadBack::flag_of))]
pub(crate) fn flag_of(word: &[u8]) -> Option<bool>
    ensures { result ≡ flag_of word.now }
{
    if word == b"1".as_slice() {
        Some(true)
    } else if word == b"0".as_slice() {
        Some(false)
    } else {
        None
    }
}

#[tactic(auto, unfolding(crate::specs::ReadBack::side_of))]
pub(crate) fn side_of(word: &[u8]) -> Option<Side>
    ensures { result ≡ side_of word.now }
{
    if word == b"KM".as_slice() {
        Some(Side::Km)
    } else if word == b"UA".as_slice() {
        Some(Side::Ua)
    } else {
        None
    }
}

/// The bytes that hexadecimal digits say; `-` says none.
#[tactic(auto, unfolding(crate::specs::ReadBack::packet_of))]
pub(crate) fn packet_of(word: &[u8]) -> Option<Packet>
    ensures { result ≡ packet_of word.now }
{
    if word == b"-".as_slice() {
        return Some(Packet::new());
    }
    let size = word.len() / 2;
    if size > PACKET_SIZE {
        return None;
    }
    let mut bytes = [0u8; PACKET_SIZE];
    let used = &mut bytes[..size];
    hex::decode_to_slice(word, used).ok()?;
    Some(Packet::from_slice(used))
}

/// The setup whose eight bytes hexadecimal digits say.
#[tactic(auto, unfolding(crate::specs::ReadBack::setup_in))]
pub(crate) fn setup_in(word: &[u8]) -> Option<Setup>
    ensures { result ≡ setup_in word.now }
{
    let bytes = <[u8; 8]>::from_hex(word).ok()?;
    Some(Setup::read(&bytes))
}
