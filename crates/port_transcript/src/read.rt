//! Reads the lines of a port's transcript back.
ghost use Rattle.std.specs.Prelude.{◌≡◌, ◌↔◌, IfSome, IsTrue, Some, option_map};
ghost use Rattle.port_transcript.specs.PortLine.{IsLine, line_text};
ghost use Rattle.port_transcript.specs.ReadBack.{act_at, answer_in, data_in, in_at, line_in, out_at, setup_at};

use crate::port::port_line;
use crate::words::{byte_of, flag_of, packet_of, setup_in, side_of, split_word};
use psd_base::{Act, Answer, Line, number_in};

/// The line whose text these bytes are, or `None` where they are no line's text. No two lines have one text.
///
/// The words are read first, and then the bytes have to be the text of what was read: so no upper-case digit, no
/// leading zero, no missing line feed and no byte too many is taken.
pub fn read_port_line(bytes: &[u8]) -> Option<Line>
    ensures found { IfSome result (λ line. line_text line ≡ bytes.now) }
    ensures in_range { IfSome result IsLine }
    ensures only { (line : Line) → IsLine line → line_text line ≡ bytes.now → result ≡ Some line }
{
    let line = line_in(bytes)?;
    if is_text_of(&line, bytes) {
        Some(line)
    } else {
        None
    }
}

/// Whether the bytes are the text of the line.
fn is_text_of(line: &Line, bytes: &[u8]) -> bool
    ensures { IsTrue result ↔ (line_text line.now ≡ bytes.now) }
{
    port_line(line).as_slice() == bytes
}

/// The line that the words of these bytes give.
#[tactic(auto, unfolding(crate::specs::ReadBack::line_in))]
fn line_in(bytes: &[u8]) -> Option<Line>
    ensures { result ≡ line_in bytes.now }
{
    let (tick, rest) = split_word(bytes);
    let (side, rest) = split_word(rest);
    let tick = number_in(tick)?;
    let side = side_of(side)?;
    let (act, rest) = act_at(rest)?;
    let (_, rest) = split_word(rest);
    let answer = answer_in(rest)?;
    Some(Line {
        tick,
        side,
        act,
        answer,
    })
}

/// The act that the first words give, and the bytes behind it.
#[tactic(auto, unfolding(crate::specs::ReadBack::act_at))]
fn act_at(bytes: &[u8]) -> Option<(Act, &[u8])>
    ensures { option_map (λ found. (found.0, found.1.now)) result ≡ act_at bytes.now }
{
    let (name, rest) = split_word(bytes);
    if name == b"RESET".as_slice() {
        Some((Act::Reset, rest))
    } else if name == b"SETUP".as_slice() {
        setup_at(rest)
    } else if name == b"OUT".as_slice() {
        out_at(rest)
    } else if name == b"IN".as_slice() {
        in_at(rest)
    } else {
        None
    }
}

#[tactic(auto, unfolding(crate::specs::ReadBack::setup_at))]
fn setup_at(bytes: &[u8]) -> Option<(Act, &[u8])>
    ensures { option_map (λ found. (found.0, found.1.now)) result ≡ setup_at bytes.now }
{
    let (address, rest) = split_word(bytes);
    let (setup, rest) = split_word(rest);
    let address = byte_of(address)?;
    let setup = setup_in(setup)?;
    Some((Act::Setup { address, setup }, rest))
}

#[tactic(auto, unfolding(crate::specs::ReadBack::out_at))]
fn out_at(bytes: &[u8]) -> Option<(Act, &[u8])>
    ensures { option_map (λ found. (found.0, found.1.now)) result ≡ out_at bytes.now }
{
    let (address, rest) = split_word(bytes);
    let (endpoint, rest) = split_word(rest);
    let (toggle, rest) = split_word(rest);
    let (packet, rest) = split_word(rest);
    let address = byte_of(address)?;
    let endpoint = byte_of(endpoint)?;
    let toggle = flag_of(toggle)?;
    let bytes = packet_of(packet)?;
    let act = Act::Out {
        address,
        endpoint,
        toggle,
        bytes,
    };
    Some((act, rest))
}

#[tactic(auto, unfolding(crate::specs::ReadBack::in_at))]
fn in_at(bytes: &[u8]) -> Option<(Act, &[u8])>
    ensures { option_map (λ found. (found.0, found.1.now)) result ≡ in_at bytes.now }
{
    let (address, rest) = split_word(bytes);
    let (endpoint, rest) = split_word(rest);
    let (acked, rest) = split_word(rest);
    let address = byte_of(address)?;
    let endpoint = byte_of(endpoint)?;
    let acked = flag_of(acked)?;
    let act = Act::In {
        address,
        endpoint,
        acked,
    };
    Some((act, rest))
}

/// The answer that the words give.
#[tactic(auto, unfolding(crate::specs::ReadBack::answer_in))]
fn answer_in(bytes: &[u8]) -> Option<Answer>
    ensures { result ≡ answer_in bytes.now }
{
    let (name, rest) = split_word(bytes);
    if name == b"ACK".as_slice() {
        Some(Answer::Ack)
    } else if name == b"NAK".as_slice() {
        Some(Answer::Nak)
    } else if name == b"STALL".as_slice() {
        Some(Answer::Stall)
    } else if name == b"SILENT".as_slice() {
        Some(Answer::Silent)
    } else if name == b"DATA".as_slice() {
        data_in(rest)
    } else {
        None
    }
}

#[tactic(auto, unfolding(crate::specs::ReadBack::data_in))]
fn data_in(bytes: &[u8]) -> Option<Answer>
    ensures { result ≡ data_in bytes.now }
{
    let (toggle, rest) = split_word(bytes);
    let (packet, _) = split_word(rest);
    let toggle = flag_of(toggle)?;
    let bytes = packet_of(packet)?;
    Some(Answer::Data { toggle, bytes })
}
