//! The lines of the button script.
ghost use Rattle.std.specs.Prelude.{◌≡◌, ◌≢◌, ℕ, ◌+◌, ◌≤◌, List, [], ◌∷◌, true, false, length, position, IfNone, IfSome, IfOk, IfErr, Ok, Err, OnOk};
ghost use Rattle.std.specs.List.{before_first, after_first};
ghost use Rattle.psd_base.specs.declared.console.Panel.TheVariants.{Guard, Tamper};
ghost use Rattle.psd_base.specs.Event.{MovesWithin};
ghost use Rattle.capture_reader.specs.Ahead.{said_seen};
ghost use Rattle.psd_base.specs.Port.{IsPort};
ghost use Rattle.capture_reader.specs.Script.{is_space, digit_of, buttons, checks, move_among, tick_in, panel_in, said_in, has_port, judged, line_at};

use crate::form::Said;
use psd_base::{CHECKS, MAX_PORTS, Panel, PortId, ScriptFault, Tick, number_in};

/// The most bytes of a line before its line feed.
pub const LINE_MAX: usize = 64;

/// How many bytes stand before the number in the text of a check.
const CHECK_FRONT: usize = 6;

/// The first word, which ends before the first space, and the bytes behind the space.
fn split_word(line: &[u8]) -> (&[u8], &[u8])
    ensures word { result.0.now ≡ before_first is_space line.now }
    ensures others { result.1.now ≡ after_first is_space line.now }
{
    match space_at(line) {
        Some(end) => (&line[..end], &line[end + 1..]),
        None => (line, &[]),
    }
}

/// The place of the first space.
fn space_at(line: &[u8]) -> Option<usize>
    ensures { result ≡ position is_space line.now }
{
    line.iter().position(|byte| *byte == b' ')
}

/// The tick that a word says: decimal digits without leading zeros, below 2^32.
#[tactic(auto, unfolding(crate::specs::Script::tick_in))]
fn read_tick(word: &[u8]) -> Option<Tick>
    ensures { result ≡ tick_in word.now }
{
    if word.is_empty() || (word[0] == b'0' && word.len() > 1) {
        return None;
    }
    number_in(word)
}

/// The number that a decimal digit says, where it is from 1 to `most`.
fn read_digit(digit: u8, most: u8) -> Option<u8>
    requires { most ≤ 9 }
    ensures found { IfSome result (λ number. (1 ≤ number) × (number ≤ most) × (digit ≡ digit_of number)) }
    ensures none { IfNone result ((number : ℕ) → 1 ≤ number → number ≤ most → digit ≢ digit_of number) }
{
    if digit > b'0' && digit <= b'0' + most {
        Some(digit - b'0')
    } else {
        None
    }
}

/// The move of a button, as `1 down` or `1 up`.
fn read_button(text: &[u8]) -> Option<Panel>
    ensures value { result ≡ move_among (buttons MAX_PORTS) text.now }
    ensures within { IfSome result (MovesWithin MAX_PORTS) }
{
    if text.is_empty() {
        return None;
    }
    let (digit, rest) = (text[0], &text[1..]);
    match read_digit(digit, MAX_PORTS) {
        Some(number) => button(number, rest),
        None => None,
    }
}

/// The move of the button of the port of this number, by what stands behind the number.
fn button(number: u8, rest: &[u8]) -> Option<Panel>
    requires { IsPort number }
    ensures value { result ≡ move_among (buttons MAX_PORTS) (digit_of number ∷ rest.now) }
    ensures within { IfSome result (MovesWithin MAX_PORTS) }
{
    match PortId::new(number) {
        Some(port) => {
            if rest == b" down".as_slice() {
                Some(Panel::Button(port, true))
            } else if rest == b" up".as_slice() {
                Some(Panel::Button(port, false))
            } else {
                None
            }
        }
        None => unreachable!(),
    }
}

/// The outcome of a check of the self-test, as `check 1 pass` or `check 1 fail`.
fn read_check(text: &[u8]) -> Option<Panel>
    ensures value { result ≡ move_among (checks CHECKS) text.now }
    ensures within { IfSome result (MovesWithin MAX_PORTS) }
{
    if text.len() <= CHECK_FRONT {
        return None;
    }
    let (front, behind) = (&text[..CHECK_FRONT], &text[CHECK_FRONT..]);
    if front != b"check ".as_slice() {
        return None;
    }
    match read_digit(behind[0], CHECKS) {
        Some(number) => check(number, &behind[1..]),
        None => None,
    }
}

/// The outcome of the check of this number, by what stands behind the number.
fn check(number: u8, rest: &[u8]) -> Option<Panel>
    requires { (1 ≤ number) × (number ≤ CHECKS) }
    ensures value { result
        ≡ move_among (checks CHECKS) (99 ∷ 104 ∷ 101 ∷ 99 ∷ 107 ∷ 32 ∷ digit_of number ∷ rest.now) }
    ensures within { IfSome result (MovesWithin MAX_PORTS) }
{
    if rest == b" pass".as_slice() {
        Some(Panel::Check(number, true))
    } else if rest == b" fail".as_slice() {
        Some(Panel::Check(number, false))
    } else {
        None
    }
}

/// The move of the guard, or the opened case.
#[tactic(auto, unfolding(crate::specs::Script::move_among))]
fn read_fixed(text: &[u8]) -> Option<Panel>
    ensures value { result ≡ move_among (Guard true ∷ Guard false ∷ Tamper ∷ []) text.now }
    ensures within { IfSome result (MovesWithin MAX_PORTS) }
{
    if text == b"guard down".as_slice() {
        Some(Panel::Guard(true))
    } else if text == b"guard up".as_slice() {
        Some(Panel::Guard(false))
    } else if text == b"tamper".as_slice() {
        Some(Panel::Tamper)
    } else {
        None
    }
}

/// The move at the panel that has this text.
#[tactic(auto, unfolding(crate::specs::Script::panel_in))]
fn read_panel(text: &[u8]) -> Option<Panel>
    ensures value { result ≡ panel_in text.now }
    ensures within { IfSome result (MovesWithin MAX_PORTS) }
{
    match read_fixed(text) {
        Some(panel) => Some(panel),
        None => match read_button(text) {
            Some(panel) => Some(panel),
            None => read_check(text),
        },
    }
}

/// What a line says: its tick, one space, and the text of a move.
#[tactic(auto, unfolding(crate::specs::Script::said_in))]
fn read_said(line: &[u8]) -> Option<Said>
    ensures value { result ≡ said_in line.now }
    ensures within { IfSome result (λ said. MovesWithin MAX_PORTS said.panel) }
{
    let (word, text) = split_word(line);
    let tick = read_tick(word)?;
    let panel = read_panel(text)?;
    Some(Said { tick, panel })
}

/// Whether a switch with so many ports has the port of a move.
fn has_port(ports: u8, panel: &Panel) -> bool
    ensures { result ≡ has_port ports panel.now }
{
    match panel {
        Panel::Guard(_) => true,
        Panel::Button(port, _) => port.number() <= ports,
        Panel::Check(_, _) => true,
        Panel::Tamper => true,
    }
}

/// What was said, after a line of tick `last`, or its fault: the tick first, then the port.
#[tactic(auto, unfolding(crate::specs::Script::judged))]
fn judge(ports: u8, last: Tick, said: Said) -> Result<Said, ScriptFault>
    requires { MovesWithin MAX_PORTS said.panel }
    ensures ok { IfOk result (λ line. judged ports last said ≡ Ok (said_seen line)) }
    ensures err { IfErr result (λ why. judged ports last said ≡ Err why) }
    ensures ordered { IfOk result (λ line. last ≤ line.tick) }
    ensures within { IfOk result (λ line. MovesWithin ports line.panel) }
{
    if said.tick < last {
        return Err(ScriptFault::TickBack);
    }
    if !has_port(ports, &said.panel) {
        return Err(ScriptFault::NoSuchPort);
    }
    Ok(said)
}

/// What a line says after one of tick `last`, or the first of its checks that fails: the length, the form, the tick,
/// and the port.
#[tactic(auto, unfolding(crate::specs::Script::line_at))]
pub fn read_line(ports: u8, last: Tick, line: &[u8]) -> Result<Said, ScriptFault>
    ensures ok { IfOk result (λ said. line_at ports last line.now ≡ Ok (said_seen said)) }
    ensures err { IfErr result (λ why. line_at ports last line.now ≡ Err why) }
    ensures short { OnOk result (length line.now ≤ LINE_MAX) }
    ensures ordered { IfOk result (λ said. last ≤ said.tick) }
    ensures within { IfOk result (λ said. MovesWithin ports said.panel) }
{
    if line.len() > LINE_MAX {
        return Err(ScriptFault::LineTooLong);
    }
    match read_said(line) {
        Some(said) => judge(ports, last, said),
        None => Err(ScriptFault::NotALine),
    }
}
