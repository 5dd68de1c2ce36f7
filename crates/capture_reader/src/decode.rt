//! The bytes of a capture: its header, and the heads of its records.
ghost use Rattle.std.specs.Prelude.{◌≡◌, ◌+◌, ◌≤◌, ◌&&◌, nat_lt, nat_le, length, IsTrue, OnOk, IfOk, IfErr, Ok, Err};
ghost use Rattle.capture_reader.specs.Capture.{header, head_of, kind_of, form_of, has_fit_length, kind_in, announced};
ghost use Rattle.capture_reader.specs.Fault.{record_stop};
ghost use Rattle.capture_reader.specs.Source.{IsFaulty, IsFormWithin};
ghost use Rattle.psd_base.specs.Port.{IsPort};

use crate::fault::RecordFault;
use crate::form::{ActKind, Form, Head, Kind, PlugKind};
use psd_base::{CaptureFault, MAX_PORTS, Plug, PortId, Side, Tick};

/// The size of the capture's header in bytes, and that of a record's head.
pub const HEAD_SIZE: usize = 8;

/// The number of the token's plug.
const TOKEN: u8 = 3;

/// The most bytes of a payload: those of a reply, or of a job's end, nine and a block.
pub const PAYLOAD_MAX: u16 = 1033;

/// What is added to a port's number for its KM connector.
const KM_BASE: u8 = 0x40;

/// What is added to a port's number for its UA connector.
const UA_BASE: u8 = 0x80;

/// The number of ports, or why the header is faulty.
#[tactic(auto, unfolding(crate::specs::Capture::header))]
pub fn read_header(bytes: &[u8]) -> Result<u8, RecordFault>
    ensures ok { IfOk result (λ ports. header bytes.now ≡ Ok ports) }
    ensures err { IfErr result (λ fault. header bytes.now ≡ Err (record_stop fault)) }
    ensures ports { IfOk result (λ ports. (2 ≤ ports) × (ports ≤ MAX_PORTS)) }
    ensures fault { IfErr result IsFaulty }
{
    if bytes.len() < HEAD_SIZE {
        return Err(RecordFault::Faulty {
            offset: 0,
            why: CaptureFault::Truncated,
        });
    }
    if bytes[0] != b'K' || bytes[1] != b'V' || bytes[2] != b'C' || bytes[3] != b'1' {
        return Err(RecordFault::Faulty {
            offset: 0,
            why: CaptureFault::BadMagic,
        });
    }
    let ports = bytes[4];
    if ports < 2 || ports > MAX_PORTS || bytes[5] != 0 || bytes[6] != 0 || bytes[7] != 0 {
        return Err(RecordFault::Faulty {
            offset: 4,
            why: CaptureFault::BadPorts,
        });
    }
    Ok(ports)
}

/// Reads the head of a record. It is written to a place, since as a result it would be packed into one word and taken
/// apart again.
#[inline(always)]
pub fn read_head(bytes: &[u8], head: &mut Head)
    requires { 8 ≤ length bytes.now }
    ensures { head.new ≡ head_of bytes.now }
{
    head.tick = u32::from_le_bytes([bytes[0], bytes[1], bytes[2], bytes[3]]);
    head.kind = bytes[4];
    head.who = bytes[5];
    head.length = u16::from_le_bytes([bytes[6], bytes[7]]);
}

/// The kind of this number.
#[tactic(auto, unfolding(crate::specs::Capture::kind_of))]
#[inline(always)]
fn read_kind(number: u8) -> Result<Kind, CaptureFault>
    ensures { result ≡ kind_of number }
{
    match number {
        0x01 => Ok(Kind::Clock),
        0x10 => Ok(Kind::Act(ActKind::Reset)),
        0x11 => Ok(Kind::Act(ActKind::Setup)),
        0x12 => Ok(Kind::Act(ActKind::Out)),
        0x13 => Ok(Kind::Act(ActKind::In)),
        0x20 => Ok(Kind::Plug(PlugKind::Attach)),
        0x21 => Ok(Kind::Plug(PlugKind::Detach)),
        0x22 => Ok(Kind::Plug(PlugKind::Reply)),
        0x23 => Ok(Kind::Plug(PlugKind::Report)),
        0x24 => Ok(Kind::Job),
        _ => Err(CaptureFault::BadKind),
    }
}

/// The connector at which an act happens.
#[tactic(auto, unfolding(crate::specs::Capture::form_of))]
#[inline(always)]
fn read_connector(kind: ActKind, ports: u8, who: u8) -> Result<Form, CaptureFault>
    requires { ports ≤ MAX_PORTS }
    ensures value { result ≡ form_of (Kind.Act kind) ports who }
    ensures kind { IfOk result (λ form. kind_in form ≡ Kind.Act kind) }
    ensures within { IfOk result (IsFormWithin ports) }
{
    if is_behind(KM_BASE, ports, who) {
        return connector(who - KM_BASE, Side::Km, kind);
    }
    if is_behind(UA_BASE, ports, who) {
        return connector(who - UA_BASE, Side::Ua, kind);
    }
    Err(CaptureFault::BadWho)
}

/// Whether a number is one of those of so many ports behind `base`, by one comparison.
#[inline(always)]
fn is_behind(base: u8, ports: u8, who: u8) -> bool
    requires base { base ≤ UA_BASE }
    requires ports { ports ≤ MAX_PORTS }
    ensures { result ≡ (nat_lt base who && nat_le who (base + ports)) }
{
    who.wrapping_sub(base + 1) < ports
}

/// The act at the connector of the port of this number.
#[inline(always)]
fn connector(number: u8, side: Side, kind: ActKind) -> Result<Form, CaptureFault>
    requires { IsPort number }
    ensures { result ≡ Ok (Form.Act number side kind) }
{
    match PortId::new(number) {
        Some(port) => Ok(Form::Act(port, side, kind)),
        None => unreachable!(),
    }
}

/// The plug of which a record speaks. The token sends no reports.
#[tactic(auto, unfolding(crate::specs::Capture::form_of))]
#[inline(always)]
fn read_plug(kind: PlugKind, ports: u8, who: u8) -> Result<Form, CaptureFault>
    ensures value { result ≡ form_of (Kind.Plug kind) ports who }
    ensures kind { IfOk result (λ form. kind_in form ≡ Kind.Plug kind) }
    ensures within { IfOk result (IsFormWithin ports) }
{
    match who {
        1 => Ok(Form::Plug(Plug::Keyboard, kind)),
        2 => Ok(Form::Plug(Plug::Mouse, kind)),
        TOKEN if kind != PlugKind::Report => Ok(Form::Plug(Plug::Token, kind)),
        _ => Err(CaptureFault::BadWho),
    }
}

/// Who acts, for this kind of record.
#[tactic(auto, unfolding(crate::specs::Capture::form_of))]
#[inline(always)]
fn read_form(kind: Kind, ports: u8, who: u8) -> Result<Form, CaptureFault>
    requires { ports ≤ MAX_PORTS }
    ensures value { result ≡ form_of kind ports who }
    ensures kind { IfOk result (λ form. kind_in form ≡ kind) }
    ensures within { IfOk result (IsFormWithin ports) }
{
    match kind {
        Kind::Clock => {
            if who == 0 {
                Ok(Form::Clock)
            } else {
                Err(CaptureFault::BadWho)
            }
        }
        Kind::Act(act) => read_connector(act, ports, who),
        Kind::Plug(plug) => read_plug(plug, ports, who),
        Kind::Job => {
            if who == TOKEN {
                Ok(Form::Job)
            } else {
                Err(CaptureFault::BadWho)
            }
        }
    }
}

/// Whether a record of this kind can have a payload of this many bytes.
#[tactic(auto, unfolding(crate::specs::Capture::has_fit_length))]
#[inline(always)]
fn fits(kind: Kind, length: u16) -> bool
    ensures value { result ≡ has_fit_length kind length }
    ensures small { IsTrue result → length ≤ PAYLOAD_MAX }
{
    match kind {
        Kind::Clock => length == 0,
        Kind::Act(ActKind::Reset) => length == 0,
        Kind::Act(ActKind::Setup) => length == 9,
        Kind::Act(ActKind::Out) => 3 <= length && length <= 67,
        Kind::Act(ActKind::In) => length == 3,
        Kind::Plug(PlugKind::Attach) => length == 0,
        Kind::Plug(PlugKind::Detach) => length == 0,
        Kind::Plug(PlugKind::Reply) => 9 <= length && length <= PAYLOAD_MAX,
        Kind::Plug(PlugKind::Report) => 1 <= length && length <= 65,
        Kind::Job => 9 <= length && length <= PAYLOAD_MAX,
    }
}

/// What a head announces after a record of tick `last`, or the first of its checks that fails: the tick, the kind,
/// the acting party, and the length.
#[tactic(auto, unfolding(crate::specs::Capture::announced))]
#[inline(always)]
pub fn announce(ports: u8, last: Tick, head: &Head) -> Result<Form, CaptureFault>
    requires { ports ≤ MAX_PORTS }
    ensures value { result ≡ announced ports last head.now }
    ensures ordered { OnOk result (last ≤ head.now.tick) }
    ensures within { IfOk result (IsFormWithin ports) }
    ensures fits { IfOk result (λ form. IsTrue (has_fit_length (kind_in form) head.now.length)) }
    ensures small { OnOk result (head.now.length ≤ PAYLOAD_MAX) }
{
    if head.tick < last {
        return Err(CaptureFault::TickBack);
    }
    let kind = read_kind(head.kind)?;
    let fits = fits(kind, head.length);
    let form = read_form(kind, ports, head.who)?;
    if !fits {
        return Err(CaptureFault::BadLength);
    }
    Ok(form)
}
