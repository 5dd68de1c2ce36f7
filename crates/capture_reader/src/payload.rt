//! The payloads of a capture's records.
ghost use Rattle.std.specs.Prelude.{◌≡◌, ℕ, ◌+◌, ◌≤◌, length, drop, IsTrue, OnOk, OnErr, IfOk, IfErr, IfSome, IsOkAnd, IsSomeAnd, Some, Ok, Err, false};
ghost use Rattle.capture_reader.specs.Ahead.{ahead_of, kept_happening};
ghost use Rattle.capture_reader.specs.Capture.{has_fit_length, kind_in, act_of, doing_of, finished_in, happening_in};
ghost use Rattle.capture_reader.specs.Source.{IsFormWithin};
ghost use Rattle.capture_reader.specs.Taken.{moves_panel};
ghost use Rattle.psd_base.specs.Event.{AtFront, HappensWithin};

use crate::ahead::{Ahead, Answered, Kept};
use crate::form::{ActKind, Form, Kind, PlugKind};
use psd_base::{
    Act, BLOCK_SIZE, CaptureFault, PACKET_SIZE, Packet, Plug, PortId, Setup, Side, Tick,
};

/// Puts the record of this form and tick into its place. A record in its place costs fewer copies than one that is
/// handed on.
#[tactic(auto, unfolding(crate::specs::Capture::happening_in))]
#[inline(always)]
pub fn read_record(
    tick: Tick,
    form: Form,
    payload: &[u8],
    into: &mut Ahead,
) -> Result<(), CaptureFault>
    requires { IsTrue (has_fit_length (kind_in form) (length payload.now)) }
    ensures ok { OnOk result (IsSomeAnd (ahead_of into.new) (λ event. (event.tick ≡ tick)
        × (happening_in form payload.now ≡ Ok event.happening))) }
    ensures err { IfErr result (λ why. happening_in form payload.now ≡ Err why) }
    ensures same { OnErr result (into.new ≡ into.old) }
    ensures within { (ports : ℕ) → IsFormWithin ports form → OnOk result (IfSome (ahead_of into.new)
        (λ event. HappensWithin ports event.happening)) }
    ensures capture { OnOk result (IfSome (ahead_of into.new)
        (λ event. moves_panel event.happening ≡ false)) }
{
    match form {
        Form::Clock => into.kept = Some(Kept::Clock),
        Form::Act(port, side, kind) => read_act(port, side, kind, payload, into)?,
        Form::Plug(plug, kind) => read_doing(plug, kind, payload, into)?,
        Form::Job => read_job(payload, into)?,
    }
    into.tick = tick;
    Ok(())
}

/// Puts an act of a host into its place, by the payload of such a record.
#[tactic(auto, unfolding(crate::specs::Capture::has_fit_length))]
#[inline(always)]
fn read_act(
    port: PortId,
    side: Side,
    kind: ActKind,
    payload: &[u8],
    into: &mut Ahead,
) -> Result<(), CaptureFault>
    requires { IsTrue (has_fit_length (Kind.Act kind) (length payload.now)) }
    ensures ok { OnOk result (IsOkAnd (act_of kind payload.now)
        (λ act. into.new ≡ record into.old { kept = Some (Kept.Port port side); act = act })) }
    ensures err { IfErr result (λ why. act_of kind payload.now ≡ Err why) }
    ensures same { OnErr result (into.new ≡ into.old) }
{
    match kind {
        ActKind::Reset => read_reset(port, side, payload, into),
        ActKind::Setup => read_setup(port, side, payload, into),
        ActKind::Out => read_out(port, side, payload, into),
        ActKind::In => read_in(port, side, payload, into),
    }
}

#[tactic(auto, unfolding(crate::specs::Capture::act_of))]
#[inline(always)]
fn read_reset(
    port: PortId,
    side: Side,
    payload: &[u8],
    into: &mut Ahead,
) -> Result<(), CaptureFault>
    requires { length payload.now ≡ 0 }
    ensures ok { OnOk result (IsOkAnd (act_of ActKind.Reset payload.now)
        (λ act. into.new ≡ record into.old { kept = Some (Kept.Port port side); act = act })) }
    ensures err { IfErr result (λ why. act_of ActKind.Reset payload.now ≡ Err why) }
    ensures same { OnErr result (into.new ≡ into.old) }
{
    into.act = Act::Reset;
    into.kept = Some(Kept::Port(port, side));
    Ok(())
}

#[tactic(auto, unfolding(crate::specs::Capture::act_of))]
#[inline(always)]
fn read_setup(
    port: PortId,
    side: Side,
    payload: &[u8],
    into: &mut Ahead,
) -> Result<(), CaptureFault>
    requires { length payload.now ≡ 9 }
    ensures ok { OnOk result (IsOkAnd (act_of ActKind.Setup payload.now)
        (λ act. into.new ≡ record into.old { kept = Some (Kept.Port port side); act = act })) }
    ensures err { IfErr result (λ why. act_of ActKind.Setup payload.now ≡ Err why) }
    ensures same { OnErr result (into.new ≡ into.old) }
{
    let address = payload[0];
    if address > 127 {
        return Err(CaptureFault::BadField);
    }
    let setup = Setup::read(&[
        payload[1], payload[2], payload[3], payload[4], payload[5], payload[6], payload[7],
        payload[8],
    ]);
    write_setup(&mut into.act, address, setup);
    into.kept = Some(Kept::Port(port, side));
    Ok(())
}

#[tactic(auto, unfolding(crate::specs::Capture::act_of))]
#[inline(always)]
fn read_out(port: PortId, side: Side, payload: &[u8], into: &mut Ahead) -> Result<(), CaptureFault>
    requires at_least { 3 ≤ length payload.now }
    requires at_most { length payload.now ≤ 67 }
    ensures ok { OnOk result (IsOkAnd (act_of ActKind.Out payload.now)
        (λ act. into.new ≡ record into.old { kept = Some (Kept.Port port side); act = act })) }
    ensures err { IfErr result (λ why. act_of ActKind.Out payload.now ≡ Err why) }
    ensures same { OnErr result (into.new ≡ into.old) }
{
    let (address, endpoint, toggle) = (payload[0], payload[1], payload[2]);
    if address > 127 || endpoint > 15 || toggle > 1 {
        return Err(CaptureFault::BadField);
    }
    into.act = Act::Out {
        address,
        endpoint,
        toggle: toggle == 1,
        bytes: Packet::from_slice(&payload[3..]),
    };
    into.kept = Some(Kept::Port(port, side));
    Ok(())
}

#[tactic(auto, unfolding(crate::specs::Capture::act_of))]
#[inline(always)]
fn read_in(port: PortId, side: Side, payload: &[u8], into: &mut Ahead) -> Result<(), CaptureFault>
    requires { length payload.now ≡ 3 }
    ensures ok { OnOk result (IsOkAnd (act_of ActKind.In payload.now)
        (λ act. into.new ≡ record into.old { kept = Some (Kept.Port port side); act = act })) }
    ensures err { IfErr result (λ why. act_of ActKind.In payload.now ≡ Err why) }
    ensures same { OnErr result (into.new ≡ into.old) }
{
    let (address, endpoint, acked) = (payload[0], payload[1], payload[2]);
    if address > 127 || endpoint > 15 || acked > 1 {
        return Err(CaptureFault::BadField);
    }
    write_in(&mut into.act, address, endpoint, acked == 1);
    into.kept = Some(Kept::Port(port, side));
    Ok(())
}

/// Puts what happens at a plug into its place, by the payload of such a record.
#[tactic(auto, unfolding(crate::specs::Capture::has_fit_length, crate::specs::Capture::doing_of))]
fn read_doing(
    plug: Plug,
    kind: PlugKind,
    payload: &[u8],
    into: &mut Ahead,
) -> Result<(), CaptureFault>
    requires { IsTrue (has_fit_length (Kind.Plug kind) (length payload.now)) }
    ensures ok { OnOk result (IsOkAnd (doing_of kind plug payload.now) (λ doing.
        IsSomeAnd into.new.kept (λ kept. kept_happening into.new.act into.new.answered into.new.bytes kept
        ≡ AtFront doing))) }
    ensures err { IfErr result (λ why. doing_of kind plug payload.now ≡ Err why) }
    ensures same { OnErr result (into.new ≡ into.old) }
{
    match kind {
        PlugKind::Attach => {
            into.kept = Some(Kept::Attach(plug));
            Ok(())
        }
        PlugKind::Detach => {
            into.kept = Some(Kept::Detach(plug));
            Ok(())
        }
        PlugKind::Reply => read_reply(plug, payload, into),
        PlugKind::Report => {
            read_report(plug, payload, into);
            Ok(())
        }
    }
}

#[tactic(auto, unfolding(crate::specs::Capture::doing_of))]
fn read_reply(plug: Plug, payload: &[u8], into: &mut Ahead) -> Result<(), CaptureFault>
    requires at_least { 9 ≤ length payload.now }
    requires at_most { length payload.now ≤ 9 + BLOCK_SIZE }
    ensures ok { OnOk result (IsOkAnd (doing_of PlugKind.Reply plug payload.now) (λ doing.
        IsSomeAnd into.new.kept (λ kept. kept_happening into.new.act into.new.answered into.new.bytes kept
        ≡ AtFront doing))) }
    ensures err { IfErr result (λ why. doing_of PlugKind.Reply plug payload.now ≡ Err why) }
    ensures same { OnErr result (into.new ≡ into.old) }
{
    let status = payload[8];
    if status > 3 {
        return Err(CaptureFault::BadField);
    }
    into.answered = Answered {
        life: u32::from_le_bytes([payload[0], payload[1], payload[2], payload[3]]),
        number: u32::from_le_bytes([payload[4], payload[5], payload[6], payload[7]]),
        status,
    };
    into.kept = Some(Kept::Reply(plug));
    into.bytes.replace(&payload[9..]);
    Ok(())
}

#[tactic(auto, unfolding(crate::specs::Capture::doing_of))]
fn read_report(plug: Plug, payload: &[u8], into: &mut Ahead)
    requires at_least { 1 ≤ length payload.now }
    requires at_most { length payload.now ≤ 1 + PACKET_SIZE }
    ensures { IsOkAnd (doing_of PlugKind.Report plug payload.now) (λ doing.
        IsSomeAnd into.new.kept (λ kept. kept_happening into.new.act into.new.answered into.new.bytes kept
        ≡ AtFront doing)) }
{
    into.kept = Some(Kept::Report {
        plug,
        interface: payload[0],
    });
    into.bytes.replace(&payload[1..]);
}

/// Puts the end of a job of the token into its place, by the payload of such a record.
#[tactic(auto, unfolding(crate::specs::Capture::has_fit_length, crate::specs::Capture::finished_in))]
fn read_job(payload: &[u8], into: &mut Ahead) -> Result<(), CaptureFault>
    requires { IsTrue (has_fit_length Kind.Job (length payload.now)) }
    ensures ok { OnOk result (IsOkAnd (finished_in payload.now) (λ doing.
        IsSomeAnd into.new.kept (λ kept. kept_happening into.new.act into.new.answered into.new.bytes kept
        ≡ AtFront doing))) }
    ensures err { IfErr result (λ why. finished_in payload.now ≡ Err why) }
    ensures same { OnErr result (into.new ≡ into.old) }
{
    let status = payload[8];
    if status > 3 {
        return Err(CaptureFault::BadField);
    }
    into.answered = Answered {
        life: u32::from_le_bytes([payload[0], payload[1], payload[2], payload[3]]),
        number: u32::from_le_bytes([payload[4], payload[5], payload[6], payload[7]]),
        status,
    };
    into.kept = Some(Kept::Job);
    into.bytes.replace(&payload[9..]);
    Ok(())
}

/// Writes a setup over an act. Where that is one too, its fields alone are written: a fresh act has room for a packet,
/// which is cleared.
#[inline(always)]
fn write_setup(act: &mut Act, its_address: u8, its_setup: Setup)
    ensures { act.new ≡ Act.Setup its_address its_setup }
{
    if let Act::Setup { address, setup } = act {
        *address = its_address;
        *setup = its_setup;
        return;
    }
    *act = Act::Setup {
        address: its_address,
        setup: its_setup,
    };
}

/// Writes an IN over an act. Where that is one too, its fields alone are written.
#[inline(always)]
fn write_in(act: &mut Act, its_address: u8, its_endpoint: u8, was_acked: bool)
    ensures { act.new ≡ Act.In its_address its_endpoint was_acked }
{
    if let Act::In {
        address,
        endpoint,
        acked,
    } = act
    {
        *address = its_address;
        *endpoint = its_endpoint;
        *acked = was_acked;
        return;
    }
    *act = Act::In {
        address: its_address,
        endpoint: its_endpoint,
        acked: was_acked,
    };
}
