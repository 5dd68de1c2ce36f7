//! The function of an emulated device: what it answers beyond the requests that every device has.
ghost use Rattle.std.specs.Prelude.{◌≡◌, ℕ, ◌≤◌, List, length, Option, Bool, false, IsTrue, IfSome};
ghost use Rattle.std.specs.Option.{option_copied};
ghost use Rattle.psd_base.specs.declared.packet.TheConstants.{PACKET_SIZE, BLOCK_SIZE};

use psd_base::event::Tick;
use psd_base::packet::Packet;
use psd_base::setup::Setup;

/// What a device is for: its descriptors (USB 2.0, 9.4.3; HID 1.11, 7.1) and its class requests (HID 1.11, 7.2).
pub trait Function {
    ghost use Rattle.psd_base.specs.declared.setup.Setup.{Setup};

    /// The descriptor that a setup asks for, if the device has it.
    ghost descriptor_of: { Self → Setup → Option (List ℕ) };

    /// What a class request that reads is answered, if the device has the request.
    ghost class_input_of: { Self → Setup → Option (List ℕ) };

    /// Whether the device has this class request that writes, or has no data.
    ghost takes_class: { Setup → Bool };

    /// What a completed class request makes of the device.
    ghost after_class: { Self → ℕ → Setup → List ℕ → Self };

    /// The descriptor that a setup asks for.
    fn descriptor(&self, setup: &Setup) -> Option<&[u8]>
        ensures { option_copied result ≡ descriptor_of self.now setup.now };

    /// What a class request that reads is answered.
    fn class_in(&self, setup: &Setup) -> Option<Packet>
        ensures { result ≡ class_input_of self.now setup.now };

    /// Whether the device has this class request that writes, or has no data.
    fn class_takes(&self, setup: &Setup) -> bool
        ensures { result ≡ takes_class setup.now };

    /// Carries out a class request that was completed at this tick, with the bytes that the host sent. Where the device
    /// doesn't have the request it changes nothing (`refuses_class`).
    fn class_out(&mut self, tick: Tick, setup: &Setup, bytes: &[u8])
        requires whole { length bytes.now ≡ setup.now.length }
        requires fits { length bytes.now ≤ PACKET_SIZE }
        ensures { self.new ≡ after_class self.old tick setup.now bytes.now };

    ghost short_descriptor: { (device : Self) (setup : Setup)
        → IfSome (descriptor_of device setup) (λ bytes. length bytes ≤ BLOCK_SIZE) };

    ghost short_class: { (setup : Setup) → IsTrue (takes_class setup) → setup.length ≤ PACKET_SIZE };

    ghost refuses_class: { (device : Self) (tick : ℕ) (setup : Setup) (bytes : List ℕ)
        → takes_class setup ≡ false
        → after_class device tick setup bytes ≡ device };

    ghost keeps_descriptors: { (device : Self) (tick : ℕ) (setup : Setup) (bytes : List ℕ) (other : Setup)
        → descriptor_of (after_class device tick setup bytes) other ≡ descriptor_of device other };
}
