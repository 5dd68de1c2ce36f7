//! The fixed rules by which descriptors are judged, in the order in which they are judged within a step.
//!
//! Numbers 8 and 11 are those of replies that don't come.

use psd_base::console::RuleName;

/// The reply isn't a device descriptor (USB 2.0, section 9.6.1), or isn't a configuration with all that
/// belongs to it (sections 9.6.3 to 9.6.6).
pub const MALFORMED_DESCRIPTOR: RuleName = RuleName::Fixed(1);

/// The class of the device or of some interface is that of hubs.
pub const HUB: RuleName = RuleName::Fixed(2);

/// bMaxPacketSize0 isn't 8, 16, 32 or 64 bytes, or there are over 8 interfaces or over 16 endpoints.
pub const SIZE_LIMITS: RuleName = RuleName::Fixed(3);

/// At the keyboard's and the mouse's plug no interface is of class HID (HID 1.11, section 4.1), or the
/// interface that is judged isn't. At the token's plug there is no interface, or one isn't of class smart card.
pub const NO_INTERFACE: RuleName = RuleName::Fixed(4);

/// The report descriptor is malformed (HID 1.11, section 6.2.2).
pub const MALFORMED_REPORT: RuleName = RuleName::Fixed(5);

/// The report descriptor is beyond a limit on its fields, usages, collections, pushes, field sizes or
/// report lengths.
pub const REPORT_LIMITS: RuleName = RuleName::Fixed(6);

/// A keyboard has no usable key field, or a mouse no usable button or motion field.
pub const NO_FIELD: RuleName = RuleName::Fixed(7);

/// A descriptor differs from the one that was accepted in an earlier life of the device.
pub const CHANGED: RuleName = RuleName::Fixed(9);

/// A mouse has an X or a Y that isn't relative.
pub const ABSOLUTE_POINTER: RuleName = RuleName::Fixed(10);
