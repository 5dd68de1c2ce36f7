//! The numbers of a setup's fields, by the names of the standard.

/// A kind of request with this bit has its data go to the host (USB 2.0, table 9-2).
pub const TO_HOST: u8 = 0x80;

// Who is asked, and which way the data go (USB 2.0, table 9-2).
pub const TO_DEVICE: u8 = 0x00;

pub const TO_INTERFACE: u8 = 0x01;

pub const TO_ENDPOINT: u8 = 0x02;

pub const FROM_DEVICE: u8 = 0x80;

pub const FROM_INTERFACE: u8 = 0x81;

pub const FROM_ENDPOINT: u8 = 0x82;

pub const CLASS_TO_INTERFACE: u8 = 0x21;

pub const CLASS_FROM_INTERFACE: u8 = 0xa1;

// The standard requests (USB 2.0, table 9-4).
pub const GET_STATUS: u8 = 0x00;

pub const CLEAR_FEATURE: u8 = 0x01;

pub const SET_FEATURE: u8 = 0x03;

pub const SET_ADDRESS: u8 = 0x05;

pub const GET_DESCRIPTOR: u8 = 0x06;

pub const GET_CONFIGURATION: u8 = 0x08;

pub const SET_CONFIGURATION: u8 = 0x09;

pub const GET_INTERFACE: u8 = 0x0a;

pub const SET_INTERFACE: u8 = 0x0b;

/// The feature that CLEAR_FEATURE and SET_FEATURE are of, ENDPOINT_HALT (USB 2.0, table 9-6).
pub const ENDPOINT_HALT: u16 = 0;

// The values of GET_DESCRIPTOR: the descriptor's kind in the high byte (USB 2.0, table 9-5; HID 1.11, 7.1), and in the low
// one its number, which is 0.
pub const DEVICE_DESCRIPTOR: u16 = 0x0100;

pub const CONFIGURATION_DESCRIPTOR: u16 = 0x0200;

pub const HID_DESCRIPTOR: u16 = 0x2100;

pub const REPORT_DESCRIPTOR: u16 = 0x2200;

// The class requests of a HID interface (HID 1.11, table 7.2).
pub const GET_REPORT: u8 = 0x01;

pub const GET_IDLE: u8 = 0x02;

pub const GET_PROTOCOL: u8 = 0x03;

pub const SET_REPORT: u8 = 0x09;

pub const SET_IDLE: u8 = 0x0a;

pub const SET_PROTOCOL: u8 = 0x0b;

// The values of GET_REPORT and SET_REPORT: the report's kind in the high byte (HID 1.11, 7.2.1), and in the low one its
// identifier, which is 0.
pub const INPUT_REPORT: u16 = 0x0100;

pub const OUTPUT_REPORT: u16 = 0x0200;
