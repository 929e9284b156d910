//! The bytes that mean something in a TTR, in EBCDIC.

/// Before ENQ: a call.
pub const SOH: u8 = 0x01;

/// After DLE: a text.
pub const STX: u8 = 0x02;

/// Says that the byte after it is a control.
pub const DLE: u8 = 0x10;

/// After SOH: asks.
pub const ENQ: u8 = 0x2D;

/// After DLE: the answer that all is well.
pub const ACK_0: u8 = 0x70;
