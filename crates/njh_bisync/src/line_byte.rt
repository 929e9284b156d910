//! The bytes that mean something on the line, in EBCDIC.

/// Begins a call, before ENQ.
pub const SOH: u8 = 0x01;

/// After DLE: begins a text.
pub const STX: u8 = 0x02;

/// After DLE: ends a text, the last of a transmission.
pub const ETX: u8 = 0x03;

/// Says that the byte after it is a control.
pub const DLE: u8 = 0x10;

/// After DLE: ends a text.
pub const ETB: u8 = 0x26;

/// Asks, and after DLE in a text gives the text up.
pub const ENQ: u8 = 0x2D;

/// After DLE in a text: fill.
pub const SYN: u8 = 0x32;

/// Ends the session.
pub const EOT: u8 = 0x37;

/// Answers that a block is to be sent again.
pub const NAK: u8 = 0x3D;

/// After DLE: the answer that all is well.
pub const ACK_0: u8 = 0x70;
