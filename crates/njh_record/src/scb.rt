//! String control bytes (IBM SC23-0070, "Compression").

/// Ends a record.
pub const END_OF_RECORD: u8 = 0x00;

/// The string control byte that ends a record which the sender gives up.
pub const ABORT: u8 = 0x40;

/// So many blanks, the count in the low five bits.
pub const BLANKS: u8 = 0x80;

/// The next byte so many times, the count in the low five bits.
pub const REPEAT: u8 = 0xA0;

/// The next so many bytes as they are, the count in the low six bits.
pub const LITERAL: u8 = 0xC0;

/// A blank of EBCDIC.
pub const BLANK: u8 = 0x40;

/// The most bytes of a run.
pub const LONGEST_RUN: usize = 31;

/// The most bytes of a literal.
pub const LONGEST_LITERAL: usize = 63;
