//! The limits of a table file.

/// How many customers there are at most.
pub const MAX_CUSTOMERS: usize = 64;

/// How many lines the hub has at most.
pub const MAX_LINES: usize = 256;

/// How many routes a customer has at most.
pub const MAX_ROUTES: usize = 512;

/// How many characters a line's name has at most.
pub const MAX_LINE_NAME: usize = 8;

/// How many blocks the spool has at most.
pub const MAX_CAPACITY: u32 = 4_194_240;

/// How many blocks of the spool a customer may use at most.
pub const MAX_QUOTA: u32 = 65_535;

/// How many files a customer may have at most.
pub const MAX_FILES: u32 = 1024;

/// The least size of a block's text, in bytes before doubling.
pub const MIN_BLOCK: u32 = 300;

/// The greatest size of a block's text, in bytes before doubling.
pub const MAX_BLOCK: u32 = 4096;

/// How many streams of a kind a line has at most.
pub const MAX_STREAMS: u32 = 4;

/// How many ranges of addresses a line's `from` has at most.
pub const MAX_RANGES: usize = 16;

/// The greatest number of a port.
pub const MAX_PORT: u32 = 65_535;
