//! The subrecord control bytes of a file's headers and trailers (IBM SC23-0070, "Data streams").

/// A job header.
pub const JOB_HEADER: u8 = 0xc0;

/// The trailer that ends a whole file.
pub const JOB_TRAILER: u8 = 0xd0;

/// A data set header.
pub const DATA_SET_HEADER: u8 = 0xe0;
