//! Where the fields of headers and sign-ons (IBM SC23-0070) are.
//!
//! Each place is a count of bytes from the beginning of the part that its module names. Nodes,
//! users, names and passwords are fields of eight bytes in EBCDIC, and numbers are of two bytes,
//! the high byte first.

/// The prefix of a header: length (2), flags (1), sequence (1).
pub mod prefix {
    /// How many bytes it has.
    pub const SIZE: usize = 4;
}

/// What each section begins with: its length, of all its bytes (2), its type (1) and its modifier
/// (1).
pub mod head {
    /// How many bytes it has.
    pub const SIZE: usize = 4;

    /// The section's length.
    pub const LENGTH: usize = 0;

    /// The section's type and modifier.
    pub const KIND: usize = 2;

    /// The kind of the general section: type 00, modifier 00.
    pub const GENERAL: u16 = 0;
}

/// The general section of a job header.
pub mod job {
    /// How many bytes it has at least.
    pub const SIZE: usize = 96;

    /// The original job number.
    pub const NUMBER: usize = 4;

    /// The job's name.
    pub const NAME: usize = 24;

    /// The user who gave the job.
    pub const USER: usize = 32;

    /// The node that the job comes from.
    pub const ORIGIN_NODE: usize = 64;

    /// The user there.
    pub const ORIGIN_USER: usize = 72;

    /// The node that the job is to run at.
    pub const EXECUTION_NODE: usize = 80;

    /// The user there.
    pub const EXECUTION_USER: usize = 88;
}

/// The general section of a data set header.
pub mod data_set {
    /// How many bytes it has at least.
    pub const SIZE: usize = 20;

    /// The node that the data set goes to.
    pub const DESTINATION_NODE: usize = 4;

    /// The user there.
    pub const DESTINATION_USER: usize = 12;
}

/// A sign-on from its length byte on, after RCB and SRCB. Between these fields and after them
/// are length (1) at 0, qualifier (1) at 9, event sequence (4), resistance (2), the node's own
/// password (8) at 26, flag (1) and features (4).
pub mod sign_on {
    /// What has to be there: all up to the block size.
    pub const SIZE: usize = 18;

    /// The node that signs on.
    pub const NODE: usize = 1;

    /// The size of the longest text that it takes.
    pub const BLOCK: usize = 16;

    /// The line's password.
    pub const PASSWORD: usize = 18;
}
