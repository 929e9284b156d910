//! Why a sign-on was refused.

use njh_ebcdic::Name;

/// Why a sign-on was refused (IBM SC23-0070, "I and J control records"): of node, size and password
/// the first that doesn't fit. What came as a password isn't told.
#[derive(Clone, Copy, Debug, PartialEq, Eq)]
pub enum Refusal {
    /// The block's first record wasn't the sign-on that was due: an I of the end that calls, a J of
    /// the one that answers.
    NoSignOn,
    /// It was, but is too short, or its node is no name.
    Unreadable,
    /// This node signed on, which isn't the line's.
    Node(Name),
    /// It takes texts of at most so many bytes, fewer than 300.
    Size(u16),
    /// Its password isn't the line's.
    Password,
}
