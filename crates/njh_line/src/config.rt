//! What a line is told once.

use njh_ebcdic::Name;
use njh_table::Role;

/// A line's two nodes, and what they agree on beforehand.
#[derive(Clone, Copy, Debug, PartialEq, Eq)]
pub struct Config {
    /// The hub's name, the customer's own for it.
    pub hub: Name,
    /// The peer's name.
    pub node: Name,
    /// Whether the hub calls or answers.
    pub role: Role,
    /// The most bytes of a text, 300 to 4,096.
    pub block: u16,
    /// What both ends send as a password; without one the hub sends blanks and takes any.
    pub password: Option<Name>,
}
