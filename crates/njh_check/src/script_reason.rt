//! Why a line of a script is bad.

use njh_replay::TextFault;
use njh_table::TableFault;

/// Why a line has no event.
#[derive(Clone, Copy, Debug, PartialEq, Eq)]
pub enum ScriptReason {
    /// The line is no UTF-8.
    NotText,
    /// There is no event of this word.
    NoEvent,
    /// No line's name comes after the word.
    NoName,
    /// No line has this name.
    NoLine,
    /// More words are there than the event has.
    MoreWords,
    /// No bytes come after the line's name.
    NoBytes,
    /// The number of hexadecimal digits is odd.
    OddDigits,
    /// A character is no hexadecimal digit.
    BadDigit {
        /// How many digits come before it.
        index: usize,
    },
    /// No customer's name comes after `ROUTES`, `ORDER` or `TELL`.
    NoCustomerName,
    /// No customer has this name.
    NoCustomer,
    /// A route has no colon.
    NoColon,
    /// The node of a route or of a user is no name.
    BadNode,
    /// A route has more than two lines.
    MoreLines,
    /// No user comes after the customer's name.
    NoUserName,
    /// A user's word is no node and user with a full stop between them.
    NoUser,
    /// The user at a node is no name.
    BadUser,
    /// The text of an order can't be one.
    Text {
        /// Why not.
        fault: TextFault,
    },
    /// The customer may not have the routes.
    Routes {
        /// Why not.
        fault: TableFault,
    },
}

/// Why a line is bad, and the word of it that is.
#[derive(Clone, Copy, Debug)]
pub struct BadLine<'a> {
    /// Why.
    pub why: ScriptReason,
    /// The word, or nothing if it is none alone.
    pub word: &'a str,
}
