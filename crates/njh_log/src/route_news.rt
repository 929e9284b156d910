//! A route in the log.

use arrayvec::ArrayString;
use njh_ebcdic::Name;
use std::fmt;

/// How many bytes the name of a line has at most.
const NAME: usize = 8;

/// A node whose route is another in new tables, and the lines of that.
#[derive(Clone, Copy, Drop)]
pub struct RouteNews {
    /// The node.
    pub node: Name,
    /// The line that leads to it, if it has a route.
    pub line: Option<ArrayString<NAME>>,
    /// Another that does so too, if there is one.
    pub second: Option<ArrayString<NAME>>,
}

impl fmt::Display for RouteNews {
    fn fmt<W: fmt::Write>(&self, f: &mut fmt::Formatter<W>) -> fmt::Result {
        let node = self.node;
        match (self.line, self.second) {
            (Some(line), Some(second)) => write!(f, "route {node}: {line}, {second}"),
            (Some(line), None) => write!(f, "route {node}: {line}"),
            (None, _) => write!(f, "route {node}: none"),
        }
    }
}
