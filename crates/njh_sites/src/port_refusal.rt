//! What the log says of a socket that can't be opened.

use crate::endpoints::Endpoint;
use crate::opening::ListenFault;
use crate::site::Site;
use njh_log::ListenCause;
use njh_table::{LineId, Tables};
use std::fmt;

/// A socket that can't be opened, with the names of its line and of its customer.
#[derive(Clone, Copy, Drop)]
pub struct PortRefusal<'a> {
    tables: &'a Tables,
    endpoint: Endpoint,
    /// The line that has the same port, if that is the cause.
    other: Option<LineId>,
    cause: ListenCause,
}

impl<'a> PortRefusal<'a> {
    /// That of one of these lines of the tables.
    pub fn of(tables: &'a Tables, endpoints: &[Endpoint], fault: ListenFault) -> PortRefusal<'a> {
        let mut other = None;
        for endpoint in endpoints {
            if other.is_none() && port_of(*endpoint) == port_of(fault.endpoint) {
                other = Some(endpoint.line);
            }
        }
        PortRefusal {
            tables,
            endpoint: fault.endpoint,
            other,
            cause: fault.cause,
        }
    }
}

/// The port on which a line listens, 0 if it dials.
fn port_of(endpoint: Endpoint) -> u16 {
    match endpoint.site {
        Site::Listens(port) => port,
        Site::Dials(_) => 0,
    }
}

impl fmt::Display for PortRefusal<'_> {
    fn fmt<W: fmt::Write>(&self, f: &mut fmt::Formatter<W>) -> fmt::Result {
        let line = Named {
            tables: self.tables,
            line: self.endpoint.line,
        };
        if let (ListenCause::SamePort, Some(other)) = (self.cause, self.other) {
            let other = if self.tables.has_line(other) {
                self.tables.line(other).name()
            } else {
                ""
            };
            return write!(f, "line {line}: the same port as {other}");
        }
        write!(
            f,
            "port {} of line {line}: {}",
            port_of(self.endpoint),
            self.cause
        )
    }
}

/// A line by its name, with its customer's.
#[derive(Clone, Copy, Drop)]
struct Named<'a> {
    tables: &'a Tables,
    line: LineId,
}

impl fmt::Display for Named<'_> {
    fn fmt<W: fmt::Write>(&self, f: &mut fmt::Formatter<W>) -> fmt::Result {
        if !self.tables.has_line(self.line) {
            return Ok(());
        }
        let line = self.tables.line(self.line).name();
        let customer = self.tables.customer(self.line.customer).name();
        write!(f, "{line} ({customer})")
    }
}
