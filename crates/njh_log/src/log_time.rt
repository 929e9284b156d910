//! The time of a line of the log.

use jiff::Timestamp;
use std::fmt;

/// So many milliseconds since 1970, shown as a date and a time in UTC.
#[derive(Clone, Copy, Debug, Drop)]
pub(crate) struct LogTime(pub(crate) i64);

impl fmt::Display for LogTime {
    fn fmt<W: fmt::Write>(&self, f: &mut fmt::Formatter<W>) -> fmt::Result {
        let milliseconds = self.0;
        match Timestamp::from_millisecond(milliseconds) {
            Ok(time) => write!(f, "{time:.3}"),
            Err(_) => write!(f, "{milliseconds}"),
        }
    }
}
