//! What the log tells once lines are served.

ghost use Rattle.std.specs.Prelude.{◌≡◌};

use arrayvec::ArrayString;
use njh_hub::Hub;
use njh_lines::Exchange;
use njh_log::{Place, Severity};
use njh_sight::CUSTOMERS;
use njh_wire::Network;
use std::fmt;
use std::io::Write;

/// A version of the program, as the log tells it.
pub(crate) type Version = ArrayString<16>;

/// What of a version is told.
pub(crate) fn version_of(text: &str) -> Version {
    let mut version = ArrayString::new();
    let _whole = version.try_push_str(text).is_ok();
    version
}

/// What is served: by which version of the program, of how many customers, how many lines, and how
/// many whole files there are.
#[derive(Clone, Copy, Debug, Drop)]
struct Ready {
    version: Version,
    customers: usize,
    lines: usize,
    files: u64,
}

/// Tells that so many lines of a hub of so many customers are served, by this version of the
/// program.
pub(crate) fn tell_ready<N: Network + Drop, L: Write + Drop>(
    exchange: &mut Exchange<N, L>,
    version: Version,
    customers: usize,
    lines: usize,
    hub: &Hub,
)
    ensures { exchange.new ≡ exchange.old }
{
    exchange.count_files(hub);
    let ready = Ready {
        version,
        customers,
        lines,
        files: files_of(hub),
    };
    exchange.write(Severity::Information, Place::Hub, &ready);
}

/// How many whole files the customers of a hub have.
fn files_of(hub: &Hub) -> u64 {
    let mut files = 0u64;
    for customer in 0..CUSTOMERS {
        files = files.saturating_add(u64::from(hub.file_count(customer as u16)));
    }
    files
}

impl fmt::Display for Ready {
    fn fmt<W: fmt::Write>(&self, f: &mut fmt::Formatter<W>) -> fmt::Result {
        write!(
            f,
            "ready: njehub {}, {} customers, {} lines, {} files",
            self.version, self.customers, self.lines, self.files
        )
    }
}
