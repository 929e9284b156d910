//! How many handles the lines that are served need.

ghost use Rattle.std.specs.Prelude.{◌≡◌, ◌≤◌};
ghost use Rattle.njh_sites.specs.Handles.{handles_needed, handles_of};

use crate::endpoints::Endpoint;
use crate::site::Site;

/// The handles of a line that listens: its socket, and its peer.
const LISTENING: u64 = 2;

/// The handle of a line that dials: its peer.
const DIALLING: u64 = 1;

/// What else is open: the three standard streams, the poll of the sockets, a spool file with its
/// log and their folder, the table file while it is read, a connection that is let in before the one
/// that it takes the place of is gone, the console's listener and its four visitors, and one more.
const OTHERS: u64 = 15;

/// How many handles these lines need, with all that is open beside them.
pub fn handles_needed(endpoints: &[Endpoint]) -> u64
    ensures { result ≡ handles_needed endpoints.now }
{
    let mut needed = OTHERS;
    for endpoint in endpoints {
        needed += handles_of(endpoint);
    }
    needed
}

/// How many handles a line needs.
fn handles_of(endpoint: &Endpoint) -> u64
    ensures is { result ≡ handles_of endpoint.now }
    ensures most { result ≤ 2 }
{
    match endpoint.site {
        Site::Listens(_) => LISTENING,
        Site::Dials(_) => DIALLING,
    }
}
