//! What the log tells of the operator's requests.

ghost use Rattle.std.specs.Prelude.{◌≡◌};

use njh_lines::Exchange;
use njh_log::{LogEvent, Place};
use njh_request::{RequestRefusal, Terms};
use njh_wire::Network;
use std::io::Write;

/// Tells why a request was refused.
pub(crate) fn tell_refusal<N: Network + Drop, L: Write + Drop>(
    exchange: &mut Exchange<N, L>,
    refusal: RequestRefusal,
)
    ensures { exchange.new ≡ exchange.old }
{
    exchange.tell(Place::Hub, LogEvent::RequestRefused(refusal));
}

/// Tells who gave an order, if its terms say it.
pub(crate) fn tell_giver<N: Network + Drop, L: Write + Drop>(
    exchange: &mut Exchange<N, L>,
    number: u64,
    terms: Terms,
)
    ensures { exchange.new ≡ exchange.old }
{
    if terms.by.is_some() {
        exchange.tell(Place::Hub, LogEvent::OrderGiven(number, terms));
    }
}

/// Tells that so many visitors of the console sent what is no request of HTTP, if any did.
pub(crate) fn tell_astray<N: Network + Drop, L: Write + Drop>(
    exchange: &mut Exchange<N, L>,
    visitors: usize,
)
    ensures { exchange.new ≡ exchange.old }
{
    if visitors > 0 {
        exchange.tell(Place::Hub, LogEvent::NoRequest(visitors));
    }
}
