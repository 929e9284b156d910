//! What the log tells of what a depot opened.

ghost use Rattle.std.specs.Prelude.{◌≡◌};

use njh_lines::Exchange;
use njh_log::{LineText, Place, Severity};
use njh_turns::Depot;
use njh_wire::Network;
use std::io::Write;

/// Tells all that an operator is to know of what a depot opened, a line for each thing. Answers how
/// many there are.
pub(crate) fn tell_opened<N: Network + Drop, L: Write + Drop, D: Depot>(
    exchange: &mut Exchange<N, L>,
    depot: &D,
) -> usize
    ensures { exchange.new ≡ exchange.old }
{
    for number in 0..usize::MAX {
        if !tell_thing(exchange, depot, number) {
            return number;
        }
    }
    usize::MAX
}

/// Tells the thing of this number, if there is one. Says whether there is.
fn tell_thing<N: Network + Drop, L: Write + Drop, D: Depot>(
    exchange: &mut Exchange<N, L>,
    depot: &D,
    number: usize,
) -> bool
    ensures { exchange.new ≡ exchange.old }
{
    let mut text = LineText::new();
    if depot.tell(number, &mut text).is_none() {
        return false;
    }
    exchange.write(Severity::Warning, Place::Hub, &text);
    true
}
