//! Prints what a hub answers to orders.

ghost use Rattle.std.specs.Prelude.{◌≡◌, ◌<◌, ◌≤◌, None, map, length, OnOk, OnErr};
ghost use Rattle.std.specs.Io.KnownBytes.{Appends};
ghost use Rattle.njh_customer.specs.Orders.{replies_to};
ghost use Rattle.njh_hub.specs.WholeHub.{hub_event, part, refusal_of, SameLines};
ghost use Rattle.njh_io.specs.Written.{AppendsBeginning};
ghost use Rattle.njh_replay.specs.Printed.{replies_text};
ghost use Rattle.njh_replay.specs.Replayed.{Prints};
ghost use Rattle.njh_replay.specs.code.RunPieces.{IsOrderShort};

use crate::fault::ReplayFault;
use crate::files::told_line;
use njh_command::Replies;
use njh_ebcdic::Name;
use njh_hub::{Event, GivenOrder, Hub};
use njh_io::{WriteFault, write_bytes};
use njh_texts::MessageText;
use std::io::Write;

/// Gives a customer of this name an order, and prints the replies to it.
pub fn print_answers<W: Write>(
    hub: &mut Hub,
    customer: u16,
    order: &GivenOrder,
    name: Name,
    out: &mut W,
) -> Result<(), ReplayFault>
    requires { customer < length hub.old }
    ensures printed { Prints result (W.contents out.old) (W.contents out.new)
        (replies_text name (replies_to order.now (part customer hub.old).customer))
        (IsOrderShort (part customer hub.old) order.now) }
    ensures taken { OnOk result (refusal_of order.now (part customer hub.old) ≡ None) }
    ensures hub { OnOk result (hub.new ≡ (hub_event hub.old (Event.Order customer order.now)).parts) }
    ensures lines { SameLines hub.old hub.new }
{
    let mut replies = Replies::new();
    hub.order(customer, order, &mut replies)?;
    print_replies(replies.texts(), name, out)?;
    Ok(())
}

/// Prints replies to a customer of this name. It takes no memory. After a fault a beginning of them
/// was printed.
fn print_replies<W: Write>(
    replies: &[MessageText],
    name: Name,
    out: &mut W,
) -> Result<(), WriteFault>
    ensures ok { OnOk result (Appends (W.contents out.old) (W.contents out.new)
        (replies_text name (map (λ t. t.items) replies.now))) }
    ensures err { OnErr result (AppendsBeginning (W.contents out.old) (W.contents out.new)
        (replies_text name (map (λ t. t.items) replies.now))) }
{
    for reply in replies {
        write_bytes(out, &told_line(name, reply))?;
    }
    Ok(())
}
