//! What a TTR is to a reader.

ghost use Rattle.std.specs.Prelude.{◌≡◌, option_map};
ghost use Rattle.njh_tcp.specs.Carried.{carried_by};
ghost use Rattle.njh_tcp.specs.Faults.{strange};
ghost use Rattle.njh_tcp.specs.Hearing.{heard_as};
ghost use Rattle.njh_tcp.specs.code.Scanner.{carried_as, hearing_on, outcome_in};

use crate::contact::Contact;
use crate::fault::{TtbFault, TtrStart};
use crate::ttr_byte::{ACK_0, DLE, ENQ, SOH, STX};

/// What the data of a TTR are.
#[derive(Clone, Copy)]
pub enum Kind {
    /// SOH ENQ.
    Enquiry,
    /// DLE and 70.
    Ack0,
    /// DLE STX and a text.
    Text,
    /// Anything else.
    Strange,
}

/// What ended. The data of a TTR are still in the scanner.
#[derive(Clone, Copy)]
pub enum Ended {
    /// An enquiry that is given.
    Enquiry,
    /// An Ack0 that is given.
    Ack0,
    /// A text, of which the first two bytes that are held are none.
    Text,
    /// What can't be read on.
    Wrong(TtbFault),
}

/// What is given of a TTR with these data, or why it is refused. Of a keep-alive nothing is.
pub fn hear(contact: Contact, held: &[u8]) -> Option<Ended>
    ensures outcome { option_map (outcome_in held.now) result
        ≡ (heard_as contact held.now (carried_by held.now)).outcome }
    ensures hearing { hearing_on contact result ≡ (heard_as contact held.now (carried_by held.now)).hearing }
{
    match (kind_of(held), contact) {
        (Kind::Text, _) => Some(Ended::Text),
        (Kind::Enquiry, Contact::Called) => Some(Ended::Enquiry),
        (Kind::Ack0, Contact::Calling) => Some(Ended::Ack0),
        (Kind::Ack0, Contact::Called | Contact::Over) => None,
        (Kind::Enquiry, Contact::Calling | Contact::Over) | (Kind::Strange, _) => {
            Some(Ended::Wrong(strange(held)))
        }
    }
}

/// What the data of a TTR are.
pub fn kind_of(held: &[u8]) -> Kind
    ensures { carried_as held.now result ≡ carried_by held.now }
{
    match held {
        [SOH, ENQ] => Kind::Enquiry,
        [DLE, ACK_0] => Kind::Ack0,
        [DLE, STX, _, ..] => Kind::Text,
        _ => Kind::Strange,
    }
}

/// The fault of a TTR that is refused for its data.
fn strange(held: &[u8]) -> TtbFault
    ensures { result ≡ strange held.now }
{
    TtbFault::StrangeTtr(TtrStart {
        first: held.first().copied(),
        second: held.get(1).copied(),
        more: held.len() > 2,
    })
}
