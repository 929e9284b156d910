//! What becomes of who asks for a line, and what it is answered.

ghost use Rattle.std.specs.Prelude.{◌≡◌};
ghost use Rattle.njh_open.specs.Verdicts.{IsOpenVerdict, IsRecordVerdict, answer_to};

use njh_ebcdic::Name;
use njh_tcp::{ControlRecord, Hosts, LINK_ACTIVE, NO_LINK, NOT_NOW};

/// How a line is to who asks for it.
#[derive(Clone, Copy, Debug, PartialEq, Eq)]
pub enum Vacancy {
    /// It has no connection, or one that has been without a session for ten seconds.
    Free,
    /// It has a connection.
    Taken,
    /// It is stopped.
    Stopped,
}

/// What becomes of who asked for a line.
#[derive(Clone, Copy, Debug, PartialEq, Eq)]
pub enum Verdict {
    /// The line has its connection.
    Connected,
    /// A second OPEN: the connection that is there is to be tried.
    Second,
    /// The line is stopped.
    WhileStopped,
    /// An OPEN with other names, which are these.
    OtherNames(Hosts),
    /// No OPEN.
    NoOpen,
}

/// What becomes of who sent such a control record, or none, to the port of a node's line.
pub(crate) fn verdict_on(
    control: Option<ControlRecord>,
    node: &Name,
    hub: &Name,
    vacancy: Vacancy,
) -> Verdict
    ensures { IsRecordVerdict node.now hub.now vacancy control result }
{
    match control {
        Some(ControlRecord::Open(hosts)) => verdict_on_open(&hosts, node, hub, vacancy),
        Some(ControlRecord::Ack(_) | ControlRecord::Nak(..)) | None => Verdict::NoOpen,
    }
}

/// What becomes of who sent an OPEN.
fn verdict_on_open(hosts: &Hosts, node: &Name, hub: &Name, vacancy: Vacancy) -> Verdict
    ensures { IsOpenVerdict node.now hub.now vacancy hosts.now result }
{
    if !hosts.are(node, hub) {
        return Verdict::OtherNames(*hosts);
    }
    match vacancy {
        Vacancy::Free => Verdict::Connected,
        Vacancy::Taken => Verdict::Second,
        Vacancy::Stopped => Verdict::WhileStopped,
    }
}

/// The answer to who sent 33 bytes with these names in them. It has the same, exchanged.
pub(crate) fn answer_to(verdict: Verdict, sent: &Hosts) -> ControlRecord
    ensures { result ≡ answer_to verdict sent.now }
{
    let hosts = sent.exchanged();
    match verdict {
        Verdict::Connected => ControlRecord::Ack(hosts),
        Verdict::Second => ControlRecord::Nak(hosts, LINK_ACTIVE),
        Verdict::WhileStopped => ControlRecord::Nak(hosts, NOT_NOW),
        Verdict::OtherNames(_) | Verdict::NoOpen => ControlRecord::Nak(hosts, NO_LINK),
    }
}
