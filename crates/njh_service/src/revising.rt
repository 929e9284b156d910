//! What a table file that changed brings, and what the log tells of that.

ghost use Rattle.std.specs.Prelude.{◌≡◌, is_ok, unwrap_or, IfSome, IsTrue};
ghost use Rattle.njh_lines.specs.LineStates.{AreMade, IsMadeAt};
ghost use Rattle.njh_sight.specs.Waking.{marked, IsRowMade};
ghost use Rattle.njh_revision.specs.Origins.{from_known};
ghost use Rattle.njh_revision.specs.Revisions.{AreKept, IsGiven};
ghost use Rattle.njh_service.specs.Revising.{line_reread, AreReread};

use njh_hub::{Hub, HubFault};
use njh_lines::{Exchange, Post};
use njh_log::{EventKind, LogEvent, Place, Severity};
use njh_revision::{Revision, RouteChange, SourceOutcome, TableSource};
use njh_table::{AddressRanges, Tables};
use njh_turns::NewRoutes;
use njh_wire::Network;
use std::io::Write;

/// Looks at the tables, if a second is over, and tells what came of that. From where the peers of
/// lines may connect holds at once. Answers the routes of the next customer that is to be given
/// some.
#[tactic(auto, using(crate::proofs::RevisingLaws::reread_as))]
pub(crate) fn revise<N: Network + Drop, L: Write + Drop, S: TableSource + Drop>(
    revision: &mut Revision<S>,
    exchange: &mut Exchange<N, L>,
) -> Option<NewRoutes>
    ensures same { exchange.new ≡ record exchange.old { lines = exchange.new.lines } }
    ensures lines { AreReread S.Fault revision.new exchange.old.lines exchange.new.lines }
    ensures kept { AreKept revision.old revision.new }
    ensures routes { IfSome result (λ new. IfSome revision.new (IsGiven new.customer new.routes)) }
{
    look_at_tables(revision, exchange);
    match revision.next_routes()? {
        Ok(new) => Some(new),
        Err(customer) => {
            tell_no_memory(revision, exchange, customer);
            None
        }
    }
}

/// Tells that there was no memory for the new routes of a customer.
fn tell_no_memory<N: Network + Drop, L: Write + Drop, S: TableSource + Drop>(
    revision: &mut Revision<S>,
    exchange: &mut Exchange<N, L>,
    customer: u16,
)
    ensures same { exchange.new ≡ exchange.old }
    ensures tables { revision.new ≡ revision.old }
{
    tell_routes(revision, exchange, customer, Err(HubFault::Memory));
}

/// Looks at the tables, if a second is over, and tells what came of that. From where the peers of
/// lines may connect holds at once.
fn look_at_tables<N: Network + Drop, L: Write + Drop, S: TableSource + Drop>(
    revision: &mut Revision<S>,
    exchange: &mut Exchange<N, L>,
)
    ensures same { exchange.new ≡ record exchange.old { lines = exchange.new.lines } }
    ensures lines { AreReread S.Fault revision.new exchange.old.lines exchange.new.lines }
    ensures kept { AreKept revision.old revision.new }
{
    let Some(outcome) = revision.look(exchange.now()) else {
        return;
    };
    take_outcome(revision, exchange, &outcome);
}

/// Tells what came of tables that were read. From where the peers of lines may connect holds at once.
pub(crate) fn take_outcome<N: Network + Drop, L: Write + Drop, S: TableSource + Drop>(
    revision: &Revision<S>,
    exchange: &mut Exchange<N, L>,
    outcome: &SourceOutcome<S::Fault>,
)
    ensures same { exchange.new ≡ record exchange.old { lines = exchange.new.lines } }
    ensures lines { AreMade (line_reread revision.now outcome.now) exchange.old.lines exchange.new.lines }
{
    exchange.write(outcome.severity(), Place::Hub, outcome);
    take_from(revision, exchange, outcome);
    tell_taken(revision, exchange, outcome);
}

/// From where the peer of each line may connect is as the tables say that were just read, if they
/// say it; else as before.
fn take_from<N: Network + Drop, L: Write + Drop, S: TableSource + Drop>(
    revision: &Revision<S>,
    exchange: &mut Exchange<N, L>,
    outcome: &SourceOutcome<S::Fault>,
)
    ensures same { exchange.new ≡ record exchange.old { lines = exchange.new.lines } }
    ensures lines { AreMade (line_reread revision.now outcome.now) exchange.old.lines exchange.new.lines }
{
    for place in 0..exchange.posts().len() {
        take_from_at(revision, exchange, outcome, place);
    }
}

/// So it is with the line at a place.
fn take_from_at<N: Network + Drop, L: Write + Drop, S: TableSource + Drop>(
    revision: &Revision<S>,
    exchange: &mut Exchange<N, L>,
    outcome: &SourceOutcome<S::Fault>,
    place: usize,
)
    ensures same { exchange.new ≡ record exchange.old { lines = exchange.new.lines } }
    ensures lines { IsMadeAt place (line_reread revision.now outcome.now) exchange.old.lines exchange.new.lines }
{
    let Some(post) = exchange.posts().get(place) else {
        return;
    };
    let from = new_from(revision, outcome, post);
    exchange.take_from(place, &from);
}

/// From where the peer of a line may connect, as the tables say that were just read; as before if
/// they don't say it.
fn new_from<Li: Drop, C: Drop, S: TableSource + Drop>(
    revision: &Revision<S>,
    outcome: &SourceOutcome<S::Fault>,
    post: &Post<Li, C>,
) -> AddressRanges
    ensures { result ≡ unwrap_or (from_known revision.now outcome.now post.now.line) post.now.entrance.from }
{
    match revision.from_read(outcome, post.line) {
        Some(from) => from.copy(),
        None => post.entrance.from.copy(),
    }
}

/// Tells what new tables bring the customers, if some were taken.
fn tell_taken<N: Network + Drop, L: Write + Drop, S: TableSource + Drop>(
    revision: &Revision<S>,
    exchange: &mut Exchange<N, L>,
    outcome: &SourceOutcome<S::Fault>,
)
    ensures { exchange.new ≡ exchange.old }
{
    if let SourceOutcome::Taken(before) = outcome {
        tell_changes(revision, exchange, before);
    }
}

/// Tells what the tables that were just taken bring the customers, by those before.
fn tell_changes<N: Network + Drop, L: Write + Drop, S: TableSource + Drop>(
    revision: &Revision<S>,
    exchange: &mut Exchange<N, L>,
    before: &Option<Tables>,
)
    ensures { exchange.new ≡ exchange.old }
{
    let Some(mut changes) = revision.changes(before) else {
        return;
    };
    for _ in 0..u64::MAX {
        let Some(change) = changes.next_change() else {
            return;
        };
        tell_change(exchange, change);
    }
}

/// Tells what new tables bring a customer.
fn tell_change<N: Network + Drop, L: Write + Drop>(
    exchange: &mut Exchange<N, L>,
    change: RouteChange,
)
    ensures { exchange.new ≡ exchange.old }
{
    match change {
        RouteChange::Stays(_) => {
            exchange.tell_text(EventKind::Routes, Severity::Warning, Place::Hub, &change);
        }
        RouteChange::Differs(customer, event) => exchange.tell(Place::Customer(customer), event),
    }
}

/// Tells what came of a customer's new routes. By routes that it was given its lines may have
/// something to send.
pub(crate) fn tell_routes<N: Network + Drop, L: Write + Drop, S: TableSource + Drop>(
    revision: &mut Revision<S>,
    exchange: &mut Exchange<N, L>,
    customer: u16,
    answer: Result<(), HubFault>,
)
    ensures same { exchange.new ≡ record exchange.old { customers = exchange.new.customers } }
    ensures marks { IsTrue (is_ok answer) → IsRowMade customer marked exchange.old.customers exchange.new.customers }
    ensures none { ¬ IsTrue (is_ok answer) → exchange.new.customers ≡ exchange.old.customers }
    ensures tables { revision.new ≡ revision.old }
{
    exchange.mark_if(customer, answer.is_ok());
    let Some(name) = revision.note_routes(customer, answer.is_ok()) else {
        return;
    };
    let event = match answer {
        Ok(()) => LogEvent::NewRoutes,
        Err(fault) => LogEvent::RoutesRefused(fault),
    };
    exchange.tell(Place::Customer(name), event);
}

/// Tells how many files are held whose nodes have no route, of a customer that was given new
/// routes in this round.
pub(crate) fn tell_unrouted<N: Network + Drop, L: Write + Drop, S: TableSource + Drop>(
    revision: &mut Revision<S>,
    exchange: &mut Exchange<N, L>,
    hub: &Hub,
)
    ensures same { exchange.new ≡ exchange.old }
    ensures tables { revision.new ≡ revision.old }
{
    let Some((name, files)) = revision.unrouted(hub) else {
        return;
    };
    if files > 0 {
        exchange.tell(Place::Customer(name), LogEvent::Unrouted(files));
    }
}
