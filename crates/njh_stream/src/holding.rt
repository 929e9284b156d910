//! Files that wait to be sent, where their node has no route any more.

ghost use Rattle.std.specs.Prelude.{◌≡◌, ◌<◌, length, slice_set, Some};
ghost use Rattle.njh_header.specs.FileHeaders as headers;
ghost use Rattle.njh_spool.specs.CustomerSpool.{WholeFile, whole_numbered};
ghost use Rattle.njh_spool.specs.Spools.{spool_at};
ghost use Rattle.njh_stream.specs.Holding as holding;
ghost use Rattle.njh_stream.specs.Sending.{holds_of};
ghost use Rattle.njh_table.specs.TableFile.{entry_of};

use njh_ebcdic::{FIELD, Name};
use njh_header::Destination;
use njh_spool::{FileId, Spool, State};
use njh_table::{NamedCustomer, Route};

/// A customer's files that are Ready or Refused, and whose destination's node has no route, are
/// Held. All others stay as they are.
pub fn hold_unrouted(entry: &NamedCustomer, customer: u16, spool: &mut Spool)
    requires { customer < length spool.old }
    ensures { spool.new
        ≡ slice_set spool.old customer (holding.unrouted_held (entry_of entry.now) (spool_at customer spool.old)) }
{
    for index in 0..spool.files(customer) {
        let file = spool.file_at(customer, index);
        hold_file(entry, customer, file, spool);
    }
}

/// A file that waits and whose node has no route is Held.
fn hold_file(entry: &NamedCustomer, customer: u16, file: FileId, spool: &mut Spool)
    requires { customer < length spool.old }
    ensures { spool.new
        ≡ slice_set spool.old customer (holding.held_numbered (entry_of entry.now) file (spool_at customer spool.old)) }
{
    if has_lost_route(entry, customer, file, spool) {
        spool.set_state(customer, file, State::Held).ok();
    }
}

/// Whether a whole file is Ready or Refused, and its node has no route.
fn has_lost_route(entry: &NamedCustomer, customer: u16, file: FileId, spool: &Spool) -> bool
    requires { customer < length spool.now }
    ensures { result ≡ holds_of (holding.has_lost_route (entry_of entry.now))
        (whole_numbered file (spool_at customer spool.now)) }
{
    match spool.state(customer, file) {
        Ok(State::Ready) => is_unrouted(entry, customer, file, spool),
        Ok(State::Refused) => is_unrouted(entry, customer, file, spool),
        Ok(State::Held | State::Sending) | Err(_) => false,
    }
}

/// Whether the node of a customer's whole file has no route.
fn is_unrouted(entry: &NamedCustomer, customer: u16, file: FileId, spool: &Spool) -> bool
    requires { customer < length spool.now }
    ensures { (f : WholeFile) → whole_numbered file (spool_at customer spool.now) ≡ Some f → result
        ≡ holding.destination_unrouted (entry_of entry.now) (headers.destination_of f.kind f.records) }
{
    match spool.headers(customer, file) {
        Ok(headers) => destination_unrouted(entry, headers.destination),
        Err(_) => false,
    }
}

fn destination_unrouted(entry: &NamedCustomer, destination: Option<Destination>) -> bool
    ensures { result ≡ holding.destination_unrouted (entry_of entry.now) destination }
{
    match destination {
        Some(destination) => node_unrouted(entry, &destination.node),
        None => false,
    }
}

fn node_unrouted(entry: &NamedCustomer, node: &[u8; FIELD]) -> bool
    ensures { result ≡ holding.node_unrouted (entry_of entry.now) node.now }
{
    match Name::of_field(node) {
        Ok(node) => is_unknown(entry.route(node)),
        Err(_) => true,
    }
}

fn is_unknown(route: Route) -> bool
    ensures { result ≡ holding.is_unknown route }
{
    match route {
        Route::Unknown => true,
        Route::Here | Route::Line(_) => false,
    }
}
