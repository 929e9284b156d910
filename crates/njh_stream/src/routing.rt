//! Which files go by a line.

ghost use Rattle.std.specs.Prelude.{◌≡◌, ◌<◌, length, slice_set, List};
ghost use Rattle.njh_spool.specs.CustomerSpool.{whole_numbered};
ghost use Rattle.njh_spool.specs.Spools.{spool_at};
ghost use Rattle.njh_table.specs.TableFile.{entry_of};
ghost use Rattle.njh_stream.specs.code.FileRouting.{with_retry};
ghost use Rattle.njh_stream.specs.Sending as sending;

use njh_ebcdic::{FIELD, Name};
use njh_header::Destination;
use njh_spool::{FileId, Spool, State};
use njh_table::{NamedCustomer, Route};

/// Whether a customer's whole file goes by a line: by the route of its destination's node. A file
/// that isn't there goes by none.
pub fn goes_by(entry: &NamedCustomer, line: u16, customer: u16, file: FileId, spool: &Spool) -> bool
    requires { customer < length spool.now }
    ensures { result ≡ sending.holds_of (sending.goes_by (entry_of entry.now) line)
        (whole_numbered file (spool_at customer spool.now)) }
{
    match spool.headers(customer, file) {
        Ok(headers) => destination_goes_by(entry, line, headers.destination),
        Err(_) => false,
    }
}

/// Whether the node of a destination goes by a line.
fn destination_goes_by(entry: &NamedCustomer, line: u16, destination: Option<Destination>) -> bool
    ensures { result ≡ sending.destination_goes_by (entry_of entry.now) line destination }
{
    match destination {
        Some(destination) => node_goes_by(entry, line, &destination.node),
        None => false,
    }
}

/// Whether a node's route is a line.
pub fn node_goes_by(entry: &NamedCustomer, line: u16, node: &[u8; FIELD]) -> bool
    ensures { result ≡ sending.node_goes_by (entry_of entry.now) line node.now }
{
    match Name::of_field(node) {
        Ok(node) => is_line(entry.route(node), line),
        Err(_) => false,
    }
}

fn is_line(route: Route, line: u16) -> bool
    ensures { result ≡ sending.is_line line route }
{
    match route {
        Route::Line(number) => number == line,
        Route::Here | Route::Unknown => false,
    }
}

/// Whether a whole file was refused and goes by a line.
fn may_go_again(
    entry: &NamedCustomer,
    line: u16,
    customer: u16,
    file: FileId,
    spool: &Spool,
) -> bool
    requires { customer < length spool.now }
    ensures { result ≡ sending.holds_of (sending.may_go_again (entry_of entry.now) line)
        (whole_numbered file (spool_at customer spool.now)) }
{
    match spool.state(customer, file) {
        Ok(State::Refused) => goes_by(entry, line, customer, file, spool),
        Ok(State::Ready | State::Held | State::Sending) | Err(_) => false,
    }
}

/// The files that were refused and go by a line are Ready again.
pub fn retry_refused(entry: &NamedCustomer, line: u16, customer: u16, spool: &mut Spool)
    requires { customer < length spool.old }
    ensures { spool.new
        ≡ slice_set spool.old customer (sending.tried_again (entry_of entry.now) line (spool_at customer spool.old)) }
{
    for index in 0..spool.files(customer) {
        let file = spool.file_at(customer, index);
        retry_file(entry, line, customer, file, spool);
    }
}

/// A file that was refused and goes by a line is Ready again.
fn retry_file(entry: &NamedCustomer, line: u16, customer: u16, file: FileId, spool: &mut Spool)
    requires { customer < length spool.old }
    ensures { spool.new
        ≡ slice_set spool.old customer (with_retry (entry_of entry.now) line file (spool_at customer spool.old)) }
{
    if may_go_again(entry, line, customer, file, spool) {
        spool.set_state(customer, file, State::Ready).ok();
    }
}
