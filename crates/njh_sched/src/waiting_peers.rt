//! When a customer's peers have to wait.

ghost use Rattle.std.specs.Prelude.{◌≡◌, ◌<◌, length, slice_get};
ghost use Rattle.njh_spool.specs.Spools.{spool_at};
ghost use Rattle.njh_stream.specs.Sending.{holds_of};
ghost use Rattle.njh_table.specs.TableFile.{customer_at};
ghost use Rattle.njh_sched.specs.Tight.{own_fcs, sends_a_file, is_being_sent};

use crate::files::file_at;
use njh_block::Fcs;
use njh_spool::{Spool, State};
use njh_table::Tables;

/// Where fewer blocks of a customer's quota are left, it is tight.
const FEW: u32 = 16;

/// Whether a customer's whole file of an index is being sent.
fn is_sent_at(customer: u16, index: u32, spool: &Spool) -> bool
    requires range { customer < length spool.now }
    requires index_range { index < length (spool_at customer spool.now).whole }
    ensures { result ≡ holds_of is_being_sent (slice_get (spool_at customer spool.now).whole index) }
{
    let file = file_at(customer, index, spool);
    match spool.state(customer, file) {
        Ok(State::Sending) => true,
        Ok(State::Ready | State::Held | State::Refused) | Err(_) => false,
    }
}

/// Whether one of a customer's files is being sent.
fn sends_a_file(customer: u16, spool: &Spool) -> bool
    requires { customer < length spool.now }
    ensures { result ≡ sends_a_file (spool_at customer spool.now) }
{
    for index in 0..spool.files(customer) {
        if is_sent_at(customer, index, spool) {
            return true;
        }
    }
    false
}

/// The function control sequence of the hub's blocks to a customer's peers: `80 C0` where fewer
/// than 16 blocks of its quota are left and one of its files is being sent, else `8F CF`. The spool
/// gives the customer the quota of its table entry.
pub fn own_fcs(customer: u16, spool: &Spool, tables: &Tables) -> Fcs
    requires range { customer < length spool.now }
    requires known { customer < length tables.now.customers }
    requires quota { (customer_at tables.now customer).quota ≡ (spool_at customer spool.now).quota }
    ensures { result ≡ own_fcs (spool_at customer spool.now) }
{
    spool.quota_holds(customer);
    let left = tables.customer(customer).quota() - spool.used(customer);
    if left < FEW && sends_a_file(customer, spool) {
        Fcs::streams_suspended()
    } else {
        Fcs::nothing_suspended()
    }
}
