//! A customer that is given an order.

ghost use Rattle.std.specs.Prelude.{◌≡◌, ◌<◌, length, slice_set};
ghost use Rattle.njh_spool.specs.Spools.{spool_at};
ghost use Rattle.njh_table.specs.TableFile.{customer_at, entry_of};
ghost use Rattle.njh_customer.specs.Customer.{customer_with};
ghost use Rattle.njh_customer.specs.MovingLaws.{OrdersDoAsCommands};
ghost use Rattle.njh_customer.specs.Orders.{customer_after_order, replies_to};
ghost use Rattle.njh_customer.specs.code.Coherence.{OrdersKeepCoherent};

use crate::customer_lines::CustomerLines;
use crate::given_order::GivenOrder;
use njh_command::{Originator, Replies, obey};
use njh_spool::Spool;
use njh_table::Tables;

impl CustomerLines {
    /// Does what is ordered for the customer of these lines. In `replies` are then the replies to a
    /// command, none after a message.
    pub(crate) fn order(
        &mut self,
        customer: u16,
        order: &GivenOrder,
        tables: &Tables,
        spool: &mut Spool,
        replies: &mut Replies,
    )
        requires known { customer < length tables.now.customers }
        requires spooled { customer < length spool.old }
        ensures after { customer_with (entry_of (customer_at tables.now customer)) (spool_at customer spool.new)
            self.new
            ≡ customer_after_order order.now
            (customer_with (entry_of (customer_at tables.now customer)) (spool_at customer spool.old) self.old) }
        ensures others { spool.new ≡ slice_set spool.old customer (spool_at customer spool.new) }
        ensures replies { replies.new ≡ replies_to order.now
            (customer_with (entry_of (customer_at tables.now customer)) (spool_at customer spool.old) self.old) }
    {
        match order {
            GivenOrder::Command(owner, text) => {
                let from = Originator {
                    who: *owner,
                    customer,
                };
                obey(text.bytes(), from, tables, spool, self, replies);
            }
            GivenOrder::Message(whom, text) => {
                let entry = tables.customer(customer);
                self.say(entry, whom.node, whom.user, text.bytes());
                replies.clear();
            }
        }
    }
}

/// A customer that is given an order stays coherent.
pub fn orders_keep_coherent()
    ensures { OrdersKeepCoherent }
{}

/// A command that is ordered leaves the files and the streams as the same command of that user that
/// comes on a line.
#[tactic(auto, using(crate::proofs::GivenOrders::do_as_commands))]
pub fn orders_do_as_commands()
    ensures { OrdersDoAsCommands }
{}
