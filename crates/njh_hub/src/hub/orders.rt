//! An order for a customer while the hub runs.

ghost use Rattle.std.specs.Prelude.{◌≡◌, ◌<◌, length, OnOk, OnErr};
ghost use Rattle.njh_customer.specs.Orders.{replies_to};
ghost use Rattle.njh_hub.specs.Steps.{IsOrdered};
ghost use Rattle.njh_hub.specs.WholeHub.{part, refusal_of};

use crate::fault::HubFault;
use crate::hub::Hub;
use njh_command::Replies;
use njh_customer::GivenOrder;

impl Hub {
    /// Does what is ordered for a customer. In `replies` are then the replies to a command, in the
    /// place of what it held; none after a message, which waits on the line that its node goes by.
    /// No frame goes out, no memory is taken, and nothing else changes.
    ///
    /// `UnknownCustomer` comes where the hub has no such customer; then `NoRoute` for a message to
    /// a node that goes by no line, and `QueueFull` if 64 messages wait on the line that it goes by.
    /// After each nothing has changed.
    pub fn order(
        &mut self,
        customer: u16,
        order: &GivenOrder,
        replies: &mut Replies,
    ) -> Result<(), HubFault>
        ensures step { IsOrdered self.old customer order.now result self.new }
        ensures replies { OnOk result (replies.new ≡ replies_to order.now (part customer self.old).customer) }
        ensures err { OnErr result (replies.new ≡ replies.old) }
    {
        if usize::from(customer) >= self.lines.len() {
            return Err(HubFault::UnknownCustomer);
        }
        if let Some(fault) = self.refusal_of(customer, order) {
            return Err(fault);
        }
        let lines = &mut self.lines[usize::from(customer)];
        lines.order(
            customer,
            order,
            &self.shared.tables,
            &mut self.shared.spool,
            replies,
        );
        Ok(())
    }

    /// The same, where nobody asks for the replies.
    pub(crate) fn order_only(&mut self, customer: u16, order: &GivenOrder) -> Result<(), HubFault>
        ensures { IsOrdered self.old customer order.now result self.new }
    {
        let mut replies = Replies::new();
        self.order(customer, order, &mut replies)
    }

    /// Why an order for a customer that is there is refused, if it is.
    fn refusal_of(&self, customer: u16, order: &GivenOrder) -> Option<HubFault>
        requires { customer < length self.now }
        ensures { result ≡ refusal_of order.now (part customer self.now) }
    {
        if !order.has_way(customer, &self.shared.tables) {
            return Some(HubFault::NoRoute);
        }
        let lines = &self.lines[usize::from(customer)];
        if !lines.has_room(customer, order, &self.shared.tables) {
            return Some(HubFault::QueueFull);
        }
        None
    }
}
