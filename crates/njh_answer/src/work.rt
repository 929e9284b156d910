//! What is done for an order.

ghost use Rattle.std.specs.Prelude.{◌≡◌, IfOk};
ghost use Rattle.njh_answer.specs.Tickets.{command_work, work_for};

use crate::owners::owner_for;
use njh_customer::{GivenOrder, OrderText};
use njh_header::User;
use njh_hub::Hub;
use njh_request::{EndMoment, LineWish, Order, RequestRefusal};
use njh_table::LineId;
use std::alloc::{AllocError, Global};

/// What is done for an order.
#[derive(Drop)]
pub enum Work {
    /// The hub is given this, for a customer.
    Customer(u16, GivenOrder),
    /// A line is to be so.
    Line(LineId, LineWish),
    /// The service is to end.
    Stop(EndMoment),
    /// The table file is to be read, or compared, as the order says.
    Tables,
}

/// What is done for an order; or why nothing can be. Out of memory is the only failure.
pub(crate) fn work_for(
    alloc: Global,
    hub: &Hub,
    order: &Order,
) -> Result<Result<Work, RequestRefusal>, AllocError>
    ensures { IfOk result (λ work. work ≡ work_for hub.now order.now) }
{
    match order {
        Order::Command(customer, owner, text) => {
            let owner = owner_for(hub, *customer, *owner, text);
            command_work(alloc, *customer, text, owner)
        }
        Order::Message(customer, whom, text) => {
            let text = text_of(alloc, text)?;
            Ok(Ok(Work::Customer(*customer, GivenOrder::Message(*whom, text))))
        }
        Order::Line(line, wish) => Ok(Ok(Work::Line(*line, *wish))),
        Order::Stop(moment) => Ok(Ok(Work::Stop(*moment))),
        Order::Reload | Order::Diff(_) => Ok(Ok(Work::Tables)),
    }
}

/// What is done for a command of this owner's.
fn command_work(
    alloc: Global,
    customer: u16,
    text: &OrderText,
    owner: Result<User, RequestRefusal>,
) -> Result<Result<Work, RequestRefusal>, AllocError>
    ensures { IfOk result (λ work. work ≡ command_work customer text.now owner) }
{
    match owner {
        Ok(owner) => {
            let text = text_of(alloc, text)?;
            Ok(Ok(Work::Customer(customer, GivenOrder::Command(owner, text))))
        }
        Err(why) => Ok(Err(why)),
    }
}

/// A copy of the text of an order, which the hub is given. Out of memory is the only refusal.
fn text_of(alloc: Global, text: &OrderText) -> Result<OrderText, AllocError>
    ensures { IfOk result (λ copy. copy ≡ text.now) }
{
    OrderText::of(alloc, text.bytes())
}
