//! What is ordered by a console, and on which terms.

ghost use Rattle.std.specs.Prelude.{◌≡◌};
ghost use Rattle.njh_ctl.specs.Orders.{ends_service};
ghost use Rattle.njh_ctl.specs.Questions.{order_method};

use njh_arguments::{Change, Owner};

/// What is ordered.
#[derive(Clone, Copy)]
pub enum Order<'a> {
    /// That a customer's files of a name are changed.
    Change(Change<'a>, Files<'a>),
    /// That a customer's user is told something.
    Tell(&'a str, Owner<'a>, &'a str),
    /// That a line's connection ends and none is let in; at once, or once no file is on its streams.
    Stop(&'a str, bool),
    /// That a line has connections again.
    Start(&'a str),
    /// That the service ends; at once, or once no file is on a stream.
    Shutdown(bool),
    /// That the table file is read, whatever its time.
    Reload,
    /// That the table file of this name is compared with what the hub has.
    Diff(&'a str),
}

/// A customer's files of a name.
#[derive(Clone, Copy)]
pub struct Files<'a> {
    /// The customer.
    pub customer: &'a str,
    /// The name.
    pub name: &'a str,
    /// Whose they are, if that is said.
    pub owner: Option<Owner<'a>>,
}

/// On which terms something is ordered.
#[derive(Clone, Copy)]
pub struct Terms<'a> {
    /// The name under which the hub remembers it.
    pub name: &'a str,
    /// The last second in which it may be carried out, since the beginning of 1970.
    pub until: u64,
    /// Who orders it.
    pub by: &'a str,
}

impl Order<'_> {
    /// The method of HTTP by which it is ordered.
    pub(crate) fn method(&self) -> &'static str
        ensures { result.now ≡ order_method self.now }
    {
        match self {
            Order::Change(_, _)
            | Order::Tell(_, _, _)
            | Order::Shutdown(_)
            | Order::Reload
            | Order::Diff(_) => "POST",
            Order::Stop(_, _) | Order::Start(_) => "PUT",
        }
    }

    /// Whether the service ends by it.
    pub(crate) fn ends_service(&self) -> bool
        ensures { result ≡ ends_service self.now }
    {
        match self {
            Order::Shutdown(_) => true,
            Order::Change(_, _)
            | Order::Tell(_, _, _)
            | Order::Stop(_, _)
            | Order::Start(_)
            | Order::Reload
            | Order::Diff(_) => false,
        }
    }
}

/// A customer's files of a name.
pub(crate) fn files_of<'a>(customer: &'a str, name: &'a str, owner: Option<Owner<'a>>) -> Files<'a>
    ensures customer { result.customer ≡ customer.entry }
    ensures name { result.name ≡ name.entry }
    ensures owner { result.owner ≡ owner.entry }
{
    Files {
        customer,
        name,
        owner,
    }
}
