//! What is asked of a console at once.

ghost use Rattle.std.specs.Prelude.{◌≡◌};
ghost use Rattle.njh_ctl.specs.Questions.{method_of};

use crate::order::{Order, Terms};

/// What is asked of a console at once.
#[derive(Clone, Copy)]
pub enum Question<'a> {
    /// How the hub is.
    Status,
    /// The customers, from a place on.
    Customers(u64),
    /// A customer's lines, from a place on.
    Lines(&'a str, u64),
    /// A customer's files, from a place on.
    Files(&'a str, u64),
    /// What came of the order of a name or a number.
    Outcome(&'a str),
    /// That this is done, on these terms.
    Order(Order<'a>, Terms<'a>),
}

impl Question<'_> {
    /// The method of HTTP by which it is asked.
    pub(crate) fn method(&self) -> &'static str
        ensures { result.now ≡ method_of self.now }
    {
        match self {
            Question::Status
            | Question::Customers(_)
            | Question::Lines(_, _)
            | Question::Files(_, _)
            | Question::Outcome(_) => "GET",
            Question::Order(order, _) => order.method(),
        }
    }
}
