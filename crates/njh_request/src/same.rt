//! Whether two orders are the same.

ghost use Rattle.std.specs.Prelude.{◌≡◌};
ghost use Rattle.njh_request.specs.Same.{are_same_terms, is_same_giver, is_same_line, is_same_moment, is_same_name};
ghost use Rattle.njh_request.specs.Same.{is_same_order, is_same_owner, is_same_until, is_same_user, is_same_wish};

use crate::order::Order;
use crate::order_name::OrderName;
use crate::quote::Quote;
use crate::request::{EndMoment, LineWish};
use crate::terms::Terms;
use njh_header::User;
use njh_table::LineId;

/// Whether the same is ordered.
pub fn is_same_order(order: &Order, other: &Order) -> bool
    ensures { result ≡ is_same_order order.now other.now }
{
    match (order, other) {
        (Order::Command(customer, owner, text), Order::Command(second, other, words)) => {
            *customer == *second && is_same_owner(*owner, *other) && text.bytes() == words.bytes()
        }
        (Order::Message(customer, whom, text), Order::Message(second, other, words)) => {
            *customer == *second && is_same_user(*whom, *other) && text.bytes() == words.bytes()
        }
        (Order::Line(line, wish), Order::Line(second, other)) => {
            is_same_line(*line, *second) && is_same_wish(*wish, *other)
        }
        (Order::Stop(moment), Order::Stop(other)) => is_same_moment(*moment, *other),
        (Order::Reload, Order::Reload) => true,
        (Order::Diff(path), Order::Diff(other)) => path.text() == other.text(),
        (_, _) => false,
    }
}

/// Whether it is ordered on the same terms.
pub fn are_same_terms(terms: &Terms, other: &Terms) -> bool
    ensures { result ≡ are_same_terms terms.now other.now }
{
    is_same_name(terms.name, other.name)
        && is_same_until(terms.until, other.until)
        && is_same_giver(terms.by, other.by)
}

fn is_same_name(name: Option<OrderName>, other: Option<OrderName>) -> bool
    ensures { result ≡ is_same_name name other }
{
    match (name, other) {
        (None, None) => true,
        (Some(name), Some(other)) => name == other,
        (_, _) => false,
    }
}

fn is_same_until(until: Option<u64>, other: Option<u64>) -> bool
    ensures { result ≡ is_same_until until other }
{
    match (until, other) {
        (None, None) => true,
        (Some(until), Some(other)) => until == other,
        (_, _) => false,
    }
}

fn is_same_giver(by: Option<Quote>, other: Option<Quote>) -> bool
    ensures { result ≡ is_same_giver by other }
{
    match (by, other) {
        (None, None) => true,
        (Some(by), Some(other)) => by == other,
        (_, _) => false,
    }
}

fn is_same_owner(owner: Option<User>, other: Option<User>) -> bool
    ensures { result ≡ is_same_owner owner other }
{
    match (owner, other) {
        (None, None) => true,
        (Some(owner), Some(other)) => is_same_user(owner, other),
        (_, _) => false,
    }
}

fn is_same_user(user: User, other: User) -> bool
    ensures { result ≡ is_same_user user other }
{
    user.node == other.node && user.user == other.user
}

fn is_same_line(line: LineId, other: LineId) -> bool
    ensures { result ≡ is_same_line line other }
{
    line.customer == other.customer && line.number == other.number
}

fn is_same_wish(wish: LineWish, other: LineWish) -> bool
    ensures { result ≡ is_same_wish wish other }
{
    match (wish, other) {
        (LineWish::Started, LineWish::Started) => true,
        (LineWish::Stopped(moment), LineWish::Stopped(other)) => is_same_moment(moment, other),
        (_, _) => false,
    }
}

fn is_same_moment(moment: EndMoment, other: EndMoment) -> bool
    ensures { result ≡ is_same_moment moment other }
{
    match (moment, other) {
        (EndMoment::AtOnce, EndMoment::AtOnce) => true,
        (EndMoment::WhenIdle, EndMoment::WhenIdle) => true,
        (_, _) => false,
    }
}
