//! What differs between two tables, their routes aside and the addresses from which peers connect.

ghost use Rattle.std.specs.Prelude.{◌≡◌, None, length, map};
ghost use Rattle.njh_revision.specs.Revisions.{what_stays, without_routes};

use arrayvec::ArrayString;
use njh_ebcdic::Name;
use njh_table::{NamedCustomer, NamedLine, Tables};
use std::fmt;

/// How many bytes the name of a line has at most.
const NAME: usize = 8;

/// What differs first between two tables, from the left: the routes aside.
#[derive(Clone, Copy, Drop)]
pub enum Difference {
    /// How many blocks the spool has.
    Capacity,
    /// How many customers there are.
    Customers,
    /// Something of a customer of this name.
    Customer(Name, CustomerKey),
    /// Something of a line of this name, of a customer of this name.
    Line(Name, ArrayString<NAME>, LineKey),
}

/// What a customer's entry says, but for its routes.
#[derive(Clone, Copy, Debug, Drop, PartialEq, Eq)]
pub enum CustomerKey {
    /// Its name.
    Name,
    /// The name that the hub has in its network.
    Hub,
    /// How many blocks it may use.
    Quota,
    /// How many files it may have.
    Files,
    /// How many lines it has.
    Lines,
}

/// What a line's entry says.
#[derive(Clone, Copy, Debug, Drop, PartialEq, Eq)]
pub enum LineKey {
    /// Its name.
    Name,
    /// The node at its other end.
    Node,
    /// Which end makes contact.
    Role,
    /// The greatest size of a block's text.
    Block,
    /// How many streams of each kind it has.
    Streams,
    /// The password of a sign-on.
    Password,
    /// The port on which its peer connects.
    Port,
    /// Where the hub connects to.
    Connect,
    /// How its bytes are written on its connections.
    Protocol,
}

/// What differs first between these tables and others that concerns all customers.
pub(crate) fn size_difference(tables: &Tables, other: &Tables) -> Option<Difference>
    ensures { result ≡ None → (other.now.capacity ≡ tables.now.capacity)
        × (length other.now.customers ≡ length tables.now.customers) }
{
    if other.capacity() != tables.capacity() {
        return Some(Difference::Capacity);
    }
    if other.customers().len() != tables.customers().len() {
        return Some(Difference::Customers);
    }
    None
}

/// What differs first between as many customers, from the left.
pub(crate) fn customers_difference(
    customers: &[NamedCustomer],
    others: &[NamedCustomer],
) -> Option<Difference>
    ensures { result ≡ None → map without_routes others.now ≡ map without_routes customers.now }
{
    if others.len() != customers.len() {
        return Some(Difference::Customers);
    }
    for place in 0..customers.len() {
        match customer_difference(&customers[place], &others[place]) {
            Some(difference) => return Some(difference),
            None => {}
        }
    }
    None
}

/// What differs first between two customers.
pub(crate) fn customer_difference(
    customer: &NamedCustomer,
    other: &NamedCustomer,
) -> Option<Difference>
    ensures { result ≡ None → without_routes other.now ≡ without_routes customer.now }
{
    match customer_key(customer, other) {
        Some(key) => Some(Difference::Customer(customer.name(), key)),
        None => of_lines(customer.name(), customer.lines(), other.lines()),
    }
}

/// What of two customers' own keys differs first.
pub(crate) fn customer_key(customer: &NamedCustomer, other: &NamedCustomer) -> Option<CustomerKey>
    ensures { result ≡ None → (other.now.name ≡ customer.now.name) × (other.now.hub ≡ customer.now.hub)
        × (other.now.quota ≡ customer.now.quota) × (other.now.files ≡ customer.now.files)
        × (length other.now.lines ≡ length customer.now.lines) }
{
    if other.name() != customer.name() {
        return Some(CustomerKey::Name);
    }
    if other.hub() != customer.hub() {
        return Some(CustomerKey::Hub);
    }
    if other.quota() != customer.quota() {
        return Some(CustomerKey::Quota);
    }
    if other.files() != customer.files() {
        return Some(CustomerKey::Files);
    }
    if other.lines().len() != customer.lines().len() {
        return Some(CustomerKey::Lines);
    }
    None
}

/// What differs first between as many lines of two customers.
fn of_lines(customer: Name, lines: &[NamedLine], others: &[NamedLine]) -> Option<Difference>
    requires { length others.now ≡ length lines.now }
    ensures { result ≡ None → map what_stays others.now ≡ map what_stays lines.now }
{
    for place in 0..lines.len() {
        match line_key(&lines[place], &others[place]) {
            Some(key) => return Some(of_line(customer, &lines[place], key)),
            None => {}
        }
    }
    None
}

/// What of a line differs.
pub(crate) fn of_line(customer: Name, line: &NamedLine, key: LineKey) -> Difference {
    let mut name = ArrayString::new();
    let _whole = name.try_push_str(line.name()).is_ok();
    Difference::Line(customer, name, key)
}

/// What of two lines differs first, the addresses from which their peers may connect aside.
pub(crate) fn line_key(line: &NamedLine, other: &NamedLine) -> Option<LineKey>
    ensures { result ≡ None → what_stays other.now ≡ what_stays line.now }
{
    if other.name() != line.name() {
        return Some(LineKey::Name);
    }
    if other.port() != line.port() {
        return Some(LineKey::Port);
    }
    if other.peer() != line.peer() {
        return Some(LineKey::Connect);
    }
    if other.protocol() != line.protocol() {
        return Some(LineKey::Protocol);
    }
    entry_key(line, other)
}

/// What of two lines' entries differs first.
fn entry_key(line: &NamedLine, other: &NamedLine) -> Option<LineKey>
    ensures { result ≡ None → other.now.entry ≡ line.now.entry }
{
    if other.node() != line.node() {
        return Some(LineKey::Node);
    }
    if other.role() != line.role() {
        return Some(LineKey::Role);
    }
    if other.block() != line.block() {
        return Some(LineKey::Block);
    }
    if other.streams() != line.streams() {
        return Some(LineKey::Streams);
    }
    if other.password() != line.password() {
        return Some(LineKey::Password);
    }
    None
}

impl fmt::Display for Difference {
    fn fmt<W: fmt::Write>(&self, f: &mut fmt::Formatter<W>) -> fmt::Result {
        match self {
            Difference::Capacity => write!(f, "the capacity differs"),
            Difference::Customers => write!(f, "the number of customers differs"),
            Difference::Customer(name, key) => write!(f, "customer {name}: its {key} differs"),
            Difference::Line(name, line, key) => {
                write!(f, "customer {name}: the {key} of line {line} differs")
            }
        }
    }
}

impl fmt::Display for CustomerKey {
    fn fmt<W: fmt::Write>(&self, f: &mut fmt::Formatter<W>) -> fmt::Result {
        f.write_str(match self {
            CustomerKey::Name => "name",
            CustomerKey::Hub => "hub",
            CustomerKey::Quota => "quota",
            CustomerKey::Files => "number of files",
            CustomerKey::Lines => "number of lines",
        })
    }
}

impl fmt::Display for LineKey {
    fn fmt<W: fmt::Write>(&self, f: &mut fmt::Formatter<W>) -> fmt::Result {
        f.write_str(match self {
            LineKey::Name => "name",
            LineKey::Node => "node",
            LineKey::Role => "role",
            LineKey::Block => "block",
            LineKey::Streams => "streams",
            LineKey::Password => "password",
            LineKey::Port => "port",
            LineKey::Connect => "connect",
            LineKey::Protocol => "protocol",
        })
    }
}
