//! Where in a table file a fault is.

ghost use Rattle.std.specs.Prelude.{◌≡◌};
ghost use Rattle.njh_table.specs.Places.{at_part, at_value, key_name};
ghost use Rattle.njh_table.specs.declared.fault.TableFault.TheVariants.{Memory};

use crate::fault::TableFault;
use std::alloc::{AllocError, AllocFailed};

/// A part of a table file, by its numbers, which start at 0 and are in the file's order.
#[derive(Clone, Copy, Debug, PartialEq, Eq)]
pub enum Part {
    /// The file, outside its customers.
    File,
    /// A customer, outside its lines and routes.
    Customer(usize),
    /// A line: its customer's number, and its own within it.
    Line(usize, usize),
    /// A route: its customer's number, and its own within it.
    Route(usize, usize),
}

/// A key of a table file that has a meaning.
#[derive(Clone, Copy, Debug, PartialEq, Eq)]
pub enum Key {
    /// `capacity`, of the file.
    Capacity,
    /// `customer`, of the file.
    Customer,
    /// `name`, of a customer or a line.
    Name,
    /// `hub`, of a customer.
    Hub,
    /// `quota`, of a customer.
    Quota,
    /// `files`, of a customer.
    Files,
    /// `line`, of a customer or a route.
    Line,
    /// `route`, of a customer.
    Route,
    /// `node`, of a line or a route.
    Node,
    /// `role`, of a line.
    Role,
    /// `block`, of a line.
    Block,
    /// `streams`, of a line.
    Streams,
    /// `password`, of a line.
    Password,
    /// `port`, of a line.
    Port,
    /// `connect`, of a line.
    Connect,
    /// `from`, of a line.
    From,
    /// `protocol`, of a line.
    Protocol,
    /// `second`, of a route.
    Second,
}

impl Key {
    /// The key as a table file writes it.
    pub fn name(self) -> &'static str
        ensures { result.now ≡ key_name self }
    {
        match self {
            Key::Capacity => "capacity",
            Key::Customer => "customer",
            Key::Name => "name",
            Key::Hub => "hub",
            Key::Quota => "quota",
            Key::Files => "files",
            Key::Line => "line",
            Key::Route => "route",
            Key::Node => "node",
            Key::Role => "role",
            Key::Block => "block",
            Key::Streams => "streams",
            Key::Password => "password",
            Key::Port => "port",
            Key::Connect => "connect",
            Key::From => "from",
            Key::Protocol => "protocol",
            Key::Second => "second",
        }
    }
}

/// The first fault of a table file, and where it is. Want of memory has no place: its part is the
/// file.
#[derive(Clone, Copy, Debug, PartialEq, Eq)]
pub struct PlacedFault {
    /// The fault.
    pub fault: TableFault,
    /// The part of the file that has it.
    pub part: Part,
    /// The key that is missing, or whose value it is; none where it is no key's.
    pub key: Option<Key>,
}

impl Part {
    /// A fault of this part as a whole.
    pub(crate) fn fault(self, fault: TableFault) -> PlacedFault
        ensures { result ≡ at_part self fault }
    {
        PlacedFault {
            fault,
            part: self,
            key: None,
        }
    }

    /// A fault at a key of this part.
    pub(crate) fn fault_at(self, key: Key, fault: TableFault) -> PlacedFault
        ensures { result ≡ at_value self key fault }
    {
        PlacedFault {
            fault,
            part: self,
            key: Some(key),
        }
    }
}

impl From<AllocError> for PlacedFault {
    ghost from_gives = { λ _ placed. placed.fault ≡ Memory };

    fn from(_refused: AllocError) -> PlacedFault {
        Part::File.fault(TableFault::Memory)
    }
}

impl<T: Drop> From<AllocFailed<T>> for PlacedFault {
    ghost from_gives = { λ _ placed. placed.fault ≡ Memory };

    fn from(_refused: AllocFailed<T>) -> PlacedFault {
        Part::File.fault(TableFault::Memory)
    }
}
