//! The tables of two customers, whose networks have the same names.

use njh_table::LineId;
use std::alloc::{AllocError, Global};

/// Both customers' hub is BUREAU, and both have LYON and METZ. Lines of ACME alone lead to NICE and
/// to nowhere.
const TABLES: &str = r#"
capacity = 4000
[[customer]]
name = "ACME"
hub = "BUREAU"
quota = 2000
files = 16
line = [
  { name = "a1", node = "LYON", role = "answer", block = 1024, streams = 4 },
  { name = "a2", node = "METZ", role = "answer", block = 1024, streams = 4 },
  { name = "a3", node = "NICE", role = "answer", block = 1024, streams = 4 },
]
route = [
  { node = "LYON", line = "a1" },
  { node = "METZ", line = "a2" },
  { node = "NICE", line = "a3" },
]
[[customer]]
name = "BOLT"
hub = "BUREAU"
quota = 2000
files = 16
line = [
  { name = "b1", node = "LYON", role = "answer", block = 1024, streams = 4 },
  { name = "b2", node = "METZ", role = "answer", block = 1024, streams = 4 },
]
route = [{ node = "LYON", line = "b1" }, { node = "METZ", line = "b2" }]
"#;

/// The line of the tables for the route to NICE.
const ROUTE_TO_NICE: &str = "  { node = \"NICE\", line = \"a3\" },\n";

/// The tables, with a route to NICE or without.
pub(crate) fn tables(alloc: Global, has_nice: bool) -> Result<String, AllocError> {
    let (before, behind) = TABLES.split_once(ROUTE_TO_NICE).unwrap_or((TABLES, ""));
    let mut text = String::new(alloc);
    text.push_str(before)?;
    if has_nice {
        text.push_str(ROUTE_TO_NICE)?;
    }
    text.push_str(behind)?;
    Ok(text)
}

/// The line of the tables for ACME's room.
const ROOM: &str = "quota = 2000\n";

/// The tables, in which ACME has room for one block.
pub(crate) fn with_little_room(alloc: Global) -> Result<String, AllocError> {
    let (before, behind) = TABLES.split_once(ROOM).unwrap_or((TABLES, ""));
    let mut text = String::new(alloc);
    text.push_str(before)?;
    text.push_str("quota = 1\n")?;
    text.push_str(behind)?;
    Ok(text)
}

/// The customers' numbers.
pub const CUSTOMERS: [u16; 2] = [0, 1];

/// The line of a name.
pub(crate) fn line_of(name: &str) -> Option<LineId> {
    let (customer, number) = match name {
        "a1" => (0, 0),
        "a2" => (0, 1),
        "a3" => (0, 2),
        "b1" => (1, 0),
        "b2" => (1, 1),
        _ => return None,
    };
    Some(LineId { customer, number })
}

/// The number of the customer of a name.
pub(crate) fn customer_of(name: &str) -> Option<u16> {
    match name {
        "ACME" => Some(0),
        "BOLT" => Some(1),
        _ => None,
    }
}
