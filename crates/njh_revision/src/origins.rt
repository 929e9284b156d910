//! From where the peers of lines may connect, by tables that were read.

ghost use Rattle.std.specs.Prelude.{◌≡◌, option_map};
ghost use Rattle.njh_revision.specs.Origins.{from_read, is_same, line_at};

use njh_table::{AddressRanges, LineId, NamedCustomer, NamedLine, Tables};

/// From where the peer of a line may connect, by tables that were read: as they say of the line of
/// its name, if that is this line.
pub(crate) fn from_read<'a>(
    opened: &Tables,
    read: &'a Tables,
    id: LineId,
) -> Option<&'a AddressRanges>
    ensures { option_map (λ from. from.now) result ≡ from_read opened.now read.now id }
{
    let (customer, line) = line_at(opened, id)?;
    let found = read.line_owner(line.name())?;
    let (other_customer, other) = line_at(read, found)?;
    if is_same(customer, line, other_customer, other) {
        Some(other.from())
    } else {
        None
    }
}

/// A line of tables with its customer, if there is one of this number.
fn line_at(tables: &Tables, id: LineId) -> Option<(&NamedCustomer, &NamedLine)>
    ensures { option_map (λ found. (found.0.now, found.1.now)) result ≡ line_at tables.now id }
{
    let customer = tables.customers().get(usize::from(id.customer))?;
    let line = customer.lines().get(usize::from(id.number))?;
    Some((customer, line))
}

/// Whether a line of other tables is this one: its customer has the same name, and it listens on the
/// same port.
fn is_same(
    customer: &NamedCustomer,
    line: &NamedLine,
    other_customer: &NamedCustomer,
    other: &NamedLine,
) -> bool
    ensures { result ≡ is_same (customer.now, line.now) (other_customer.now, other.now) }
{
    other_customer.name() == customer.name() && other.port() == line.port()
}
