//! The walk over a customer's lines.

ghost use Rattle.std.specs.Prelude.{◌≡◌, ◌≤◌, ◌++◌, [], ◌∷◌, length, IfOk};
ghost use Rattle.toml.specs.View.{view, items_view, table_view};
ghost use Rattle.njh_table.specs.declared.places.Part.TheVariants as parts;
ghost use Rattle.njh_table.specs.TableFile.{names_in, line_owners};
ghost use Rattle.njh_table.specs.Walk.{Walks, walked_line, next_line, lines_onto};

use crate::LineId;
use crate::fault::TableFault;
use crate::keys::{
    from_at, keys_in, line_name_at, may_be_tcp, name_at, number_at, number_or_zero_at, password_at,
    peer_at, protocol_at, role_at,
};
use crate::limits::{MAX_BLOCK, MAX_LINES, MAX_PORT, MAX_STREAMS, MIN_BLOCK};
use crate::line::NamedLine;
use crate::owners::Owners;
use crate::places::{Key, Part, PlacedFault};
use std::alloc::Global;
use toml::{Table, Value};

/// The line of a name, by its other keys; the part is the line's.
#[tactic(auto, unfolding(crate::specs::Walk::walked_line))]
fn line_of(alloc: Global, part: Part, name: &str, keys: &Table) -> Result<NamedLine, PlacedFault>
    ensures walk { Walks (λ l. l) result (walked_line part name.now (table_view keys.now)) }
    ensures name { IfOk result (λ l. l.name ≡ name.now) }
{
    let node = name_at(keys, part, Key::Node)?;
    let role = role_at(keys, part, Key::Role)?;
    let block = number_at(keys, part, Key::Block, MIN_BLOCK, MAX_BLOCK)? as u16;
    let streams = number_at(keys, part, Key::Streams, 1, MAX_STREAMS)? as u8;
    let password = password_at(keys, part, Key::Password)?;
    let port = number_or_zero_at(keys, part, Key::Port, MAX_PORT)? as u16;
    let peer = peer_at(keys, part, Key::Connect, port)?;
    let from = from_at(keys, part, Key::From, port)?;
    let protocol = protocol_at(keys, part, Key::Protocol, may_be_tcp(role, port, peer))?;
    Ok(NamedLine {
        name: String::from_str(alloc, name)?,
        node,
        role,
        block,
        streams,
        password,
        port,
        peer,
        from,
        protocol,
        up: false,
    })
}

/// The next line of a customer, by its number, whose name becomes one of the hub's.
#[tactic(auto, unfolding(crate::specs::Walk::next_line))]
fn next_line(
    alloc: Global,
    value: &Value,
    customer: u16,
    number: usize,
    owners: &mut Owners,
) -> Result<NamedLine, PlacedFault>
    requires { number ≤ length (names_in owners.old) }
    ensures walk { Walks (λ l. l) result
        (next_line (parts.Line customer number) (names_in owners.old) (view value.now)) }
    ensures owners { IfOk result (λ l. owners.new
        ≡ owners.old ++ (l.name, record { customer = customer; number = number }) ∷ []) }
{
    let part = Part::Line(customer as usize, number);
    if owners.len() >= MAX_LINES {
        return Err(part.fault(TableFault::TooMany));
    }
    let keys = keys_in(value, part)?;
    let name = line_name_at(keys, part, Key::Name)?;
    if owners.contains(name) {
        return Err(part.fault_at(Key::Name, TableFault::DoubleLine));
    }
    let line = line_of(alloc, part, name, keys)?;
    let id = LineId {
        customer,
        number: number as u16,
    };
    owners.insert(alloc, name, id)?;
    Ok(line)
}

pub(super) fn lines_in(
    alloc: Global,
    values: &[Value],
    customer: u16,
    owners: &mut Owners,
) -> Result<Vec<NamedLine>, PlacedFault>
    ensures walk { Walks (λ v. v.items) result (lines_onto customer (names_in owners.old) [] (items_view values.now)) }
    ensures owners { IfOk result (λ v. owners.new ≡ owners.old ++ line_owners customer 0 v.items) }
{
    let mut lines = Vec::new(alloc);
    for value in values {
        let line = next_line(alloc, value, customer, lines.len(), owners)?;
        lines.push(line)?;
    }
    Ok(lines)
}
