//! The values of a table's keys. A key that must be there and isn't is `MissingKey`; a value of
//! another type or out of range is `BadValue`. Each fault has its place: the part of the file whose
//! keys they are, and the key.

ghost use Rattle.std.specs.Prelude.{◌≡◌, ◌≤◌, [], Some, None, IfOk, ok_or, option_map};
ghost use Rattle.std.specs.List.{list_all};
ghost use Rattle.std.specs.Result.{result_map_both};
ghost use Rattle.toml.specs.Data.{get_member, as_str, as_array, as_table, no_items};
ghost use Rattle.toml.specs.View.{view, table_view, items_view};
ghost use Rattle.njh_table.specs.Addresses.{address_of};
ghost use Rattle.njh_table.specs.declared.Protocol.TheVariants.{Bisync};
ghost use Rattle.njh_table.specs.Keys.{keys_in, at_key, at_key_or, from, number, node_name, role, password, peer};
ghost use Rattle.njh_table.specs.Keys.{line_name, second_line, is_line_name, is_letter_or_digit, may_be_tcp, protocol};
ghost use Rattle.njh_table.specs.Places.{at_value, key_name};
ghost use Rattle.njh_table.specs.TableFile.{password_bytes};

use crate::address_ranges::AddressRanges;
use crate::fault::TableFault;
use crate::limits::MAX_LINE_NAME;
use crate::places::{Key, Part, PlacedFault};
use crate::range_text::from_in;
use crate::{Protocol, Role};
use njh_ebcdic::Name;
use std::net::SocketAddr;
use toml::{Table, Value};

/// The keys of an element of a list.
pub fn keys_in(value: &Value, part: Part) -> Result<&Table, PlacedFault>
    ensures { result_map_both (λ t. table_view t.now) (λ f. f) result ≡ keys_in part (view value.now) }
{
    match value.as_table() {
        Some(keys) => Ok(keys),
        None => Err(part.fault(TableFault::BadValue)),
    }
}

fn find(keys: &Table, key: Key) -> Option<&Value>
    ensures { option_map (λ v. view v.now) result ≡ get_member (key_name key) (table_view keys.now) }
{
    keys.get(key.name())
}

/// The value of a key that must be there.
fn value_at(keys: &Table, part: Part, key: Key) -> Result<&Value, PlacedFault>
    ensures { result_map_both (λ v. view v.now) (λ f. f) result
        ≡ ok_or (get_member (key_name key) (table_view keys.now)) (at_value part key TableFault.MissingKey) }
{
    match find(keys, key) {
        Some(value) => Ok(value),
        None => Err(part.fault_at(key, TableFault::MissingKey)),
    }
}

fn number_in(value: &Value, low: u32, high: u32) -> Option<u32>
    ensures read { result ≡ number low high (view value.now) }
{
    let number = u32::try_from(value.as_integer()?).ok()?;
    (low <= number && number <= high).then_some(number)
}

/// A whole number between two, both among them.
pub fn number_at(
    keys: &Table,
    part: Part,
    key: Key,
    low: u32,
    high: u32,
) -> Result<u32, PlacedFault>
    ensures read { result ≡ at_key (number low high) part key (table_view keys.now) }
    ensures low { IfOk result (λ n. low ≤ n) }
    ensures high { IfOk result (λ n. n ≤ high) }
{
    match number_in(value_at(keys, part, key)?, low, high) {
        Some(number) => Ok(number),
        None => Err(part.fault_at(key, TableFault::BadValue)),
    }
}

/// A name of a node or a hub.
pub fn name_at(keys: &Table, part: Part, key: Key) -> Result<Name, PlacedFault>
    ensures { result ≡ at_key node_name part key (table_view keys.now) }
{
    let text = text_at(keys, part, key)?;
    match Name::of_text(text) {
        Ok(name) => Ok(name),
        Err(_) => Err(part.fault_at(key, TableFault::BadValue)),
    }
}

/// Any text.
pub fn text_at(keys: &Table, part: Part, key: Key) -> Result<&str, PlacedFault>
    ensures { result_map_both (λ t. t.now) (λ f. f) result ≡ at_key as_str part key (table_view keys.now) }
{
    match value_at(keys, part, key)?.as_str() {
        Some(text) => Ok(text),
        None => Err(part.fault_at(key, TableFault::BadValue)),
    }
}

/// A line's name: 1 to 8 letters and digits of ASCII.
pub fn line_name_at(keys: &Table, part: Part, key: Key) -> Result<&str, PlacedFault>
    ensures { result_map_both (λ t. t.now) (λ f. f) result ≡ at_key line_name part key (table_view keys.now) }
{
    let name = text_at(keys, part, key)?;
    if is_line_name(name.as_bytes()) {
        Ok(name)
    } else {
        Err(part.fault_at(key, TableFault::BadValue))
    }
}

fn is_line_name(name: &[u8]) -> bool
    ensures { result ≡ is_line_name name.now }
{
    1 <= name.len() && name.len() <= MAX_LINE_NAME && are_letters_or_digits(name)
}

fn are_letters_or_digits(text: &[u8]) -> bool
    ensures { result ≡ list_all is_letter_or_digit text.now }
{
    text.iter().all(|c| is_letter_or_digit(*c))
}

fn is_letter_or_digit(c: u8) -> bool
    ensures { result ≡ is_letter_or_digit c }
{
    matches!(c, b'0'..=b'9' | b'A'..=b'Z' | b'a'..=b'z')
}

/// Which end of a line makes contact: `call` or `answer`.
pub fn role_at(keys: &Table, part: Part, key: Key) -> Result<Role, PlacedFault>
    ensures { result ≡ at_key role part key (table_view keys.now) }
{
    match text_at(keys, part, key)? {
        "call" => Ok(Role::Call),
        "answer" => Ok(Role::Answer),
        _ => Err(part.fault_at(key, TableFault::BadValue)),
    }
}

/// A password, which may be missing or empty.
pub fn password_at(keys: &Table, part: Part, key: Key) -> Result<Option<Name>, PlacedFault>
    ensures { result_map_both password_bytes (λ f. f) result ≡ at_key_or password [] part key (table_view keys.now) }
{
    let Some(value) = find(keys, key) else {
        return Ok(None);
    };
    match value.as_str() {
        None => Err(part.fault_at(key, TableFault::BadValue)),
        Some("") => Ok(None),
        Some(text) => match Name::of_text(text) {
            Ok(name) => Ok(Some(name)),
            Err(_) => Err(part.fault_at(key, TableFault::BadValue)),
        },
    }
}

/// The name of a route's second line, which may be missing: any text but the name of the first.
pub fn second_at<'a>(
    keys: &'a Table,
    part: Part,
    key: Key,
    first: &str,
) -> Result<Option<&'a str>, PlacedFault>
    ensures { result_map_both (option_map (λ t. t.now)) (λ f. f) result
        ≡ at_key_or (second_line first.now) None part key (table_view keys.now) }
{
    let Some(value) = find(keys, key) else {
        return Ok(None);
    };
    match value.as_str() {
        None => Err(part.fault_at(key, TableFault::BadValue)),
        Some(text) if text == first => Err(part.fault_at(key, TableFault::BadValue)),
        Some(text) => Ok(Some(text)),
    }
}

/// A whole number of at most `high`, which is 0 where the key is missing.
pub fn number_or_zero_at(keys: &Table, part: Part, key: Key, high: u32) -> Result<u32, PlacedFault>
    ensures read { result ≡ at_key_or (number 0 high) 0 part key (table_view keys.now) }
    ensures high { IfOk result (λ n. n ≤ high) }
{
    match find(keys, key) {
        None => Ok(0),
        Some(value) => match number_in(value, 0, high) {
            Some(number) => Ok(number),
            None => Err(part.fault_at(key, TableFault::BadValue)),
        },
    }
}

fn address_of(text: &str) -> Option<SocketAddr>
    ensures { result ≡ address_of text.now }
{
    SocketAddr::parse_ascii(text.as_bytes()).ok()
}

fn peer_in(value: &Value, port: u16) -> Option<SocketAddr>
    ensures { option_map Some result ≡ peer port (view value.now) }
{
    let address = address_of(value.as_str()?)?;
    (port == 0 && address.port() != 0).then_some(address)
}

/// The address at which the peer of a line with this port listens, which may be missing: where
/// there is one, the line's port is 0 and that of the address isn't.
pub fn peer_at(
    keys: &Table,
    part: Part,
    key: Key,
    port: u16,
) -> Result<Option<SocketAddr>, PlacedFault>
    ensures { result ≡ at_key_or (peer port) None part key (table_view keys.now) }
{
    let Some(value) = find(keys, key) else {
        return Ok(None);
    };
    match peer_in(value, port) {
        Some(address) => Ok(Some(address)),
        None => Err(part.fault_at(key, TableFault::BadValue)),
    }
}

/// From where the peer of a line with this port may connect, which may be missing: where it isn't,
/// the port isn't 0.
pub fn from_at(keys: &Table, part: Part, key: Key, port: u16) -> Result<AddressRanges, PlacedFault>
    ensures { result ≡ at_key_or (from port) [] part key (table_view keys.now) }
{
    let Some(value) = find(keys, key) else {
        return Ok(AddressRanges::all());
    };
    match from_in(value, port) {
        Some(ranges) => Ok(ranges),
        None => Err(part.fault_at(key, TableFault::BadValue)),
    }
}

/// Whether a line may have NJE over TCP/IP, by its role, its port and its peer's address: there the
/// end that connects makes contact.
pub fn may_be_tcp(role: Role, port: u16, peer: Option<SocketAddr>) -> bool
    ensures { result ≡ may_be_tcp role port peer }
{
    match role {
        Role::Call => port == 0,
        Role::Answer => peer.is_none(),
    }
}

fn protocol_in(value: &Value, tcp: bool) -> Option<Protocol>
    ensures { result ≡ protocol tcp (view value.now) }
{
    match value.as_str()? {
        "bisync" => Some(Protocol::Bisync),
        "tcp" if tcp => Some(Protocol::Tcp),
        _ => None,
    }
}

/// How a line's bytes are written on its connections: `bisync`, also where the key is missing, or
/// `tcp`, if the line may have that.
pub fn protocol_at(keys: &Table, part: Part, key: Key, tcp: bool) -> Result<Protocol, PlacedFault>
    ensures { result ≡ at_key_or (protocol tcp) Bisync part key (table_view keys.now) }
{
    let Some(value) = find(keys, key) else {
        return Ok(Protocol::Bisync);
    };
    match protocol_in(value, tcp) {
        Some(protocol) => Ok(protocol),
        None => Err(part.fault_at(key, TableFault::BadValue)),
    }
}

/// The elements of a list.
pub fn list_at(keys: &Table, part: Part, key: Key) -> Result<&[Value], PlacedFault>
    ensures { result_map_both (λ v. items_view v.now) (λ f. f) result ≡ at_key as_array part key (table_view keys.now) }
{
    match value_at(keys, part, key)?.as_array() {
        Some(list) => Ok(list.as_slice()),
        None => Err(part.fault_at(key, TableFault::BadValue)),
    }
}

/// The elements of a list, which may be missing.
pub fn list_or_empty_at(keys: &Table, part: Part, key: Key) -> Result<&[Value], PlacedFault>
    ensures { result_map_both (λ v. items_view v.now) (λ f. f) result
        ≡ at_key_or as_array no_items part key (table_view keys.now) }
{
    match find(keys, key) {
        None => Ok(&[]),
        Some(value) => match value.as_array() {
            Some(list) => Ok(list.as_slice()),
            None => Err(part.fault_at(key, TableFault::BadValue)),
        },
    }
}
