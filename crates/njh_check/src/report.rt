//! The report of tables that are right.

ghost use Rattle.std.specs.Prelude.{◌≡◌, ◌≤◌, ◌-◌, ◌++◌, flat_map, length, IfOk, OnOk, string_bytes, sum_by};
ghost use Rattle.njh_table.specs.Limits.{max_customers};
ghost use Rattle.njh_table.specs.TableFile.{route_entry};
ghost use Rattle.njh_check.specs.Reports.{capacity_text, customer_text, head_text, line_name, line_text, name_words};
ghost use Rattle.njh_check.specs.Reports.{peer_words, port_words, report_of, role_words, route_text, second_words};
ghost use Rattle.njh_check.specs.Reports.{from_words, has_password, line_report, password_text, protocol_words};
ghost use Rattle.njh_check.specs.Reports.{range_words, size_words};

use njh_ebcdic::Name;
use njh_table::{AddressRange, NamedCustomer, NamedLine, Protocol, Role, RouteLines, Tables};
use std::alloc::{AllocError, Global};
use std::net::SocketAddr;

#[tactic(auto, unfolding(crate::specs::Reports::role_words))]
fn role_words(role: Role) -> &'static str
    ensures { result.now ≡ role_words role }
{
    match role {
        Role::Call => "call",
        Role::Answer => "answer",
    }
}

#[tactic(auto, unfolding(crate::specs::Reports::port_words))]
fn port_words(alloc: Global, port: u16) -> Result<String, AllocError>
    ensures { IfOk result (λ words. string_bytes words ≡ port_words port) }
{
    if port == 0 {
        return String::from_str(alloc, "no port");
    }
    format!(in alloc; "port {port}")
}

#[tactic(auto, unfolding(crate::specs::Reports::peer_words))]
fn peer_words(alloc: Global, port: u16, peer: Option<SocketAddr>) -> Result<String, AllocError>
    ensures { IfOk result (λ words. string_bytes words ≡ peer_words port peer) }
{
    match peer {
        Some(address) => format!(in alloc; "connect {address}"),
        None => port_words(alloc, port),
    }
}

/// A range of addresses, behind a blank.
#[tactic(auto, unfolding(crate::specs::Reports::range_words))]
fn range_words(alloc: Global, range: AddressRange) -> Result<String, AllocError>
    ensures { IfOk result (λ words. string_bytes words ≡ range_words range) }
{
    let AddressRange { address, bits } = range;
    if range.is_single() {
        return format!(in alloc; " {address}");
    }
    format!(in alloc; " {address}/{bits}")
}

/// From where a line's peer may connect, if that isn't from anywhere.
#[tactic(auto, unfolding(crate::specs::Reports::from_words))]
fn from_words(alloc: Global, ranges: &[AddressRange]) -> Result<String, AllocError>
    ensures { IfOk result (λ words. string_bytes words ≡ from_words ranges.now) }
{
    if ranges.is_empty() {
        return Ok(String::new(alloc));
    }
    let mut words = String::from_str(alloc, ", from")?;
    for range in ranges {
        let text = range_words(alloc, *range)?;
        words.push_str(text.as_str())?;
    }
    Ok(words)
}

/// How a line's bytes are written on its connections, if that isn't as on a bisync line.
#[tactic(auto, unfolding(crate::specs::Reports::protocol_words))]
fn protocol_words(protocol: Protocol) -> &'static str
    ensures { result.now ≡ protocol_words protocol }
{
    match protocol {
        Protocol::Bisync => "",
        Protocol::Tcp => ", protocol tcp",
    }
}

/// How much a line takes at once.
#[tactic(auto, unfolding(crate::specs::Reports::size_words))]
fn size_words(alloc: Global, block: u16, streams: u8) -> Result<String, AllocError>
    ensures { IfOk result (λ words. string_bytes words ≡ size_words block streams) }
{
    format!(in alloc; "block {block}, streams {streams}")
}

/// A line by its name and its node.
#[tactic(auto, unfolding(crate::specs::Reports::name_words))]
fn name_words(alloc: Global, line: &NamedLine) -> Result<String, AllocError>
    ensures { IfOk result (λ words. string_bytes words ≡ name_words line.now) }
{
    let name = line.name();
    let node = line.node();
    format!(in alloc; "  line {name}: node {node}, ")
}

#[tactic(auto, unfolding(crate::specs::Reports::line_text))]
fn line_text(alloc: Global, line: &NamedLine) -> Result<String, AllocError>
    ensures { IfOk result (λ text. string_bytes text ≡ line_text line.now) }
{
    let name = name_words(alloc, line)?;
    let role = role_words(line.role());
    let peer = peer_words(alloc, line.port(), line.peer())?;
    let from = from_words(alloc, line.from().as_slice())?;
    let protocol = protocol_words(line.protocol());
    let size = size_words(alloc, line.block(), line.streams())?;
    format!(in alloc; "{name}{role}, {peer}{from}{protocol}, {size}\n")
}

/// Whether a line has a password, which is a name, so it isn't empty.
#[tactic(auto, using(crate::proofs::Passwords::has_password_name))]
pub(crate) fn has_password(line: &NamedLine) -> bool
    ensures { result ≡ has_password line.now.entry.password }
{
    match line.password() {
        None => false,
        Some(name) => {
            prove!(!name.bytes().is_empty());
            true
        }
    }
}

/// Whether a line has a password, which isn't told.
#[tactic(auto, unfolding(crate::specs::Reports::password_text))]
fn password_text(alloc: Global, line: &NamedLine) -> Result<String, AllocError>
    ensures { IfOk result (λ text. string_bytes text ≡ password_text line.now) }
{
    let name = line.name();
    if has_password(line) {
        format!(in alloc; "  password {name}: set\n")
    } else {
        format!(in alloc; "  password {name}: none\n")
    }
}

/// The name of a customer's line.
#[tactic(auto, unfolding(crate::specs::Reports::line_name))]
fn line_name(lines: &[NamedLine], number: u16) -> &str
    ensures { result.now ≡ line_name lines.now number }
{
    match lines.get(usize::from(number)) {
        Some(line) => line.name(),
        None => "",
    }
}

#[tactic(auto, unfolding(crate::specs::Reports::second_words))]
fn second_words(
    alloc: Global,
    lines: &[NamedLine],
    second: Option<u16>,
) -> Result<String, AllocError>
    ensures { IfOk result (λ words. string_bytes words ≡ second_words lines.now second) }
{
    match second {
        Some(number) => {
            let name = line_name(lines, number);
            format!(in alloc; ", second line {name}")
        }
        None => Ok(String::new(alloc)),
    }
}

#[tactic(auto, unfolding(crate::specs::Reports::route_text))]
fn route_text(
    alloc: Global,
    lines: &[NamedLine],
    route: (Name, RouteLines),
) -> Result<String, AllocError>
    ensures { IfOk result (λ text. string_bytes text ≡ route_text lines.now (route_entry route)) }
{
    let (node, by) = route;
    let line = line_name(lines, by.line);
    let second = second_words(alloc, lines, by.second)?;
    format!(in alloc; "  route {node}: line {line}{second}\n")
}

/// A customer without its lines and routes.
#[tactic(auto, unfolding(crate::specs::Reports::head_text))]
fn head_text(alloc: Global, customer: &NamedCustomer) -> Result<String, AllocError>
    ensures { IfOk result (λ text. string_bytes text ≡ head_text customer.now) }
{
    let name = customer.name();
    let hub = customer.hub();
    let quota = customer.quota();
    let files = customer.files();
    format!(in alloc; "customer {name}: hub {hub}, quota {quota} blocks, {files} files\n")
}

pub(crate) fn put(report: &mut Vec<u8>, text: &str) -> Result<(), AllocError>
    ensures { OnOk result (report.new.items ≡ report.old.items ++ text.now) }
{
    report.extend_from_slice(text.as_bytes())
}

/// All that is told of a line.
#[tactic(auto, unfolding(crate::specs::Reports::line_report))]
fn put_line(alloc: Global, report: &mut Vec<u8>, line: &NamedLine) -> Result<(), AllocError>
    ensures { OnOk result (report.new.items ≡ report.old.items ++ line_report line.now) }
{
    let text = line_text(alloc, line)?;
    put(report, text.as_str())?;
    let password = password_text(alloc, line)?;
    put(report, password.as_str())
}

fn put_lines(alloc: Global, report: &mut Vec<u8>, lines: &[NamedLine]) -> Result<(), AllocError>
    ensures { OnOk result (report.new.items ≡ report.old.items ++ flat_map line_report lines.now) }
{
    for line in lines {
        put_line(alloc, report, line)?;
    }
    Ok(())
}

fn put_routes(
    alloc: Global,
    report: &mut Vec<u8>,
    customer: &NamedCustomer,
) -> Result<(), AllocError>
    ensures { OnOk result (report.new.items
        ≡ report.old.items ++ flat_map (route_text customer.now.lines) customer.now.routes) }
{
    for index in 0..customer.routes() {
        let text = route_text(alloc, customer.lines(), customer.route_at(index))?;
        put(report, text.as_str())?;
    }
    Ok(())
}

#[tactic(auto, unfolding(crate::specs::Reports::customer_text))]
fn put_customer(
    alloc: Global,
    report: &mut Vec<u8>,
    customer: &NamedCustomer,
) -> Result<(), AllocError>
    ensures { OnOk result (report.new.items ≡ report.old.items ++ customer_text customer.now) }
{
    let head = head_text(alloc, customer)?;
    put(report, head.as_str())?;
    put_lines(alloc, report, customer.lines())?;
    put_routes(alloc, report, customer)
}

fn put_customers(
    alloc: Global,
    report: &mut Vec<u8>,
    customers: &[NamedCustomer],
) -> Result<(), AllocError>
    ensures { OnOk result (report.new.items ≡ report.old.items ++ flat_map customer_text customers.now) }
{
    for customer in customers {
        put_customer(alloc, report, customer)?;
    }
    Ok(())
}

fn quotas_of(customers: &[NamedCustomer]) -> u64
    requires { length customers.now ≤ max_customers }
    ensures { result ≡ sum_by (λ c. c.quota) customers.now }
{
    customers
        .iter()
        .map(|customer| u64::from(customer.quota()))
        .sum()
}

/// What is left of a capacity.
fn left_of(capacity: u64, quotas: u64) -> u64
    ensures { result ≡ capacity - quotas }
{
    if quotas < capacity {
        capacity - quotas
    } else {
        0
    }
}

/// The spool's blocks: all, those that the quotas promise, and those that are left.
#[tactic(auto, unfolding(crate::specs::Reports::capacity_text))]
fn capacity_text(alloc: Global, capacity: u64, quotas: u64) -> Result<String, AllocError>
    ensures { IfOk result (λ text. string_bytes text ≡ capacity_text capacity quotas) }
{
    let left = left_of(capacity, quotas);
    format!(in alloc; "capacity {capacity} blocks, quotas {quotas}, left {left}\n")
}

/// The report of tables: a line for each customer, two for each of its lines and one for each of
/// its routes, and one for the spool. Want of memory is the only refusal.
#[tactic(auto, unfolding(crate::specs::Reports::report_of))]
pub(crate) fn report_of(alloc: Global, tables: &Tables) -> Result<Vec<u8>, AllocError>
    ensures { IfOk result (λ report. report.items ≡ report_of tables.now) }
{
    let mut report = Vec::new(alloc);
    let customers = tables.customers();
    put_customers(alloc, &mut report, customers)?;
    let text = capacity_text(alloc, u64::from(tables.capacity()), quotas_of(customers))?;
    put(&mut report, text.as_str())?;
    Ok(report)
}
