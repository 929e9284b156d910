//! Which lines of tables are served, how many handles they need, and lines of a log by themselves:
//! as objects, and of events of which there are too many.

use crate::serving::tables_of;
use arrayvec::ArrayString;
use njh_block::Stream;
use njh_ebcdic::Name;
use njh_line::Refusal;
use njh_log::{EventKind, Heading, LimitedLog, Log, LogEvent, LogStyle, Place, Rebuff, Severity};
use njh_sites::{Endpoint, Site, endpoints_of, handles_needed};
use njh_table::Tables;
use std::io;
use std::io::ErrorKind;
use std::net::{IpAddr, Ipv4Addr};

/// Lines as objects.
const OBJECTS: LogStyle = LogStyle {
    is_json: true,
    has_priority: false,
};

/// Prints all of it.
pub(crate) fn show<R: Print + AllocGlobal>(rt: &R, tables: &str) -> io::Result<()> {
    let tables = tables_of(rt.alloc(), tables)?;
    let shown = show_endpoints(rt, &tables);
    drop(tables);
    shown?;
    show_marks(rt)?;
    show_cut(rt)?;
    show_strangers(rt)?;
    show_spells(rt)?;
    show_files(rt)
}

/// Prints the lines of tables that are served, and how many handles they need.
fn show_endpoints<R: Print + AllocGlobal>(rt: &R, tables: &Tables) -> io::Result<()> {
    let endpoints = endpoints_of(rt.alloc(), tables)?;
    for endpoint in endpoints.iter() {
        show_endpoint(rt, *endpoint)?;
    }
    println!(rt; "handles: {}", handles_needed(&endpoints))
}

fn show_endpoint<R: Print>(rt: &R, endpoint: Endpoint) -> io::Result<()> {
    let line = endpoint.line;
    match endpoint.site {
        Site::Listens(port) => {
            println!(rt;
                "line {} of customer {}: port {port}",
                line.number, line.customer
            )
        }
        Site::Dials(_) => println!(rt; "line {} of customer {}: dials", line.number, line.customer),
    }
}

/// Prints an object with quotation marks, a backslash and a control character.
fn show_marks<R: Print + AllocGlobal>(rt: &R) -> io::Result<()> {
    let Ok(customer) = Name::of_text("ACME") else {
        return Err(io::Error::from(ErrorKind::InvalidData));
    };
    let mut log = Log::new(Some(Vec::new(rt.alloc())), OBJECTS);
    let heading = Heading {
        milliseconds: 1,
        severity: Severity::Warning,
        place: Place::Customer(customer),
    };
    log.write(heading, &"a \"b\" \\ c\n");
    show_log(rt, &log)
}

/// A log of texts, onto a writer that takes all.
fn plain_log<R: AllocGlobal>(rt: &R) -> io::Result<LimitedLog<Vec<u8>>> {
    let alloc = rt.alloc();
    let mut log = LimitedLog::new(alloc, Log::new(Some(Vec::new(alloc)), LogStyle::PLAIN));
    log.limit(alloc)?;
    Ok(log)
}

/// A line of a customer.
fn line_of(customer: &str, line: &str) -> io::Result<Place> {
    let Ok(customer) = Name::of_text(customer) else {
        return Err(io::Error::from(ErrorKind::InvalidData));
    };
    let mut name = ArrayString::new();
    let _whole = name.try_push_str(line).is_ok();
    Ok(Place::Line(customer, name))
}

/// Prints what is told of those who may not connect or sign on, and of whom anybody may be.
fn show_strangers<R: Print + AllocGlobal>(rt: &R) -> io::Result<()> {
    let place = line_of("ACME", "a1")?;
    let mut log = plain_log(rt)?;
    let address = IpAddr::V4(Ipv4Addr::new(192, 0, 2, 7));
    for event in [
        LogEvent::SignOnsRefused(Refusal::Password, address, 1),
        LogEvent::SignOnsRefused(Refusal::Password, address, 12),
        LogEvent::TurnedAway(Rebuff::NotAllowed, 1),
        LogEvent::TurnedAway(Rebuff::NotAllowed, 12),
        LogEvent::TurnedAway(Rebuff::NoRoom, 12),
        LogEvent::OpenToAll(2301),
    ] {
        tell_at(&mut log, 0, &place, &event);
    }
    show_log(rt, &log.log)
}

/// Tells of an event at a place, so many milliseconds after the start.
fn tell_at(log: &mut LimitedLog<Vec<u8>>, now: u32, place: &Place, event: &LogEvent) {
    log.tell(i64::from(now), u64::from(now), *place, event);
}

/// Prints what is told of 25 commands within three seconds on a line, of one on another, and of one
/// on the first once its ten seconds are over, and before it is told how many more there were than
/// ten: it is counted too.
fn show_spells<R: Print + AllocGlobal>(rt: &R) -> io::Result<()> {
    let first = line_of("ACME", "a1")?;
    let second = line_of("ACME", "a2")?;
    let mut log = plain_log(rt)?;
    tell_of_commands(&mut log, &first, 1_000, 25);
    tell_of_commands(&mut log, &second, 3_500, 1);
    tell_of_commands(&mut log, &first, 11_000, 1);
    log.look(12_000, 12_000);
    log.tell_text(
        Heading::warning(12_500),
        12_500,
        EventKind::Commands,
        &"another place",
    );
    show_log(rt, &log.log)
}

/// Tells of so many commands, the first at this moment and the next a tenth of a second later, each
/// with the time of the first.
fn tell_of_commands(log: &mut LimitedLog<Vec<u8>>, place: &Place, first: u32, commands: usize) {
    let mut now = first;
    for _ in 0..commands {
        tell_of_command(log, place, first, now);
        now = now.saturating_add(100);
    }
    log.look(10_999, 10_999);
}

fn tell_of_command(log: &mut LimitedLog<Vec<u8>>, place: &Place, first: u32, now: u32) {
    let heading = Heading {
        milliseconds: i64::from(first),
        severity: Severity::Information,
        place: *place,
    };
    log.tell_text(heading, u64::from(now), EventKind::Commands, &"a command");
}

/// Prints how many lines there are of 1,005 files of a customer on two lines within a second, and
/// of one of another customer, and what is told of those that have none.
fn show_files<R: Print + AllocGlobal>(rt: &R) -> io::Result<()> {
    let first = line_of("ACME", "a1")?;
    let second = line_of("ACME", "a2")?;
    let other = line_of("BOLT", "b1")?;
    let mut log = plain_log(rt)?;
    tell_of_files(&mut log, &first, 1_003);
    tell_of_files(&mut log, &second, 2);
    tell_of_files(&mut log, &other, 1);
    show_counted(rt, &mut log)
}

fn tell_of_files(log: &mut LimitedLog<Vec<u8>>, place: &Place, files: usize) {
    let event = LogEvent::FileLeft(Stream::at(0));
    for _ in 0..files {
        tell_at(log, 500, place, &event);
    }
}

/// Prints how many lines a log has, and what another tells of its spells once they are over.
fn show_counted<R: Print + AllocGlobal>(rt: &R, log: &mut LimitedLog<Vec<u8>>) -> io::Result<()> {
    println!(rt; "lines of files: {}", lines_of(&log.log))?;
    let mut rest = plain_log(rt)?;
    std::mem::swap(&mut rest.spells, &mut log.spells);
    rest.look(1_499, 499);
    rest.look(1_500, 1_500);
    show_log(rt, &rest.log)
}

fn lines_of(log: &Log<Vec<u8>>) -> usize {
    match log.writer() {
        Some(bytes) => bytes.iter().filter(|byte| **byte == b'\n').count(),
        None => 0,
    }
}

fn show_log<R: Print>(rt: &R, log: &Log<Vec<u8>>) -> io::Result<()> {
    match log.writer() {
        Some(bytes) => print!(rt; "{}", str::from_utf8(bytes).unwrap_or("no text")),
        None => println!(rt; "no writer"),
    }
}

/// Says whether an object whose text is too long is cut in it, and whole.
fn show_cut<R: Print + AllocGlobal>(rt: &R) -> io::Result<()> {
    let mut log = Log::new(Some(Vec::new(rt.alloc())), OBJECTS);
    let mut text = String::new(rt.alloc());
    for _ in 0..600 {
        text.push('x')?;
    }
    log.write(Heading::error(0), &text);
    match log.writer() {
        Some(bytes) if bytes.len() <= 512 && bytes.ends_with(b"x\"}\n") => {
            println!(rt; "a long object: cut in its text, and whole")
        }
        Some(bytes) => println!(rt; "a long object: {} bytes", bytes.len()),
        None => println!(rt; "no writer"),
    }
}
