//! What is told of lines, for people.

ghost use Rattle.std.specs.Prelude.{◌≡◌, IfErr, IfOk, OnOk, codes, map, string_bytes};
ghost use Rattle.serde_json.specs.View.{view};
ghost use Rattle.njh_ctl.specs.Questions.{Text};
ghost use Rattle.njh_ctl.specs.Shown.{Adds, Grows, Rows, RowsOf};
ghost use Rattle.njh_ctl.specs.ShownLines.{AreCallers, AreLineNames, IsAny, IsGuestRow, IsLineRow, IsRefusalRow};
ghost use Rattle.njh_ctl.specs.ShownLines.{IsServed, IsServedRow, IsSessionTold, peer_in};
ghost use Rattle.njh_ctl.specs.Faults.{IsPlain};

use crate::answers::{count_in, list_in, member, text_in};
use crate::fault::CtlFault;
use crate::figures::show_figures;
use crate::shown::{add, moment_text};
use serde_json::Value;
use std::alloc::Global;

/// What stands above lines.
pub(crate) const LINES: &str =
    "CUSTOMER LINE     NODE     ROLE    STATE    SESSION    TURN   SINCE                \
    SITE                        PEER\n";

/// Tells of a customer's lines; of one that is asked for by its name what was counted too.
pub(crate) fn show_lines(
    alloc: Global,
    customer: &str,
    lines: &[Value],
    is_alone: bool,
    out: &mut String,
) -> Result<(), CtlFault>
    ensures shown { OnOk result (Adds (Rows (IsLineRow customer.now) (map view lines.now)) out.old out.new) }
    ensures fault { IfErr result IsPlain }
{
    for line in lines {
        show_line(alloc, customer, line, is_alone, out)?;
    }
    Ok(())
}

/// Tells of a line, its session and who comes to it, its messages and its streams.
fn show_line(
    alloc: Global,
    customer: &str,
    line: &Value,
    is_alone: bool,
    out: &mut String,
) -> Result<(), CtlFault>
    ensures shown { OnOk result (Adds (IsLineRow customer.now (view line.now)) out.old out.new) }
    ensures fault { IfErr result IsPlain }
{
    show_names(alloc, customer, line, out)?;
    show_served(alloc, line, out)?;
    show_below(alloc, line, out)?;
    show_streams(alloc, line, is_alone, out)
}

/// Tells what a line is called and is.
fn show_names(alloc: Global, customer: &str, line: &Value, out: &mut String) -> Result<(), CtlFault>
    ensures shown { OnOk result (Adds (AreLineNames customer.now (view line.now)) out.old out.new) }
    ensures fault { IfErr result IsPlain }
{
    let name = text_in(line, "name")?;
    let node = text_in(line, "node")?;
    let role = text_in(line, "role")?;
    add(
        out,
        format!(in alloc; "{customer:<8} {name:<8} {node:<8} {role:<7} "),
    )
}

/// Tells of a line's session and who comes to it, if the line is served.
fn show_served(alloc: Global, line: &Value, out: &mut String) -> Result<(), CtlFault>
    ensures shown { OnOk result (Adds (IsServed (view line.now)) out.old out.new) }
    ensures fault { IfErr result IsPlain }
{
    let served = member(line, "served")?;
    let session = member(line, "session")?;
    if served.is_null() {
        return add(out, String::from_str(alloc, "not served\n"));
    }
    show_session(alloc, served, session, out)
}

/// Tells of a line's session and connection, and who else comes to it.
fn show_session(
    alloc: Global,
    served: &Value,
    session: &Value,
    out: &mut String,
) -> Result<(), CtlFault>
    ensures shown { OnOk result (Adds (IsSessionTold (view served.now) (view session.now)) out.old out.new) }
    ensures fault { IfErr result IsPlain }
{
    show_row(alloc, served, session, out)?;
    show_troubles(alloc, served, session, out)?;
    show_callers(alloc, served, out)
}

/// Tells how a line is served, how its session is, and who is connected.
fn show_row(
    alloc: Global,
    served: &Value,
    session: &Value,
    out: &mut String,
) -> Result<(), CtlFault>
    ensures shown { OnOk result (Adds (IsServedRow (view served.now) (view session.now)) out.old out.new) }
    ensures fault { IfErr result IsPlain }
{
    let state = text_in(served, "state")?;
    let site = text_in(served, "site")?;
    let phase = text_in(session, "phase")?;
    let turn = text_in(session, "turn")?;
    let since = since_text(alloc, served)?;
    let since = since.as_str();
    let peer = peer_of(served);
    add(
        out,
        format!(in alloc; "{state:<8} {phase:<10} {turn:<6} {since:<20} {site:<27} {peer}\n"),
    )
}

/// The address of who is connected; a dash if nobody is.
fn peer_of(served: &Value) -> &str
    ensures { result.now ≡ peer_in (view served.now) }
{
    served.get("peer").and_then(Value::as_str).unwrap_or("-")
}

/// Since when the session is up, or else there is a connection, if one of the two is so.
fn since_text(alloc: Global, served: &Value) -> Result<String, CtlFault>
    ensures fault { IfErr result IsPlain }
{
    match served.get("up").and_then(Value::as_u64) {
        Some(moment) => moment_text(alloc, moment),
        None => match served.get("connected").and_then(Value::as_u64) {
            Some(moment) => moment_text(alloc, moment),
            None => Ok(String::from_str(alloc, "-")?),
        },
    }
}

/// Tells why the last session ended, and what had to be asked for or sent again.
fn show_troubles(
    alloc: Global,
    served: &Value,
    session: &Value,
    out: &mut String,
) -> Result<(), CtlFault>
    ensures shown { OnOk result (Adds IsAny out.old out.new) }
    ensures fault { IfErr result IsPlain }
{
    show_last_end(alloc, served, out)?;
    show_tries(alloc, session, out)?;
    show_repeats(alloc, served, out)
}

fn show_last_end(alloc: Global, served: &Value, out: &mut String) -> Result<(), CtlFault>
    ensures shown { OnOk result (Adds IsAny out.old out.new) }
    ensures fault { IfErr result IsPlain }
{
    let last = text_in(served, "last_end")?;
    if last.is_empty() {
        return Ok(());
    }
    add(out, format!(in alloc; "  last end: {last}\n"))
}

fn show_tries(alloc: Global, session: &Value, out: &mut String) -> Result<(), CtlFault>
    ensures shown { OnOk result (Adds IsAny out.old out.new) }
    ensures fault { IfErr result IsPlain }
{
    let refusals = count_in(session, "refusals")?;
    let tries = count_in(session, "tries")?;
    if refusals == 0 && tries == 0 {
        return Ok(());
    }
    add(
        out,
        format!(in alloc; "  tries {tries}, refusals {refusals}\n"),
    )
}

/// Tells how many NAKs and how many blocks again were sent, if any were.
fn show_repeats(alloc: Global, served: &Value, out: &mut String) -> Result<(), CtlFault>
    ensures shown { OnOk result (Adds IsAny out.old out.new) }
    ensures fault { IfErr result IsPlain }
{
    let naks = count_in(served, "naks")?;
    let repeats = count_in(served, "repeats")?;
    if naks > 0 || repeats > 0 {
        add(out, format!(in alloc; "  naks {naks}, repeats {repeats}\n"))?;
    }
    Ok(())
}

/// Tells who waits for a line, and of which addresses sign-ons were refused on it.
fn show_callers(alloc: Global, served: &Value, out: &mut String) -> Result<(), CtlFault>
    ensures shown { OnOk result (Adds (AreCallers (view served.now)) out.old out.new) }
    ensures fault { IfErr result IsPlain }
{
    show_waiting(alloc, served, out)?;
    show_refused(alloc, served, out)
}

fn show_waiting(alloc: Global, served: &Value, out: &mut String) -> Result<(), CtlFault>
    ensures shown { OnOk result (Adds (RowsOf (codes "waiting") IsGuestRow (view served.now)) out.old out.new) }
    ensures fault { IfErr result IsPlain }
{
    show_guests(alloc, list_in(served, "waiting")?, out)
}

fn show_guests(alloc: Global, guests: &[Value], out: &mut String) -> Result<(), CtlFault>
    ensures shown { OnOk result (Adds (Rows IsGuestRow (map view guests.now)) out.old out.new) }
    ensures fault { IfErr result IsPlain }
{
    for guest in guests {
        show_guest(alloc, guest, out)?;
    }
    Ok(())
}

fn show_guest(alloc: Global, guest: &Value, out: &mut String) -> Result<(), CtlFault>
    ensures shown { OnOk result (Adds (IsGuestRow (view guest.now)) out.old out.new) }
    ensures fault { IfErr result IsPlain }
{
    match guest.as_str() {
        Some(guest) => add(out, format!(in alloc; "  waits: {guest}\n")),
        None => Err(CtlFault::NotUnderstood),
    }
}

fn show_refused(alloc: Global, served: &Value, out: &mut String) -> Result<(), CtlFault>
    ensures shown { OnOk result (Adds (RowsOf (codes "refused") IsRefusalRow (view served.now)) out.old out.new) }
    ensures fault { IfErr result IsPlain }
{
    show_refusals(alloc, list_in(served, "refused")?, out)
}

fn show_refusals(alloc: Global, refused: &[Value], out: &mut String) -> Result<(), CtlFault>
    ensures shown { OnOk result (Adds (Rows IsRefusalRow (map view refused.now)) out.old out.new) }
    ensures fault { IfErr result IsPlain }
{
    for address in refused {
        show_refusal(alloc, address, out)?;
    }
    Ok(())
}

/// Tells how many sign-ons of an address were refused.
fn show_refusal(alloc: Global, refused: &Value, out: &mut String) -> Result<(), CtlFault>
    ensures shown { OnOk result (Adds (IsRefusalRow (view refused.now)) out.old out.new) }
    ensures fault { IfErr result IsPlain }
{
    let address = text_in(refused, "address")?;
    let count = count_in(refused, "count")?;
    add(
        out,
        format!(in alloc; "  refused sign-ons of {address}: {count}\n"),
    )
}

/// Tells that a line is over TCP/IP, if it is, and of its messages.
fn show_below(alloc: Global, line: &Value, out: &mut String) -> Result<(), CtlFault>
    ensures shown { OnOk result (Adds IsAny out.old out.new) }
    ensures fault { IfErr result IsPlain }
{
    show_protocol(alloc, line, out)?;
    show_messages(alloc, line, out)
}

fn show_protocol(alloc: Global, line: &Value, out: &mut String) -> Result<(), CtlFault>
    ensures shown { OnOk result (Adds IsAny out.old out.new) }
    ensures fault { IfErr result IsPlain }
{
    match line.get("protocol").and_then(Value::as_str) {
        Some(protocol) if protocol == "tcp" => {
            add(out, String::from_str(alloc, "  over TCP/IP\n"))
        }
        _ => Ok(()),
    }
}

/// Tells how many nodal messages wait, if any do.
fn show_messages(alloc: Global, line: &Value, out: &mut String) -> Result<(), CtlFault>
    ensures shown { OnOk result (Adds IsAny out.old out.new) }
    ensures fault { IfErr result IsPlain }
{
    match line.get("messages").and_then(Value::as_u64) {
        None | Some(0) => Ok(()),
        Some(1) => add(out, String::from_str(alloc, "  1 message waits\n")),
        Some(count) => add(out, format!(in alloc; "  {count} messages wait\n")),
    }
}

/// Tells what comes and goes on a line's streams.
fn show_streams(
    alloc: Global,
    line: &Value,
    is_alone: bool,
    out: &mut String,
) -> Result<(), CtlFault>
    ensures shown { OnOk result (Adds IsAny out.old out.new) }
    ensures fault { IfErr result IsPlain }
{
    show_senders(alloc, list_in(line, "from_hub")?, out)?;
    show_receivers(alloc, list_in(line, "to_hub")?, out)?;
    show_figures(alloc, line, is_alone, out)
}

fn show_senders(alloc: Global, streams: &[Value], out: &mut String) -> Result<(), CtlFault>
    ensures shown { OnOk result (Adds IsAny out.old out.new) }
    ensures fault { IfErr result IsPlain }
{
    for place in 0..streams.len() {
        show_sender(alloc, stream_name(place), &streams[place], out)?;
    }
    Ok(())
}

fn show_receivers(alloc: Global, streams: &[Value], out: &mut String) -> Result<(), CtlFault>
    ensures shown { OnOk result (Adds IsAny out.old out.new) }
    ensures fault { IfErr result IsPlain }
{
    for place in 0..streams.len() {
        show_receiver(alloc, stream_name(place), &streams[place], out)?;
    }
    Ok(())
}

/// What a stream is called, by its place in an answer, as the log calls it.
pub(crate) fn stream_name(place: usize) -> &'static str {
    match place {
        0 => "SYSIN 1",
        1 => "SYSIN 2",
        2 => "SYSIN 3",
        3 => "SYSIN 4",
        4 => "SYSOUT 1",
        5 => "SYSOUT 2",
        6 => "SYSOUT 3",
        7 => "SYSOUT 4",
        _ => "a stream",
    }
}

/// Tells what goes on a stream, if something does.
fn show_sender(alloc: Global, name: &str, stream: &Value, out: &mut String) -> Result<(), CtlFault>
    ensures shown { OnOk result (Adds IsAny out.old out.new) }
    ensures fault { IfErr result IsPlain }
{
    if stream.is_null() {
        return Ok(());
    }
    let state = text_in(stream, "state")?;
    match stream.get("name").and_then(Value::as_str) {
        Some(file) => {
            let sent = count_in(stream, "sent")?;
            let records = count_in(stream, "records")?;
            add(
                out,
                format!(in alloc; "  from the hub, {name}: {file}, {state}, "),
            )?;
            add(out, format!(in alloc; "{sent} of {records} records\n"))
        }
        None => add(out, format!(in alloc; "  from the hub, {name}: {state}\n")),
    }
}

/// Tells what comes on a stream, if something does.
fn show_receiver(
    alloc: Global,
    name: &str,
    stream: &Value,
    out: &mut String,
) -> Result<(), CtlFault>
    ensures shown { OnOk result (Adds IsAny out.old out.new) }
    ensures fault { IfErr result IsPlain }
{
    if stream.is_null() {
        return Ok(());
    }
    match stream.get("records").and_then(Value::as_u64) {
        Some(records) => add(
            out,
            format!(in alloc; "  to the hub, {name}: {records} records\n"),
        ),
        None => {
            let state = text_in(stream, "state")?;
            add(out, format!(in alloc; "  to the hub, {name}: {state}\n"))
        }
    }
}
