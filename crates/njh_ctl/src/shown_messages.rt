//! What is told of the nodal messages of lines, for people: for whom they wait and since when, and
//! how many there were.

ghost use Rattle.std.specs.Prelude.{◌≡◌, IfErr, IfOk, OnOk, codes, map, string_bytes};
ghost use Rattle.serde_json.specs.View.{view};
ghost use Rattle.njh_ctl.specs.Shown.{Adds, Rows, RowsOf};
ghost use Rattle.njh_ctl.specs.ShownMessages.{AreLineMessages, AreMessageSums, IsCounted, IsCountsRow, IsMessageRow};
ghost use Rattle.njh_ctl.specs.Faults.{IsPlain};

use crate::answers::{count_in, list_in, member, text_in};
use crate::fault::CtlFault;
use crate::shown::{add, since_of, user_text};
use serde_json::Value;
use std::alloc::Global;

/// What stands above messages.
pub(crate) const MESSAGES: &str = "CUSTOMER LINE     FOR               SINCE\n";

/// Tells of the messages of a customer's lines.
pub(crate) fn show_line_messages(
    alloc: Global,
    customer: &str,
    lines: &[Value],
    out: &mut String,
) -> Result<(), CtlFault>
    ensures shown { OnOk result (Adds (Rows (AreLineMessages customer.now) (map view lines.now)) out.old out.new) }
    ensures fault { IfErr result IsPlain }
{
    for line in lines {
        show_messages(alloc, customer, line, out)?;
    }
    Ok(())
}

/// Tells of a line's messages that wait, and how many there were.
fn show_messages(
    alloc: Global,
    customer: &str,
    line: &Value,
    out: &mut String,
) -> Result<(), CtlFault>
    ensures shown { OnOk result (Adds (AreLineMessages customer.now (view line.now)) out.old out.new) }
    ensures fault { IfErr result IsPlain }
{
    let name = text_in(line, "name")?;
    show_queue(alloc, customer, name, line, out)?;
    show_counts(alloc, customer, name, line, out)
}

/// Tells of a line's messages that wait, the one that waits longest first.
fn show_queue(
    alloc: Global,
    customer: &str,
    name: &str,
    line: &Value,
    out: &mut String,
) -> Result<(), CtlFault>
    ensures shown { OnOk result (Adds (RowsOf (codes "queue") (IsMessageRow customer.now name.now) (view line.now))
        out.old out.new) }
    ensures fault { IfErr result IsPlain }
{
    show_each_message(alloc, customer, name, list_in(line, "queue")?, out)
}

fn show_each_message(
    alloc: Global,
    customer: &str,
    name: &str,
    messages: &[Value],
    out: &mut String,
) -> Result<(), CtlFault>
    ensures shown { OnOk result (Adds (Rows (IsMessageRow customer.now name.now) (map view messages.now))
        out.old out.new) }
    ensures fault { IfErr result IsPlain }
{
    for message in messages {
        show_message(alloc, customer, name, message, out)?;
    }
    Ok(())
}

/// Tells for whom a message waits, and since when.
fn show_message(
    alloc: Global,
    customer: &str,
    name: &str,
    message: &Value,
    out: &mut String,
) -> Result<(), CtlFault>
    ensures shown { OnOk result (Adds (IsMessageRow customer.now name.now (view message.now)) out.old out.new) }
    ensures fault { IfErr result IsPlain }
{
    let whom = user_text(alloc, message)?;
    let whom = whom.as_str();
    let since = since_of(alloc, message, "since")?;
    let since = since.as_str();
    add(
        out,
        format!(in alloc; "{customer:<8} {name:<8} {whom:<17} {since}\n"),
    )
}

/// Tells how many messages there were on a line.
fn show_counts(
    alloc: Global,
    customer: &str,
    name: &str,
    line: &Value,
    out: &mut String,
) -> Result<(), CtlFault>
    ensures shown { OnOk result (Adds (IsCountsRow customer.now name.now (view line.now)) out.old out.new) }
    ensures fault { IfErr result IsPlain }
{
    let counts = counts_text(alloc, line)?;
    let counts = counts.as_str();
    add(out, format!(in alloc; "{customer:<8} {name:<8} {counts}\n"))
}

/// How many messages there were on a line, if it is served.
fn counts_text(alloc: Global, line: &Value) -> Result<String, CtlFault>
    ensures counted { IfOk result (λ text. IsCounted (view line.now) (string_bytes text)) }
    ensures fault { IfErr result IsPlain }
{
    let served = member(line, "served")?;
    if served.is_null() {
        return Ok(String::from_str(alloc, "not served")?);
    }
    sums_text(alloc, member(served, "counts")?)
}

/// How many messages came, went and were dropped.
fn sums_text(alloc: Global, counts: &Value) -> Result<String, CtlFault>
    ensures sums { IfOk result (λ text. AreMessageSums (view counts.now) (string_bytes text)) }
    ensures fault { IfErr result IsPlain }
{
    let messages = member(counts, "messages")?;
    let came = count_in(messages, "in")?;
    let went = count_in(messages, "out")?;
    let dropped = count_in(counts, "dropped")?;
    Ok(format!(in alloc; "came {came}, went {went}, dropped {dropped}")?)
}
