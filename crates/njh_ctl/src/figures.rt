//! What is told of one line, of the hub and of customers besides, for people: what was counted, since
//! when something is so, and how grave it is. A hub that doesn't tell of it is told of without.

ghost use Rattle.std.specs.Prelude.{◌≡◌, IfErr, OnOk};
ghost use Rattle.serde_json.specs.View.{view};
ghost use Rattle.njh_ctl.specs.Shown.{Adds};
ghost use Rattle.njh_ctl.specs.ShownLines.{IsAny};
ghost use Rattle.njh_ctl.specs.Faults.{IsPlain};

use crate::answers::list_in;
use crate::fault::CtlFault;
use crate::shown::{add, moment_text, owner_text};
use crate::shown_lines::stream_name;
use serde_json::Value;
use std::alloc::Global;

/// Tells what was counted on a line, and since when it is as it is, if it is told alone.
pub(crate) fn show_figures(
    alloc: Global,
    line: &Value,
    is_alone: bool,
    out: &mut String,
) -> Result<(), CtlFault>
    ensures shown { OnOk result (Adds IsAny out.old out.new) }
    ensures fault { IfErr result IsPlain }
{
    let text = figures_text(alloc, line, is_alone)?;
    add(out, Ok(text))
}

fn figures_text(alloc: Global, line: &Value, is_alone: bool) -> Result<String, CtlFault>
    ensures fault { IfErr result IsPlain }
{
    let mut text = String::new(alloc);
    if !is_alone {
        return Ok(text);
    }
    add_queue(alloc, line, &mut text)?;
    if let Some(served) = line.get("served") {
        add_since(alloc, served, &mut text)?;
        add_wrong(alloc, served, &mut text)?;
        if let Some(counts) = served.get("counts") {
            add_counts(alloc, counts, &mut text)?;
        }
        add_stands(alloc, line, served, &mut text)?;
    }
    Ok(text)
}

/// Since when a line is served so, and without a session.
fn add_since(alloc: Global, served: &Value, text: &mut String) -> Result<(), CtlFault>
    ensures fault { IfErr result IsPlain }
{
    if let Some(moment) = number_in(served, "state_since") {
        let state = word_in(served, "state");
        let since = moment_text(alloc, moment)?;
        let since = since.as_str();
        add(text, format!(in alloc; "  {state} since {since}\n"))?;
    }
    if let Some(moment) = number_in(served, "down") {
        let since = moment_text(alloc, moment)?;
        let since = since.as_str();
        add(text, format!(in alloc; "  no session since {since}\n"))?;
    }
    Ok(())
}

/// What is wrong with a line, if something is.
fn add_wrong(alloc: Global, served: &Value, text: &mut String) -> Result<(), CtlFault>
    ensures fault { IfErr result IsPlain }
{
    let Some(wrong) = served.get("wrong") else {
        return Ok(());
    };
    if wrong.is_null() {
        return Ok(());
    }
    let what = word_in(wrong, "text");
    let severity = word_in(wrong, "severity");
    add(text, format!(in alloc; "  wrong: {what}, {severity}\n"))
}

/// What was counted on a line.
fn add_counts(alloc: Global, counts: &Value, text: &mut String) -> Result<(), CtlFault>
    ensures fault { IfErr result IsPlain }
{
    add_way(alloc, "came", "in", counts, text)?;
    add_way(alloc, "went", "out", counts, text)?;
    add_messages(alloc, counts, text)?;
    let commands = count_or_none(counts, "commands");
    let cut_off = count_or_none(counts, "cut_off");
    let returned = count_or_none(counts, "returned");
    add(
        text,
        format!(in alloc;
            "  commands {commands}, cut off {cut_off}, refused by the peer {returned}\n"
        ),
    )?;
    add_turned_away(alloc, counts, text)
}

/// Nodal messages that came, went and were dropped, if the hub counts them.
fn add_messages(alloc: Global, counts: &Value, text: &mut String) -> Result<(), CtlFault>
    ensures fault { IfErr result IsPlain }
{
    let Some(dropped) = number_in(counts, "dropped") else {
        return Ok(());
    };
    let came = way_in(counts, "messages", "in");
    let went = way_in(counts, "messages", "out");
    add(
        text,
        format!(in alloc; "  messages came {came}, went {went}, dropped {dropped}\n"),
    )
}

/// What came, or went.
fn add_way(
    alloc: Global,
    word: &str,
    way: &str,
    counts: &Value,
    text: &mut String,
) -> Result<(), CtlFault>
    ensures fault { IfErr result IsPlain }
{
    let files = way_in(counts, "files", way);
    let records = way_in(counts, "records", way);
    let blocks = way_in(counts, "blocks", way);
    let bytes = way_in(counts, "bytes", way);
    add(
        text,
        format!(in alloc; "  {word} files {files}, records {records}, "),
    )?;
    add(text, format!(in alloc; "blocks {blocks}, bytes {bytes}\n"))
}

/// How many files the hub refused, by why.
fn add_turned_away(alloc: Global, counts: &Value, text: &mut String) -> Result<(), CtlFault>
    ensures fault { IfErr result IsPlain }
{
    let Some(turned) = counts.get("turned_away") else {
        return Ok(());
    };
    let files = count_or_none(turned, "files");
    let quota = count_or_none(turned, "quota");
    let route = count_or_none(turned, "route");
    let other = count_or_none(turned, "other");
    add(
        text,
        format!(in alloc; "  refused by the hub: too many files {files}, quota {quota}, "),
    )?;
    add(text, format!(in alloc; "no route {route}, other {other}\n"))
}

/// For whom messages wait, and since when.
fn add_queue(alloc: Global, line: &Value, text: &mut String) -> Result<(), CtlFault>
    ensures fault { IfErr result IsPlain }
{
    for message in list_or_none(line, "queue") {
        add_message(alloc, message, text)?;
    }
    Ok(())
}

fn add_message(alloc: Global, message: &Value, text: &mut String) -> Result<(), CtlFault>
    ensures fault { IfErr result IsPlain }
{
    let node = word_in(message, "node");
    let user = word_in(message, "user");
    let whom = owner_text(alloc, node, user)?;
    let whom = whom.as_str();
    match number_in(message, "since") {
        Some(moment) => {
            let since = moment_text(alloc, moment)?;
            let since = since.as_str();
            add(
                text,
                format!(in alloc; "  a message for {whom} waits since {since}\n"),
            )
        }
        None => add(text, format!(in alloc; "  a message for {whom} waits\n")),
    }
}

/// Since when streams that are about something stand as they stand.
fn add_stands(
    alloc: Global,
    line: &Value,
    served: &Value,
    text: &mut String,
) -> Result<(), CtlFault>
    ensures fault { IfErr result IsPlain }
{
    let Some(stands) = served.get("stands") else {
        return Ok(());
    };
    add_ways_stands(alloc, "from the hub", line, stands, text)?;
    add_ways_stands(alloc, "to the hub", line, stands, text)
}

/// The same of those of one way.
fn add_ways_stands(
    alloc: Global,
    words: &str,
    line: &Value,
    stands: &Value,
    text: &mut String,
) -> Result<(), CtlFault>
    ensures fault { IfErr result IsPlain }
{
    let key = if words == "to the hub" {
        "to_hub"
    } else {
        "from_hub"
    };
    let streams = list_or_none(line, key);
    let moments = list_or_none(stands, key);
    for place in 0..streams.len() {
        if !streams[place].is_null() {
            let name = stream_name(place);
            add_stand(alloc, words, name, moments.get(place), text)?;
        }
    }
    Ok(())
}

fn add_stand(
    alloc: Global,
    words: &str,
    name: &str,
    moment: Option<&Value>,
    text: &mut String,
) -> Result<(), CtlFault>
    ensures fault { IfErr result IsPlain }
{
    let Some(moment) = moment.and_then(Value::as_u64) else {
        return Ok(());
    };
    let since = moment_text(alloc, moment)?;
    let since = since.as_str();
    add(
        text,
        format!(in alloc; "  {words}, {name}: so since {since}\n"),
    )
}

/// What is told of the hub besides: how large its log is, how many blocks and files all customers
/// may have, and the time.
pub(crate) fn show_room(alloc: Global, status: &Value, out: &mut String) -> Result<(), CtlFault>
    ensures shown { OnOk result (Adds IsAny out.old out.new) }
    ensures fault { IfErr result IsPlain }
{
    let text = room_text(alloc, status)?;
    add(out, Ok(text))
}

fn room_text(alloc: Global, status: &Value) -> Result<String, CtlFault>
    ensures fault { IfErr result IsPlain }
{
    let mut text = String::new(alloc);
    if let Some(bytes) = number_in(status, "log_bytes") {
        add(&mut text, format!(in alloc; "its log {bytes} bytes\n"))?;
    }
    if let Some(capacity) = status.get("capacity") {
        let blocks = count_or_none(capacity, "blocks");
        let files = count_or_none(capacity, "files");
        add(
            &mut text,
            format!(in alloc; "capacity {blocks} blocks, {files} files\n"),
        )?;
    }
    if let Some(moment) = number_in(status, "now") {
        let now = moment_text(alloc, moment)?;
        let now = now.as_str();
        add(&mut text, format!(in alloc; "now {now}\n"))?;
    }
    Ok(text)
}

/// Tells what the operator wants so.
pub(crate) fn show_intended(alloc: Global, status: &Value, out: &mut String) -> Result<(), CtlFault>
    ensures shown { OnOk result (Adds IsAny out.old out.new) }
    ensures fault { IfErr result IsPlain }
{
    let text = intended_text(alloc, status)?;
    add(out, Ok(text))
}

fn intended_text(alloc: Global, status: &Value) -> Result<String, CtlFault>
    ensures fault { IfErr result IsPlain }
{
    let mut text = String::new(alloc);
    for intended in list_or_none(status, "intended") {
        let what = word_in(intended, "text");
        add(&mut text, format!(in alloc; "intended: {what}\n"))?;
        add_moment(alloc, intended, "", &mut text)?;
    }
    Ok(text)
}

/// How grave it is what a fault says, and since when it is so.
pub(crate) fn gravity_text(
    alloc: Global,
    troubles: &[Value],
    fault: &str,
) -> Result<String, CtlFault>
    ensures fault { IfErr result IsPlain }
{
    let mut text = String::new(alloc);
    for trouble in troubles {
        if word_in(trouble, "text") == fault {
            add_moment(alloc, trouble, word_in(trouble, "severity"), &mut text)?;
            break;
        }
    }
    Ok(text)
}

/// A word, and since when something is so, if that is known.
fn add_moment(alloc: Global, trouble: &Value, word: &str, text: &mut String) -> Result<(), CtlFault>
    ensures fault { IfErr result IsPlain }
{
    match number_in(trouble, "since") {
        Some(moment) => {
            let since = moment_text(alloc, moment)?;
            let since = since.as_str();
            let blank = if word.is_empty() { "" } else { " " };
            add(text, format!(in alloc; "  {word}{blank}since {since}\n"))
        }
        None => {
            if word.is_empty() {
                return Ok(());
            }
            add(text, format!(in alloc; "  {word}\n"))
        }
    }
}

/// What is told of a customer behind its files: how many it may have, how many were refused, and
/// since when its oldest is there.
pub(crate) fn limits_text(alloc: Global, customer: &Value) -> Result<String, CtlFault>
    ensures fault { IfErr result IsPlain }
{
    let Some(most) = number_in(customer, "most_files") else {
        return Ok(String::new(alloc));
    };
    let turned = match customer.get("turned_away") {
        Some(turned) => turned_sum(turned),
        None => 0,
    };
    match number_in(customer, "oldest") {
        Some(moment) => {
            let oldest = moment_text(alloc, moment)?;
            let oldest = oldest.as_str();
            Ok(format!(in alloc; " {most:>6} {turned:>10} {oldest}")?)
        }
        None => Ok(format!(in alloc; " {most:>6} {turned:>10} -")?),
    }
}

fn turned_sum(turned: &Value) -> u64 {
    count_or_none(turned, "files")
        .saturating_add(count_or_none(turned, "quota"))
        .saturating_add(count_or_none(turned, "route"))
        .saturating_add(count_or_none(turned, "other"))
}

/// A number that a member is, if it is one.
fn number_in(value: &Value, key: &str) -> Option<u64> {
    value.get(key)?.as_u64()
}

fn count_or_none(value: &Value, key: &str) -> u64 {
    number_in(value, key).unwrap_or(0)
}

/// How many came or went.
fn way_in(counts: &Value, what: &str, way: &str) -> u64 {
    match counts.get(what) {
        Some(both) => count_or_none(both, way),
        None => 0,
    }
}

/// A text that a member is; none if it isn't one.
fn word_in<'a>(value: &'a Value, key: &str) -> &'a str {
    value.get(key).and_then(Value::as_str).unwrap_or("")
}

/// The values of a list; none if it isn't there.
pub(crate) fn list_or_none<'a>(value: &'a Value, key: &str) -> &'a [Value] {
    match list_in(value, key) {
        Ok(values) => values,
        Err(_) => &[],
    }
}
