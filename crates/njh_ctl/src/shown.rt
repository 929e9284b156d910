//! What is told of answers, for people.

ghost use Rattle.std.specs.Prelude.{◌≡◌, IfErr, IfOk, OnOk, codes, map, string_bytes};
ghost use Rattle.std.specs.Result.{IsOkAnd};
ghost use Rattle.serde_json.specs.View.{view};
ghost use Rattle.njh_ctl.specs.Answers.{count_in};
ghost use Rattle.njh_ctl.specs.Shown.{Adds, AreFaults, AreRepliesShown, AreUsers, Grows, IsCustomerRow, IsFault};
ghost use Rattle.njh_ctl.specs.Shown.{IsFileRow, IsReply, IsSince, IsStatusShown, IsSums, IsTally, IsUser, IsWay};
ghost use Rattle.njh_ctl.specs.Shown.{Rows, bytes_text, user_text};
ghost use Rattle.njh_ctl.specs.Faults.{IsPlain};

use crate::answers::{count_in, list_in, member, text_in};
use crate::fault::CtlFault;
use crate::figures::{gravity_text, limits_text, list_or_none, show_intended, show_room};
use jiff::Timestamp;
use serde_json::Value;
use std::alloc::{AllocError, Global};

/// What stands above customers.
pub(crate) const CUSTOMERS: &str =
    "CUSTOMER  QUOTA   USED  READY   HELD REFUSED SENDING ARRIVED   MOST TURNEDAWAY OLDEST\n";

/// What stands above files.
pub(crate) const FILES: &str =
    "CUSTOMER FILE           KIND STATE    RECORDS BLOCKS SINCE                \
    LINE     OWNER             FOR\n";

/// Tells how the hub is.
pub(crate) fn show_status(alloc: Global, value: &Value, out: &mut String) -> Result<(), CtlFault>
    ensures shown { OnOk result (Adds (IsStatusShown (view value.now)) out.old out.new) }
    ensures fault { IfErr result IsPlain }
{
    let version = text_in(value, "version")?;
    let since = moment_text(alloc, count_in(value, "since")?)?;
    let since = since.as_str();
    add(out, format!(in alloc; "njehub {version}, since {since}\n"))?;
    show_sums(alloc, value, out)?;
    show_bytes(alloc, value, out)?;
    show_room(alloc, value, out)?;
    let troubles = list_or_none(value, "wrong");
    show_faults(alloc, list_in(value, "faults")?, troubles, out)?;
    show_intended(alloc, value, out)
}

/// Tells what all customers have together.
fn show_sums(alloc: Global, value: &Value, out: &mut String) -> Result<(), CtlFault>
    ensures shown { OnOk result (Adds (IsSums (view value.now)) out.old out.new) }
    ensures fault { IfErr result IsPlain }
{
    let customers = count_in(value, "customers")?;
    let files = count_in(value, "files")?;
    let lines = member(value, "lines")?;
    let up = count_in(lines, "up")?;
    let all = count_in(lines, "all")?;
    let blocks = member(value, "blocks")?;
    let used = count_in(blocks, "used")?;
    let left = count_in(blocks, "left")?;
    add(
        out,
        format!(in alloc; "customers {customers}, lines up {up} of {all}\n"),
    )?;
    add(
        out,
        format!(in alloc; "files {files}, blocks {used} used and {left} left\n"),
    )
}

/// Tells how large the spool file is, where that is known.
fn show_bytes(alloc: Global, value: &Value, out: &mut String) -> Result<(), CtlFault>
    ensures shown { OnOk result (Grows (bytes_text (count_in (codes "file_bytes") (view value.now))) out.old out.new) }
    ensures fault { IfErr result IsPlain }
{
    match value.get("file_bytes").and_then(Value::as_u64) {
        Some(bytes) => add(out, format!(in alloc; "spool file {bytes} bytes\n")),
        None => Ok(()),
    }
}

/// Tells what is wrong now.
fn show_faults(
    alloc: Global,
    faults: &[Value],
    troubles: &[Value],
    out: &mut String,
) -> Result<(), CtlFault>
    ensures shown { OnOk result (Adds (AreFaults (map view faults.now)) out.old out.new) }
    ensures fault { IfErr result IsPlain }
{
    if faults.is_empty() {
        return add(out, String::from_str(alloc, "nothing is wrong\n"));
    }
    for fault in faults {
        show_fault(alloc, fault, troubles, out)?;
    }
    Ok(())
}

fn show_fault(
    alloc: Global,
    fault: &Value,
    troubles: &[Value],
    out: &mut String,
) -> Result<(), CtlFault>
    ensures shown { OnOk result (Adds (IsFault (view fault.now)) out.old out.new) }
    ensures fault { IfErr result IsPlain }
{
    match fault.as_str() {
        Some(fault) => {
            let gravity = gravity_text(alloc, troubles, fault)?;
            let gravity = gravity.as_str();
            add(out, format!(in alloc; "wrong: {fault}\n{gravity}"))
        }
        None => Err(CtlFault::NotUnderstood),
    }
}

/// Tells of customers.
pub(crate) fn show_customers(
    alloc: Global,
    customers: &[Value],
    out: &mut String,
) -> Result<(), CtlFault>
    ensures shown { OnOk result (Adds (Rows IsCustomerRow (map view customers.now)) out.old out.new) }
    ensures fault { IfErr result IsPlain }
{
    for customer in customers {
        show_customer(alloc, customer, out)?;
    }
    Ok(())
}

fn show_customer(alloc: Global, customer: &Value, out: &mut String) -> Result<(), CtlFault>
    ensures shown { OnOk result (Adds (IsCustomerRow (view customer.now)) out.old out.new) }
    ensures fault { IfErr result IsPlain }
{
    let name = text_in(customer, "name")?;
    let quota = count_in(customer, "quota")?;
    let used = count_in(customer, "blocks")?;
    let arrived = count_in(customer, "arrived")?;
    add(out, format!(in alloc; "{name:<8} {quota:>6} {used:>6} "))?;
    show_tally(alloc, member(customer, "files")?, out)?;
    let limits = limits_text(alloc, customer)?;
    let limits = limits.as_str();
    add(out, format!(in alloc; "{arrived:>7}{limits}\n"))
}

/// Tells how many files are in each state.
fn show_tally(alloc: Global, files: &Value, out: &mut String) -> Result<(), CtlFault>
    ensures shown { OnOk result (Adds (IsTally (view files.now)) out.old out.new) }
    ensures fault { IfErr result IsPlain }
{
    let ready = count_in(files, "ready")?;
    let held = count_in(files, "held")?;
    let refused = count_in(files, "refused")?;
    let sending = count_in(files, "sending")?;
    add(
        out,
        format!(in alloc; "{ready:>6} {held:>6} {refused:>7} {sending:>7} "),
    )
}

/// Tells of a customer's files.
pub(crate) fn show_files(
    alloc: Global,
    customer: &str,
    files: &[Value],
    out: &mut String,
) -> Result<(), CtlFault>
    ensures shown { OnOk result (Adds (Rows (IsFileRow customer.now) (map view files.now)) out.old out.new) }
    ensures fault { IfErr result IsPlain }
{
    for file in files {
        show_file(alloc, customer, file, out)?;
    }
    Ok(())
}

fn show_file(alloc: Global, customer: &str, file: &Value, out: &mut String) -> Result<(), CtlFault>
    ensures shown { OnOk result (Adds (IsFileRow customer.now (view file.now)) out.old out.new) }
    ensures fault { IfErr result IsPlain }
{
    let name = text_in(file, "name")?;
    let kind = text_in(file, "kind")?;
    let state = text_in(file, "state")?;
    let records = count_in(file, "records")?;
    let blocks = count_in(file, "blocks")?;
    add(
        out,
        format!(in alloc; "{customer:<8} {name:<14} {kind:<4} {state:<8} "),
    )?;
    add(out, format!(in alloc; "{records:>7} {blocks:>6} "))?;
    show_way(alloc, file, out)?;
    show_users(
        alloc,
        member(file, "owner")?,
        member(file, "destination")?,
        out,
    )
}

/// Tells since when a file is there, if that is known, and by which line it goes, if one leads to
/// its node.
fn show_way(alloc: Global, file: &Value, out: &mut String) -> Result<(), CtlFault>
    ensures shown { OnOk result (Adds (IsWay (view file.now)) out.old out.new) }
    ensures fault { IfErr result IsPlain }
{
    let since = since_of(alloc, file, "came")?;
    let since = since.as_str();
    let line = file
        .get("line")
        .and_then(Value::as_str)
        .unwrap_or("no route");
    add(out, format!(in alloc; "{since:<20} {line:<8} "))
}

/// Since when something is there, if a member says so.
pub(crate) fn since_of(alloc: Global, value: &Value, key: &str) -> Result<String, CtlFault>
    ensures since { IfOk result (λ since. IsSince (count_in key.now (view value.now)) (string_bytes since)) }
    ensures fault { IfErr result IsPlain }
{
    match value.get(key).and_then(Value::as_u64) {
        Some(moment) => moment_text(alloc, moment),
        None => Ok(String::from_str(alloc, "-")?),
    }
}

/// Tells whose a file is, and for whom.
fn show_users(
    alloc: Global,
    owner: &Value,
    destination: &Value,
    out: &mut String,
) -> Result<(), CtlFault>
    ensures shown { OnOk result (Adds (AreUsers (view owner.now) (view destination.now)) out.old out.new) }
    ensures fault { IfErr result IsPlain }
{
    let owner = user_text(alloc, owner)?;
    let owner = owner.as_str();
    let destination = user_text(alloc, destination)?;
    let destination = destination.as_str();
    add(out, format!(in alloc; "{owner:<17} {destination}\n"))
}

/// A user at a node, as `LYON.ANNA`; a node alone where there is no user.
pub(crate) fn user_text(alloc: Global, user: &Value) -> Result<String, CtlFault>
    ensures user { IfOk result (λ text. IsUser (view user.now) (string_bytes text)) }
    ensures fault { IfErr result IsPlain }
{
    let node = text_in(user, "node")?;
    let name = text_in(user, "user")?;
    Ok(owner_text(alloc, node, name)?)
}

/// A user at a node, by their names.
pub(crate) fn owner_text(alloc: Global, node: &str, user: &str) -> Result<String, AllocError>
    ensures { IfOk result (λ text. string_bytes text ≡ user_text node.now user.now) }
{
    if user.is_empty() {
        String::from_str(alloc, node)
    } else {
        format!(in alloc; "{node}.{user}")
    }
}

/// Tells what an order answered.
pub(crate) fn show_replies(alloc: Global, value: &Value, out: &mut String) -> Result<(), CtlFault>
    ensures shown { OnOk result (Adds (AreRepliesShown (view value.now)) out.old out.new) }
    ensures fault { IfErr result IsPlain }
{
    show_each_reply(alloc, list_in(value, "replies")?, out)
}

fn show_each_reply(alloc: Global, replies: &[Value], out: &mut String) -> Result<(), CtlFault>
    ensures shown { OnOk result (Adds (Rows IsReply (map view replies.now)) out.old out.new) }
    ensures fault { IfErr result IsPlain }
{
    for reply in replies {
        show_reply(alloc, reply, out)?;
    }
    Ok(())
}

fn show_reply(alloc: Global, reply: &Value, out: &mut String) -> Result<(), CtlFault>
    ensures shown { OnOk result (Adds (IsReply (view reply.now)) out.old out.new) }
    ensures fault { IfErr result IsPlain }
{
    match reply.as_str() {
        Some(reply) => add(out, format!(in alloc; "{reply}\n")),
        None => Err(CtlFault::NotUnderstood),
    }
}

/// Seconds since 1970, as a date and a time in UTC.
pub(crate) fn moment_text(alloc: Global, seconds: u64) -> Result<String, CtlFault>
    ensures fault { IfErr result IsPlain }
{
    match i64::try_from(seconds) {
        Ok(second) => match Timestamp::from_second(second) {
            Ok(time) => Ok(format!(in alloc; "{time}")?),
            Err(_) => Ok(format!(in alloc; "{seconds}")?),
        },
        Err(_) => Ok(format!(in alloc; "{seconds}")?),
    }
}

/// Adds a text, unless memory was refused for it.
pub(crate) fn add(out: &mut String, text: Result<String, AllocError>) -> Result<(), CtlFault>
    ensures added { OnOk result (IsOkAnd text (λ text. Grows (string_bytes text) out.old out.new)) }
    ensures fault { IfErr result IsPlain }
{
    let text = text?;
    out.push_str(text.as_str())?;
    Ok(())
}
