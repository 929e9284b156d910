//! Tries the console and what asks it. The input has a section for each subject, behind a line that
//! begins with `==` and names it: what requests ask for, what is answered, visitors of a console, and
//! commands of ctl, whose answers are stored.
#![tactic(auto)]

mod answers;
mod asked;
mod bureau;
mod commands;
mod pipe;
mod requests;
mod script;
mod stored;
mod stored_answers;
mod visitors;

use std::io;

/// Tries a subject on the lines of its section.
fn try_subject<R: Print + AllocGlobal>(rt: &R, subject: &str, lines: &str) -> io::Result<()> {
    match subject {
        "what requests ask for" => requests::try_each(rt, lines),
        "what is answered" => answers::try_each(rt, lines),
        "visitors of a console" => visitors::try_each(rt, lines),
        "commands of ctl" => commands::try_each(rt),
        _ => Err(asked::bad()),
    }
}

fn main(rt: HostRuntime) -> io::Result<()> {
    let text = io::read_to_string(rt.alloc(), rt.stdin())?;
    for section in text.as_str().split("== ").skip(1) {
        let (subject, lines) = section.split_once('\n').unwrap_or((section, ""));
        println!(rt; "== {subject}")?;
        try_subject(&rt, subject, lines)?;
    }
    Ok(())
}
