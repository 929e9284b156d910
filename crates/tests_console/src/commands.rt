//! Commands to a console whose answers are stored: of each command the requests that were sent, and
//! what is told of the answers.

use crate::stored::{Reach, Stored};
use crate::stored_answers::{
    ANOTHER, BAD_TABLES, CUSTOMERS, FILES, LAST_FILES, LINES, MANY, NEW_ROUTES, NO_FILES,
    NO_MEMORY, NO_REPLIES, NOT_DONE, QUEUES, REPLIES, RIGHT, STATUS, TAKEN, TOO_LATE, UNKNOWN,
};
use njh_arguments::{Change, Choice, ConsoleCommand, FileKind, FileState, Owner};
use njh_ctl::{CtlFault, Ending, Giver, Operator};
use std::io;

/// What the names of all orders have.
const MARK: u64 = 483_920_184_756;

/// All files.
const ALL: Choice<'static> = Choice {
    owner: None,
    node: None,
    state: None,
    kind: None,
    age: None,
};

/// Tries each.
pub(crate) fn try_each<R: Print + AllocGlobal>(rt: &R) -> io::Result<()> {
    states_of_hub(rt)?;
    lines(rt)?;
    messages(rt)?;
    files(rt)?;
    orders(rt)?;
    many(rt)?;
    lost(rt)?;
    tables(rt)?;
    refusals(rt)
}

/// A reload, what another table file would change, and a fault of it.
fn tables<R: Print + AllocGlobal>(rt: &R) -> io::Result<()> {
    let diff = ConsoleCommand::Diff { file: "/new" };
    let read = [(202, TAKEN), (200, NEW_ROUTES)];
    play(rt, ConsoleCommand::Reload, false, &read)?;
    play(rt, diff, true, &read)?;
    play(rt, diff, false, &[(202, TAKEN), (200, BAD_TABLES)])
}

/// How a hub is, and its customers.
fn states_of_hub<R: Print + AllocGlobal>(rt: &R) -> io::Result<()> {
    let told = ConsoleCommand::Status { quiet: false };
    let looked = ConsoleCommand::Status { quiet: true };
    play(rt, told, false, &[(200, STATUS)])?;
    play(rt, told, true, &[(200, STATUS)])?;
    play(rt, looked, false, &[(200, STATUS)])?;
    play(rt, looked, true, &[(200, RIGHT)])?;
    play(rt, ConsoleCommand::Customers, false, &[(200, CUSTOMERS)])
}

/// Lines: of a customer, of all, and that of a name.
fn lines<R: Print + AllocGlobal>(rt: &R) -> io::Result<()> {
    let all = [(200, CUSTOMERS), (200, LINES), (200, LINES)];
    let one = [(200, CUSTOMERS), (200, LINES)];
    play(rt, lines_of(Some("ACME")), false, &one)?;
    play(rt, lines_of(None), false, &all)?;
    play(rt, lines_of(Some("ACME")), true, &one)?;
    play(rt, lines_of(Some("a2")), false, &all)?;
    play(rt, lines_of(Some("a2")), true, &all)?;
    play(rt, lines_of(Some("a9")), false, &all)?;
    play(rt, lines_of(Some("a9")), true, &all)
}

fn lines_of(name: Option<&str>) -> ConsoleCommand<'_> {
    ConsoleCommand::Lines { name }
}

/// Messages of the line of a name: that wait or don't, of a line that isn't served, of one that a
/// hub tells nothing of, and of a name that only a customer has.
fn messages<R: Print + AllocGlobal>(rt: &R) -> io::Result<()> {
    let some = [(200, CUSTOMERS), (200, LINES), (200, QUEUES)];
    play(rt, messages_of("a2"), false, &some)?;
    play(rt, messages_of("a2"), true, &some)?;
    play(rt, messages_of("b1"), false, &some)?;
    play(rt, messages_of("b2"), false, &some)?;
    play(rt, messages_of("a1"), false, &some)?;
    play(rt, messages_of("BOLT"), false, &some)?;
    play(rt, messages_of("BOLT"), true, &some)
}

fn messages_of(line: &str) -> ConsoleCommand<'_> {
    ConsoleCommand::Messages { line }
}

/// Files: all, and those that are chosen.
fn files<R: Print + AllocGlobal>(rt: &R) -> io::Result<()> {
    let both = [(200, FILES), (200, LAST_FILES)];
    play(rt, files_of(ALL), false, &both)?;
    play(rt, files_of(ALL), true, &both)?;
    play(rt, files_of(ALL), false, &[(200, NO_FILES)])?;
    let held = Some(FileState::Held);
    let node = Some("METZ");
    play(
        rt,
        files_of(Choice {
            node,
            state: held,
            ..ALL
        }),
        false,
        &both,
    )?;
    play(
        rt,
        files_of(Choice {
            node,
            state: held,
            ..ALL
        }),
        true,
        &both,
    )?;
    let kind = Some(FileKind::Out);
    play(rt, files_of(Choice { kind, ..ALL }), false, &both)?;
    let age = Some(8 * 86_400);
    play(rt, files_of(Choice { age, ..ALL }), false, &both)?;
    let age = Some(8 * 86_400 + 1);
    play(rt, files_of(Choice { age, ..ALL }), false, &both)?;
    let owner = Some(ANNA);
    play(rt, files_of(Choice { owner, ..ALL }), true, &both)
}

fn files_of(choice: Choice<'_>) -> ConsoleCommand<'_> {
    ConsoleCommand::Files {
        customer: Some("ACME"),
        choice,
    }
}

/// An owner of files.
const ANNA: Owner<'static> = Owner {
    node: "LYON",
    user: "ANNA",
};

/// Orders to a hub.
fn orders<R: Print + AllocGlobal>(rt: &R) -> io::Result<()> {
    let answers = [(202, TAKEN), (200, REPLIES)];
    play(rt, change(Change::Hold, None), false, &answers)?;
    play(rt, change(Change::Release, Some(ANNA)), false, &answers)?;
    play(rt, change(Change::Cancel, Some(ANNA)), true, &answers)?;
    play(
        rt,
        change(Change::Reroute("PARIS"), Some(ANNA)),
        false,
        &answers,
    )?;
    let not_done = [(202, TAKEN), (200, NOT_DONE)];
    play(rt, change(Change::Hold, None), false, &not_done)?;
    play(rt, change(Change::Hold, None), true, &not_done)?;
    let tell = ConsoleCommand::Tell {
        customer: "ACME",
        node: "LYON",
        user: "ANNA",
        text: "THE HUB STOPS AT \"SIX\"",
    };
    play(rt, tell, false, &[(202, TAKEN), (200, NO_REPLIES)])?;
    states(rt)?;
    outcomes(rt)
}

/// What becomes of lines and of the service, of which the end isn't told if it comes at once.
fn states<R: Print + AllocGlobal>(rt: &R) -> io::Result<()> {
    let line = "a1";
    let done = [(202, TAKEN), (200, NO_REPLIES)];
    let when_idle = true;
    play(rt, ConsoleCommand::Stop { line, when_idle }, false, &done)?;
    play(rt, ConsoleCommand::Start { line }, false, &done)?;
    play(rt, ConsoleCommand::Start { line }, true, &done)?;
    play(rt, ConsoleCommand::Shutdown { when_idle }, false, &done)?;
    let end = ConsoleCommand::Shutdown { when_idle: false };
    play(rt, end, false, &[(202, TAKEN)])?;
    play(rt, end, true, &[(202, TAKEN)])
}

/// What came of an order, which is asked by its name and by its number, and of orders that are
/// refused when that is asked.
fn outcomes<R: Print + AllocGlobal>(rt: &R) -> io::Result<()> {
    let by_name = ConsoleCommand::Outcome { order: "anna-7" };
    play(rt, by_name, false, &[(200, REPLIES)])?;
    play(rt, by_name, true, &[(200, NOT_DONE)])?;
    play(rt, by_name, false, &[(410, TOO_LATE)])?;
    let by_number = ConsoleCommand::Outcome { order: "7" };
    play(rt, by_number, false, &[(200, NO_REPLIES)])?;
    play(rt, by_number, false, &[(500, NO_MEMORY)])?;
    play(rt, ConsoleCommand::Outcome { order: "a 7" }, false, &[])?;
    let hold = change(Change::Hold, None);
    play(rt, hold, false, &[(202, TAKEN), (410, TOO_LATE)])?;
    play(rt, hold, true, &[(202, TAKEN), (500, NO_MEMORY)])
}

/// Connections that end between two requests, or before an answer: what was asked is asked anew, and
/// what came of an order of which no answer comes is asked once more.
fn lost<R: Print + AllocGlobal>(rt: &R) -> io::Result<()> {
    let hold = change(Change::Hold, None);
    let files: [&[(u16, &str)]; 2] = [&[(200, FILES)], &[(200, LAST_FILES)]];
    play_over(rt, files_of(ALL), false, &files)?;
    play_over(rt, hold, false, &[&[], &[(202, TAKEN), (200, REPLIES)]])?;
    play_over(rt, hold, true, &[&[(202, TAKEN)], &[(200, NOT_DONE)]])?;
    play_over(rt, hold, false, &[&[(500, NO_MEMORY)], &[(410, TOO_LATE)]])?;
    play_over(rt, hold, false, &[&[(200, "no JSON")], &[(404, UNKNOWN)]])?;
    play_over(rt, hold, false, &[&[(200, "no JSON")], &[(404, ANOTHER)]])?;
    play_over(rt, hold, false, &[&[]])?;
    let state = Some(FileState::Ready);
    let ready = Choice { state, ..ALL };
    let twice: [&[(u16, &str)]; 2] = [&[(200, MANY)], &[(202, TAKEN)]];
    play_over(rt, change_many(Change::Hold, ready, false), false, &twice)?;
    play_over(rt, hold, false, &[])
}

fn change<'a>(change: Change<'a>, owner: Option<Owner<'a>>) -> ConsoleCommand<'a> {
    ConsoleCommand::Change {
        change,
        customer: "ACME",
        file: "LYON.42",
        owner,
    }
}

/// Orders for files that are chosen: of LYON.42 of ANNA one of two is ready, LYON.42 of PAUL and
/// LYON.43 of ANNA twice are, and so are LYON.44 and LYON.45, which the hub refuses and doesn't do.
fn many<R: Print + AllocGlobal>(rt: &R) -> io::Result<()> {
    let answers = [
        (200, MANY),
        (202, TAKEN),
        (200, REPLIES),
        (202, TAKEN),
        (200, REPLIES),
        (404, "{\"error\":\"the customer has no file LYON.44\"}"),
        (202, TAKEN),
        (200, NOT_DONE),
    ];
    let state = Some(FileState::Ready);
    let ready = Choice { state, ..ALL };
    play(rt, change_many(Change::Hold, ready, false), false, &answers)?;
    play(
        rt,
        change_many(Change::Reroute("PARIS"), ready, false),
        true,
        &answers,
    )?;
    play(
        rt,
        change_many(Change::Cancel, ready, true),
        false,
        &[(200, MANY)],
    )?;
    play(
        rt,
        change_many(Change::Cancel, ready, true),
        true,
        &[(200, MANY)],
    )?;
    let owner = Some(ANNA);
    let of_anna = Choice { owner, ..ALL };
    play(
        rt,
        change_many(Change::Release, of_anna, true),
        false,
        &[(200, MANY)],
    )?;
    let kind = Some(FileKind::In);
    let jobs = Choice { kind, ..ALL };
    play(
        rt,
        change_many(Change::Cancel, jobs, false),
        false,
        &[(200, MANY)],
    )
}

fn change_many<'a>(change: Change<'a>, choice: Choice<'a>, dry_run: bool) -> ConsoleCommand<'a> {
    ConsoleCommand::ChangeMany {
        change,
        customer: "ACME",
        choice,
        dry_run,
    }
}

/// Answers that refuse, and those that aren't a console's.
fn refusals<R: Print + AllocGlobal>(rt: &R) -> io::Result<()> {
    let refused = [(404, "{\"error\":\"the customer has no file LYON.42\"}")];
    play(rt, change(Change::Hold, None), false, &refused)?;
    let refused = [(404, "{\"error\":\"no customer is called ACME\"}")];
    play(rt, files_of(ALL), false, &refused)?;
    play(rt, ConsoleCommand::Start { line: "a/1" }, false, &[])?;
    let status = ConsoleCommand::Status { quiet: false };
    play(rt, status, false, &[(200, "no JSON")])?;
    play(rt, status, false, &[(200, "{}")])?;
    play(rt, status, false, &[])
}

/// Carries out a command over stored answers.
fn play<R: Print + AllocGlobal>(
    rt: &R,
    command: ConsoleCommand<'_>,
    json: bool,
    answers: &[(u16, &str)],
) -> io::Result<()> {
    let stored = Stored::of_one(rt.alloc(), answers)?;
    play_on(rt, command, json, &stored)
}

/// Carries out a command over connections, each with stored answers, one after another. If its
/// answer is lost it is asked once more.
fn play_over<R: Print + AllocGlobal>(
    rt: &R,
    command: ConsoleCommand<'_>,
    json: bool,
    connections: &[&[(u16, &str)]],
) -> io::Result<()> {
    let stored = Stored::of(rt.alloc(), connections)?;
    play_on(rt, command, json, &stored)
}

/// Carries out a command on a stored console, and prints what was sent, what is told and how it ends.
fn play_on<R: Print + AllocGlobal>(
    rt: &R,
    command: ConsoleCommand<'_>,
    json: bool,
    stored: &Stored,
) -> io::Result<()> {
    let alloc = rt.alloc();
    let mut told = String::new(alloc);
    let reach = Reach { alloc, stored };
    let ended = ended_by(reach, json, &command, &mut told);
    stored.show_sent(rt)?;
    print!(rt; "{told}")?;
    show_end(rt, ended)
}

/// How a command ends, and what is told of it.
fn ended_by(
    reach: Reach<'_>,
    json: bool,
    command: &ConsoleCommand<'_>,
    told: &mut String,
) -> Result<Ending, CtlFault> {
    let by = String::from_str(reach.alloc, "anna")?;
    let giver = Giver::new(reach.alloc, by, MARK);
    let mut operator = Operator::new(reach.alloc, reach, json, giver)?;
    let ended = match operator.carry_out(command) {
        Err(CtlFault::Lost(name)) => operator.ask_again(name),
        ended => ended,
    };
    told.push_str(operator.text())?;
    ended
}

fn show_end<R: Print>(rt: &R, ended: Result<Ending, CtlFault>) -> io::Result<()> {
    match ended {
        Ok(Ending::Done) => println!(rt; "--- done"),
        Ok(Ending::TurnedDown) => println!(rt; "--- not done, or not for all"),
        Ok(Ending::Wrong) => println!(rt; "--- wrong"),
        Err(fault) => println!(rt; "--- {fault}"),
    }
}
