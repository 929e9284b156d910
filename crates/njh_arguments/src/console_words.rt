//! The words of an operator's command.

ghost use Rattle.std.specs.Prelude.{◌≡◌, is_some, map, not, option_map, Some};
ghost use Rattle.njh_arguments.specs.Choices.{given_of};
ghost use Rattle.njh_arguments.specs.Commands.{asked, change_of_word, change_view, changed, changed_many};
ghost use Rattle.njh_arguments.specs.Commands.{command_alone, command_in, command_of_one, command_of_three};
ghost use Rattle.njh_arguments.specs.Commands.{command_of_two, has_choice, has_filter, has_flag, is_asked, is_many};
ghost use Rattle.njh_arguments.specs.Commands.{is_owned, is_plain, is_timed, listed, plain, shut_down, stopped, told};
ghost use Rattle.njh_arguments.specs.Commands.{view_of};

use crate::choices::{choice_by, owner_by};
use crate::console_command::{Change, ConsoleCommand, Owner};

/// What stands beside the words of a command.
#[derive(Clone, Copy)]
pub(crate) struct CommandOptions<'a> {
    /// The text of `--owner`.
    pub(crate) owner: Option<&'a str>,
    /// The text of `--node`.
    pub(crate) node: Option<&'a str>,
    /// The text of `--state`.
    pub(crate) state: Option<&'a str>,
    /// The text of `--kind`.
    pub(crate) kind: Option<&'a str>,
    /// The text of `--older`.
    pub(crate) older: Option<&'a str>,
    /// Whether `--when-idle` is set.
    pub(crate) when_idle: bool,
    /// Whether `--dry-run` is set.
    pub(crate) dry_run: bool,
    /// Whether `--quiet` is set.
    pub(crate) quiet: bool,
}

/// The command that words are, with the options beside them.
pub(crate) fn command_in<'a>(
    words: &[&'a str],
    given: CommandOptions<'a>,
) -> Option<ConsoleCommand<'a>>
    ensures { option_map view_of result ≡ command_in (map (λ word. word.now) words.now) (given_of given.entry) }
{
    match words {
        [word] => command_alone(word, given),
        [word, name] => command_of_one(word, name, given),
        [word, customer, name] => command_of_two(word, customer, name, given),
        [word, customer, file, node] => command_of_three(word, customer, file, node, given),
        [word, customer, node, user, text] => {
            told(word, customer, Owner { node, user }, text, given)
        }
        _ => None,
    }
}

/// The command that a word alone is.
fn command_alone<'a>(word: &str, given: CommandOptions<'a>) -> Option<ConsoleCommand<'a>>
    ensures { option_map view_of result ≡ command_alone word.now (given_of given.entry) }
{
    if word == "status" {
        asked(given)
    } else if word == "customers" {
        plain(ConsoleCommand::Customers, given)
    } else if word == "lines" {
        plain(ConsoleCommand::Lines { name: None }, given)
    } else if word == "files" {
        listed(None, given)
    } else if word == "shutdown" {
        shut_down(given)
    } else if word == "reload" {
        plain(ConsoleCommand::Reload, given)
    } else {
        None
    }
}

/// The command that a word with one name is.
fn command_of_one<'a>(
    word: &str,
    name: &'a str,
    given: CommandOptions<'a>,
) -> Option<ConsoleCommand<'a>>
    ensures { option_map view_of result ≡ command_of_one word.now name.now (given_of given.entry) }
{
    if word == "lines" {
        let name = Some(name);
        plain(ConsoleCommand::Lines { name }, given)
    } else if word == "messages" {
        plain(ConsoleCommand::Messages { line: name }, given)
    } else if word == "files" {
        listed(Some(name), given)
    } else if word == "stop" {
        stopped(name, given)
    } else if word == "start" {
        plain(ConsoleCommand::Start { line: name }, given)
    } else if word == "order" {
        plain(ConsoleCommand::Outcome { order: name }, given)
    } else if word == "diff" {
        plain(ConsoleCommand::Diff { file: name }, given)
    } else {
        changed_many(change_of_word(word)?, name, given)
    }
}

/// The command that a word with two names is.
fn command_of_two<'a>(
    word: &str,
    customer: &'a str,
    name: &'a str,
    given: CommandOptions<'a>,
) -> Option<ConsoleCommand<'a>>
    ensures { option_map view_of result ≡ command_of_two word.now customer.now name.now (given_of given.entry) }
{
    if word == "reroute" {
        changed_many(Change::Reroute(name), customer, given)
    } else {
        changed(change_of_word(word)?, customer, name, given)
    }
}

/// The command that a word with three names is.
fn command_of_three<'a>(
    word: &str,
    customer: &'a str,
    file: &'a str,
    node: &'a str,
    given: CommandOptions<'a>,
) -> Option<ConsoleCommand<'a>>
    ensures { option_map view_of result
        ≡ command_of_three word.now customer.now file.now node.now (given_of given.entry) }
{
    if word == "reroute" {
        changed(Change::Reroute(node), customer, file, given)
    } else {
        None
    }
}

/// The change that a word is.
fn change_of_word<'a>(word: &str) -> Option<Change<'a>>
    ensures { option_map change_view result ≡ change_of_word word.now }
{
    if word == "hold" {
        Some(Change::Hold)
    } else if word == "release" {
        Some(Change::Release)
    } else if word == "cancel" {
        Some(Change::Cancel)
    } else {
        None
    }
}

/// A command that has no options.
fn plain<'a>(command: ConsoleCommand<'a>, given: CommandOptions<'a>) -> Option<ConsoleCommand<'a>>
    ensures { option_map view_of result ≡ plain (view_of command.entry) (given_of given.entry) }
{
    if is_plain(given) { Some(command) } else { None }
}

/// How the hub is.
fn asked<'a>(given: CommandOptions<'a>) -> Option<ConsoleCommand<'a>>
    ensures { option_map view_of result ≡ asked (given_of given.entry) }
{
    if is_asked(given) {
        let quiet = given.quiet;
        Some(ConsoleCommand::Status { quiet })
    } else {
        None
    }
}

/// A list of files.
fn listed<'a>(customer: Option<&'a str>, given: CommandOptions<'a>) -> Option<ConsoleCommand<'a>>
    ensures { option_map view_of result
        ≡ listed (option_map (λ name. name.now) customer.entry) (given_of given.entry) }
{
    if has_flag(given) {
        return None;
    }
    let choice = choice_by(given)?;
    Some(ConsoleCommand::Files { customer, choice })
}

/// A change of files of a name.
fn changed<'a>(
    change: Change<'a>,
    customer: &'a str,
    file: &'a str,
    given: CommandOptions<'a>,
) -> Option<ConsoleCommand<'a>>
    ensures { option_map view_of result
        ≡ changed (change_view change.entry) customer.now file.now (given_of given.entry) }
{
    if !is_owned(given) {
        return None;
    }
    let owner = owner_by(given.owner)?;
    Some(ConsoleCommand::Change {
        change,
        customer,
        file,
        owner,
    })
}

/// A change of files that are chosen.
fn changed_many<'a>(
    change: Change<'a>,
    customer: &'a str,
    given: CommandOptions<'a>,
) -> Option<ConsoleCommand<'a>>
    ensures { option_map view_of result
        ≡ changed_many (change_view change.entry) customer.now (given_of given.entry) }
{
    if !is_many(given) {
        return None;
    }
    let choice = choice_by(given)?;
    Some(ConsoleCommand::ChangeMany {
        change,
        customer,
        choice,
        dry_run: given.dry_run,
    })
}

/// A message to a user.
fn told<'a>(
    word: &str,
    customer: &'a str,
    user: Owner<'a>,
    text: &'a str,
    given: CommandOptions<'a>,
) -> Option<ConsoleCommand<'a>>
    ensures { option_map view_of result
        ≡ told word.now customer.now user.entry.node.now user.entry.user.now text.now (given_of given.entry) }
{
    if word != "tell" {
        return None;
    }
    let command = ConsoleCommand::Tell {
        customer,
        node: user.node,
        user: user.user,
        text,
    };
    plain(command, given)
}

/// The end of a line's connection.
fn stopped<'a>(line: &'a str, given: CommandOptions<'a>) -> Option<ConsoleCommand<'a>>
    ensures { option_map view_of result ≡ stopped line.now (given_of given.entry) }
{
    if is_timed(given) {
        let when_idle = given.when_idle;
        Some(ConsoleCommand::Stop { line, when_idle })
    } else {
        None
    }
}

/// The end of the service.
fn shut_down<'a>(given: CommandOptions<'a>) -> Option<ConsoleCommand<'a>>
    ensures { option_map view_of result ≡ shut_down (given_of given.entry) }
{
    if is_timed(given) {
        let when_idle = given.when_idle;
        Some(ConsoleCommand::Shutdown { when_idle })
    } else {
        None
    }
}

/// Whether nothing stands beside the words.
fn is_plain(given: CommandOptions<'_>) -> bool
    ensures { result ≡ is_plain (given_of given.entry) }
{
    !has_choice(given) && !has_flag(given)
}

/// Whether at most `--quiet` stands beside the words.
fn is_asked(given: CommandOptions<'_>) -> bool
    ensures { result ≡ is_asked (given_of given.entry) }
{
    !has_choice(given) && !given.when_idle && !given.dry_run
}

/// Whether at most `--when-idle` stands beside the words.
fn is_timed(given: CommandOptions<'_>) -> bool
    ensures { result ≡ is_timed (given_of given.entry) }
{
    !has_choice(given) && !given.dry_run && !given.quiet
}

/// Whether at most `--owner` stands beside the words.
fn is_owned(given: CommandOptions<'_>) -> bool
    ensures { result ≡ is_owned (given_of given.entry) }
{
    !has_filter(given) && !has_flag(given)
}

/// Whether an option that chooses files stands beside the words, and at most `--dry-run` besides.
fn is_many(given: CommandOptions<'_>) -> bool
    ensures { result ≡ is_many (given_of given.entry) }
{
    has_choice(given) && !given.when_idle && !given.quiet
}

/// Whether an option that chooses files stands beside the words.
fn has_choice(given: CommandOptions<'_>) -> bool
    ensures { result ≡ has_choice (given_of given.entry) }
{
    is_present(given.owner) || has_filter(given)
}

/// Whether one does that is another than `--owner`.
fn has_filter(given: CommandOptions<'_>) -> bool
    ensures { result ≡ has_filter (given_of given.entry) }
{
    is_present(given.node)
        || is_present(given.state)
        || is_present(given.kind)
        || is_present(given.older)
}

/// Whether a flag stands beside the words.
fn has_flag(given: CommandOptions<'_>) -> bool
    ensures { result ≡ has_flag (given_of given.entry) }
{
    given.when_idle || given.dry_run || given.quiet
}

/// Whether an option is given.
fn is_present(text: Option<&str>) -> bool
    ensures { result ≡ is_some (option_map (λ t. t.now) text.entry) }
{
    match text {
        Some(_) => true,
        None => false,
    }
}
