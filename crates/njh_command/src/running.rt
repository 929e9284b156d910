//! What a user's command does.

ghost use Rattle.std.specs.Prelude.{◌≡◌, ◌<◌, ◌∷◌, [], fold, length, slice_set};
ghost use Rattle.njh_spool.specs.Spools.{spool_at};
ghost use Rattle.njh_table.specs.TableFile.{customer_at, entry_of};
ghost use Rattle.njh_command.specs.code.Changes.{is_chosen};
ghost use Rattle.njh_command.specs.Commands.{message_outcome, count, command_outcome, rerouted_by};
ghost use Rattle.njh_command.specs.Commands.{where_found, spool_after, without_file};

use crate::cancelling::cancel_files;
use crate::changing::{Change, change_files};
use crate::choice::{Choice, is_chosen};
use crate::command::Command;
use crate::listing::list_files;
use crate::replies::Replies;
use crate::senders::Senders;
use njh_ebcdic::Name;
use njh_header::User;
use njh_spool::Spool;
use njh_table::{Route, Tables};
use njh_texts::{MessageText, bad_command, no_files_for, node_unknown, not_found};

/// Who says a command.
#[derive(Clone, Copy, Debug, PartialEq, Eq)]
pub struct Originator {
    /// The user, by node and user field.
    pub who: User,
    /// The customer on whose line the command came.
    pub customer: u16,
}

/// Does what a message of a user to the hub says, or answers that it is no command.
pub fn obey<S: Senders>(
    message: &[u8],
    from: Originator,
    tables: &Tables,
    spool: &mut Spool,
    senders: &mut S,
    replies: &mut Replies,
)
    requires known { from.customer < length tables.now.customers }
    requires range { from.customer < length spool.old }
    ensures replies { replies.new
        ≡ (message_outcome (entry_of (customer_at tables.now from.customer)) from.who message.now
        (spool_at from.customer spool.old)).replies }
    ensures spool { spool.new ≡ slice_set spool.old from.customer
        (spool_after (message_outcome (entry_of (customer_at tables.now from.customer)) from.who message.now
        (spool_at from.customer spool.old)) (spool_at from.customer spool.old)) }
    ensures senders { senders.new ≡ fold (λ x n. S.each x (without_file n)) senders.old
        (message_outcome (entry_of (customer_at tables.now from.customer)) from.who message.now
        (spool_at from.customer spool.old)).cancelled }
{
    match Command::read(message) {
        Ok(command) => run(command, from, tables, spool, senders, replies),
        Err(_) => replies.put_one(bad_command()),
    }
}

/// Does what a user commands, to the user's own whole files alone, in their order of arrival, and
/// says what is replied. A file that is removed while it is being sent is given up by the
/// customer's streams.
pub fn run<S: Senders>(
    command: Command,
    from: Originator,
    tables: &Tables,
    spool: &mut Spool,
    senders: &mut S,
    replies: &mut Replies,
)
    requires known { from.customer < length tables.now.customers }
    requires range { from.customer < length spool.old }
    ensures replies { replies.new
        ≡ (command_outcome (entry_of (customer_at tables.now from.customer)) from.who command
        (spool_at from.customer spool.old)).replies }
    ensures spool { spool.new ≡ slice_set spool.old from.customer
        (spool_after (command_outcome (entry_of (customer_at tables.now from.customer)) from.who command
        (spool_at from.customer spool.old)) (spool_at from.customer spool.old)) }
    ensures senders { senders.new ≡ fold (λ x n. S.each x (without_file n)) senders.old
        (command_outcome (entry_of (customer_at tables.now from.customer)) from.who command
        (spool_at from.customer spool.old)).cancelled }
{
    let Originator { who, customer } = from;
    match command {
        Command::List => list_files(who, spool, customer, replies),
        Command::Hold(name) => {
            change_files(
                &Change::Hold,
                &Choice {
                    who,
                    name,
                    customer,
                },
                spool,
                replies,
            )
        }
        Command::Release(name) => {
            change_files(
                &Change::Release,
                &Choice {
                    who,
                    name,
                    customer,
                },
                spool,
                replies,
            )
        }
        Command::Cancel(name) => {
            cancel_files(
                &Choice {
                    who,
                    name,
                    customer,
                },
                spool,
                senders,
                replies,
            )
        }
        Command::Reroute(name, node) => {
            reroute_files(
                &Choice {
                    who,
                    name,
                    customer,
                },
                node,
                tables,
                spool,
                replies,
            )
        }
    }
}

/// Sends files to another node, where the hub has a route for it.
fn reroute_files(
    choice: &Choice,
    node: Name,
    tables: &Tables,
    spool: &mut Spool,
    replies: &mut Replies,
)
    requires known { choice.now.customer < length tables.now.customers }
    requires range { choice.now.customer < length spool.old }
    ensures replies { replies.new
        ≡ (rerouted_by (entry_of (customer_at tables.now choice.now.customer)) node choice.now.who choice.now.name
        (spool_at choice.now.customer spool.old)).replies }
    ensures spool { spool.new ≡ slice_set spool.old choice.now.customer
        (spool_after (rerouted_by (entry_of (customer_at tables.now choice.now.customer)) node choice.now.who
        choice.now.name (spool_at choice.now.customer spool.old)) (spool_at choice.now.customer spool.old)) }
{
    match tables.route(choice.customer, node) {
        Route::Here => {
            let hub = tables.customer(choice.customer).hub();
            refused(choice, no_files_for(hub), spool, replies)
        }
        Route::Line(_) => change_files(&Change::Reroute(node), choice, spool, replies),
        Route::Unknown => refused(choice, node_unknown(node), spool, replies),
    }
}

/// Why the files don't go there, or that there are none.
fn refused(choice: &Choice, text: MessageText, spool: &Spool, replies: &mut Replies)
    requires { choice.now.customer < length spool.now }
    ensures { replies.new
        ≡ where_found (count (is_chosen choice.now) (spool_at choice.now.customer spool.now)) choice.now.name
        (text.items ∷ []) }
{
    match count_files(choice, spool) {
        0 => replies.put_one(not_found(choice.name)),
        _ => replies.put_one(text),
    }
}

/// How many files there are of them.
fn count_files(choice: &Choice, spool: &Spool) -> u32
    requires { choice.now.customer < length spool.now }
    ensures { result ≡ count (is_chosen choice.now) (spool_at choice.now.customer spool.now) }
{
    let mut count = 0;
    for index in 0..spool.files(choice.customer) {
        if is_chosen(choice, spool, index) {
            count += 1;
        }
    }
    count
}
