//! Why a line of a script that is to give a customer an order gives none.

ghost use Rattle.std.specs.Prelude.{◌≡◌, option_map};
ghost use Rattle.njh_check.specs.ScriptReasons.{reason_of_ends, reason_of_order, reason_of_order_words};
ghost use Rattle.njh_check.specs.ScriptReasons.{reason_of_text, reason_of_user, reason_of_user_parts, told};
ghost use Rattle.njh_replay.specs.FirstParts.{parts_behind};
ghost use Rattle.njh_replay.specs.ScriptOrders.{order_text, parts_of_user};

use crate::script_reason::{BadLine, ScriptReason};
use crate::script_reasons::alone;
use njh_ebcdic::Name;
use njh_replay::{customer_named, first_part, order_text, text_behind};
use njh_table::Tables;

/// What is wrong with what comes after `ORDER` or `TELL`, if anything is.
pub(crate) fn reason_of_order<'a>(tables: &Tables, behind: Option<&'a str>) -> Option<BadLine<'a>>
    ensures { option_map told result ≡ reason_of_order tables.now (parts_behind 32 behind.entry) }
{
    let Some(words) = behind else {
        return Some(alone(ScriptReason::NoCustomerName));
    };
    let (name, behind_name) = first_part(words, ' ');
    match customer_named(tables, name) {
        Some(_) => reason_of_order_words(behind_name),
        None => Some(BadLine {
            why: ScriptReason::NoCustomer,
            word: name,
        }),
    }
}

/// What is wrong with what comes after a customer's name.
fn reason_of_order_words<'a>(behind: Option<&'a str>) -> Option<BadLine<'a>>
    ensures { option_map told result ≡ reason_of_order_words (parts_behind 32 behind.entry) }
{
    let Some(words) = behind else {
        return Some(alone(ScriptReason::NoUserName));
    };
    let (user, behind_user) = first_part(words, ' ');
    reason_of_user_parts(user, text_behind(behind_user))
}

/// What is wrong with a user's word, and then with the text.
fn reason_of_user_parts<'a>(word: &'a str, text: &str) -> Option<BadLine<'a>>
    ensures { option_map told result ≡ reason_of_user_parts word.now (parts_of_user word.now) text.now }
{
    let (node, behind) = first_part(word, '.');
    let Some(behind) = behind else {
        return Some(BadLine {
            why: ScriptReason::NoUser,
            word,
        });
    };
    match first_part(behind, '.') {
        (user, None) => reason_of_ends(node, user, text),
        (_, Some(_)) => Some(BadLine {
            why: ScriptReason::NoUser,
            word,
        }),
    }
}

/// What is wrong with the names of a node and of a user there, and then with the text.
fn reason_of_ends<'a>(node: &'a str, user: &'a str, text: &str) -> Option<BadLine<'a>>
    ensures { option_map told result ≡ reason_of_ends node.now user.now text.now }
{
    match Name::of_text(node) {
        Ok(_) => reason_of_user(user, text),
        Err(_) => Some(BadLine {
            why: ScriptReason::BadNode,
            word: node,
        }),
    }
}

/// What is wrong with a user's name at a node, and then with the text.
fn reason_of_user<'a>(user: &'a str, text: &str) -> Option<BadLine<'a>>
    ensures { option_map told result ≡ reason_of_user user.now text.now }
{
    match Name::of_text(user) {
        Ok(_) => reason_of_text(text),
        Err(_) => Some(BadLine {
            why: ScriptReason::BadUser,
            word: user,
        }),
    }
}

/// What is wrong with the text of an order.
fn reason_of_text<'a>(text: &str) -> Option<BadLine<'a>>
    ensures { option_map told result ≡ reason_of_text (order_text text.now) }
{
    match order_text(text) {
        Ok(_) => None,
        Err(fault) => Some(alone(ScriptReason::Text { fault })),
    }
}
