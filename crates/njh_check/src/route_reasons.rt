//! Why a line of a script that is to give a customer routes gives none.

ghost use Rattle.std.specs.Prelude.{◌≡◌, ◌<◌, Some, length, option_map, IfOk};
ghost use Rattle.njh_check.specs.ScriptReasons.{reason_by, reason_of_given, reason_of_lines, reason_of_pair};
ghost use Rattle.njh_check.specs.ScriptReasons.{reason_of_pairs, reason_of_routes, reason_of_second, told};
ghost use Rattle.njh_replay.specs.ScriptRoutes.{routes_of_pairs};
ghost use Rattle.njh_replay.specs.FirstParts.{parts_behind};

use crate::script_reason::{BadLine, ScriptReason};
use crate::script_reasons::alone;
use njh_ebcdic::Name;
use njh_replay::{customer_named, first_part, routes_of_pairs};
use njh_table::Tables;
use std::alloc::{AllocError, Global};

/// What is wrong with what comes after `ROUTES`, if anything is. Out of memory is the only
/// refusal.
pub(crate) fn reason_of_routes<'a>(
    alloc: Global,
    tables: &Tables,
    behind: Option<&'a str>,
) -> Result<Option<BadLine<'a>>, AllocError>
    ensures { IfOk result (λ bad. option_map told bad
        ≡ reason_of_routes tables.now (parts_behind 32 behind.entry)) }
{
    let Some(words) = behind else {
        return Ok(Some(alone(ScriptReason::NoCustomerName)));
    };
    let (name, pairs) = first_part(words, ' ');
    match customer_named(tables, name) {
        Some(customer) => reason_for(alloc, tables, customer, pairs),
        None => Ok(Some(BadLine {
            why: ScriptReason::NoCustomer,
            word: name,
        })),
    }
}

/// What is wrong with pairs for a customer: one of them, or else all together.
fn reason_for<'a>(
    alloc: Global,
    tables: &Tables,
    customer: u16,
    pairs: Option<&'a str>,
) -> Result<Option<BadLine<'a>>, AllocError>
    requires { customer < length tables.now.customers }
    ensures { IfOk result (λ bad. option_map told bad
        ≡ reason_of_given tables.now (parts_behind 32 pairs.entry) customer
        (routes_of_pairs tables.now (parts_behind 32 pairs.entry))) }
{
    match routes_of_pairs(alloc, tables, pairs)? {
        None => Ok(reason_of_pairs(tables, pairs)),
        Some(routes) => match tables.check_routes(customer, &routes) {
            Ok(()) => Ok(None),
            Err(fault) => Ok(Some(alone(ScriptReason::Routes { fault }))),
        },
    }
}

/// What is wrong with the first pair that is no route.
fn reason_of_pairs<'a>(tables: &Tables, pairs: Option<&'a str>) -> Option<BadLine<'a>>
    ensures { option_map told result ≡ reason_of_pairs tables.now (parts_behind 32 pairs.entry) }
{
    let mut left = pairs;
    while let Some(text) = left {
        let (pair, behind) = first_part(text, ' ');
        let reason = reason_of_pair(tables, pair);
        if reason.is_some() {
            return reason;
        }
        left = behind;
    }
    None
}

/// What is wrong with a pair.
fn reason_of_pair<'a>(tables: &Tables, pair: &'a str) -> Option<BadLine<'a>>
    ensures { option_map told result ≡ reason_of_pair tables.now pair.now }
{
    let (node, lines) = first_part(pair, ':');
    let Some(lines) = lines else {
        return Some(BadLine {
            why: ScriptReason::NoColon,
            word: pair,
        });
    };
    let (line, behind) = first_part(lines, ':');
    let Some(behind) = behind else {
        return reason_by(tables, node, line, None);
    };
    match first_part(behind, ':') {
        (second, None) => reason_by(tables, node, line, Some(second)),
        (_, Some(_)) => Some(BadLine {
            why: ScriptReason::MoreLines,
            word: pair,
        }),
    }
}

/// What is wrong with a node, and then with the names of its lines.
fn reason_by<'a>(
    tables: &Tables,
    node: &'a str,
    line: &'a str,
    second: Option<&'a str>,
) -> Option<BadLine<'a>>
    ensures { option_map told result
        ≡ reason_by tables.now node.now line.now (option_map (λ name. name.now) second.entry) }
{
    match Name::of_text(node) {
        Ok(_) => reason_of_lines(tables, line, second),
        Err(_) => Some(BadLine {
            why: ScriptReason::BadNode,
            word: node,
        }),
    }
}

/// What is wrong with the names of a route's lines.
fn reason_of_lines<'a>(
    tables: &Tables,
    line: &'a str,
    second: Option<&'a str>,
) -> Option<BadLine<'a>>
    ensures { option_map told result
        ≡ reason_of_lines tables.now line.now (option_map (λ name. name.now) second.entry) }
{
    let of_first = reason_of_name(tables, line);
    match second {
        Some(second) if of_first.is_none() => reason_of_name(tables, second),
        _ => of_first,
    }
}

/// What is wrong with the name of a line.
fn reason_of_name<'a>(tables: &Tables, name: &'a str) -> Option<BadLine<'a>>
    ensures { option_map told result ≡ reason_of_second tables.now (Some name.now) }
{
    match tables.line_owner(name) {
        Some(_) => None,
        None => Some(BadLine {
            why: ScriptReason::NoLine,
            word: name,
        }),
    }
}
