//! What was counted of lines.

ghost use Rattle.std.specs.Prelude.{◌≡◌, IfOk};
ghost use Rattle.serde_json.specs.View.{view};
ghost use Rattle.njh_answer.specs.Counts.{both_data, counts_data, none_away, plus, turned_data, turned_more, turned_of};
ghost use Rattle.njh_answer.specs.Counts.{turned_with};

use crate::views::{BothWays, LineCounts, LineView, TurnedAway};
use serde_json::{Value, json};
use std::alloc::{AllocError, Global};

/// What was counted of a line.
pub(crate) fn counts_value(alloc: Global, counts: &LineCounts) -> Result<Value, AllocError>
    ensures { IfOk result (λ value. view value ≡ counts_data counts.now) }
{
    let blocks = both_value(alloc, counts.blocks)?;
    let bytes = both_value(alloc, counts.bytes)?;
    let files = both_value(alloc, counts.files)?;
    let messages = both_value(alloc, counts.messages)?;
    let records = both_value(alloc, counts.records)?;
    let turned_away = turned_value(alloc, counts.turned_away)?;
    json!(in alloc; {
        "blocks": blocks,
        "bytes": bytes,
        "commands": counts.commands,
        "cut_off": counts.cut_off,
        "dropped": counts.dropped,
        "files": files,
        "messages": messages,
        "records": records,
        "returned": counts.returned,
        "turned_away": turned_away
    })
}

/// What came and went.
fn both_value(alloc: Global, both: BothWays) -> Result<Value, AllocError>
    ensures { IfOk result (λ value. view value ≡ both_data both) }
{
    json!(in alloc; {"in": both.came, "out": both.went})
}

/// How many files were refused, by why.
pub(crate) fn turned_value(alloc: Global, turned: TurnedAway) -> Result<Value, AllocError>
    ensures { IfOk result (λ value. view value ≡ turned_data turned) }
{
    json!(in alloc; {
        "files": turned.files,
        "other": turned.other,
        "quota": turned.quota,
        "route": turned.route
    })
}

/// How many files of a customer were refused on its lines.
#[tactic(auto, using(crate::proofs::Counting::turned_one_more))]
pub(crate) fn turned_of(lines: &[LineView], customer: u16) -> TurnedAway
    ensures { result ≡ turned_of customer lines.now }
{
    let mut turned = TurnedAway {
        files: 0,
        quota: 0,
        route: 0,
        other: 0,
    };
    for line in lines {
        turned = turned_more(turned, line, customer);
    }
    turned
}

/// Those of one line more, if it is the customer's.
fn turned_more(turned: TurnedAway, line: &LineView, customer: u16) -> TurnedAway
    ensures { result ≡ turned_more customer turned line.now }
{
    if line.line.customer == customer {
        turned_with(turned, line.counts.turned_away)
    } else {
        turned
    }
}

fn turned_with(turned: TurnedAway, more: TurnedAway) -> TurnedAway
    ensures { result ≡ turned_with turned more }
{
    TurnedAway {
        files: plus(turned.files, more.files),
        quota: plus(turned.quota, more.quota),
        route: plus(turned.route, more.route),
        other: plus(turned.other, more.other),
    }
}

/// So many more.
fn plus(count: u64, more: u64) -> u64
    ensures { result ≡ plus count more }
{
    count.saturating_add(more)
}
