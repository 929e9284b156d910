//! The nodal messages that wait on a line: for whom, and since when.

ghost use Rattle.std.specs.Prelude.{◌≡◌, ◌<◌, ◌≤◌, length, map, IfOk, option_map, slice_get};
ghost use Rattle.std.specs.List.{range_with_len};
ghost use Rattle.serde_json.specs.Data.{array};
ghost use Rattle.serde_json.specs.View.{items_of, view};
ghost use Rattle.njh_hub.specs.Views.{hub_line};
ghost use Rattle.njh_hub.specs.WholeHub.{part};
ghost use Rattle.njh_nmr.specs.Nodal.{nodal_of};
ghost use Rattle.njh_answer.specs.Lines.{line_where};
ghost use Rattle.njh_answer.specs.Queues.{message_data, message_where, queue_entry, queue_where, since_at};

use crate::fields::{field_text, name_text};
use crate::lines::nothing;
use crate::served::moment_value;
use crate::views::LineView;
use njh_hub::Hub;
use njh_nmr::Nmr;
use njh_record::Record;
use njh_table::LineId;
use serde_json::{Value, json};
use std::alloc::{AllocError, Global};

/// The messages that wait on a line, the one that waits longest first; null where the hub has no
/// such line.
pub(crate) fn queue_value(
    alloc: Global,
    hub: &Hub,
    id: LineId,
    served: Option<&LineView>,
) -> Result<Value, AllocError>
    ensures { IfOk result (λ value. view value ≡ queue_where (option_map (λ s. s.now) served.entry)
        (line_where id.number (part id.customer hub.now))) }
{
    match hub.message_count(id) {
        Ok(count) => queue_list(alloc, hub, id, count, served),
        Err(_) => Ok(nothing()),
    }
}

/// So many of them, as a list.
fn queue_list(
    alloc: Global,
    hub: &Hub,
    id: LineId,
    count: usize,
    served: Option<&LineView>,
) -> Result<Value, AllocError>
    ensures { IfOk result (λ value. view value ≡ array (items_of
        (map (queue_entry (hub_line id hub.now).state.messages (option_map (λ s. s.now) served.entry))
        (range_with_len 0 count)))) }
{
    Ok(Value::Array(queue_values(alloc, hub, id, count, served)?))
}

fn queue_values(
    alloc: Global,
    hub: &Hub,
    id: LineId,
    count: usize,
    served: Option<&LineView>,
) -> Result<Vec<Value>, AllocError>
    ensures { IfOk result (λ values. map view values.items
        ≡ map (queue_entry (hub_line id hub.now).state.messages (option_map (λ s. s.now) served.entry))
        (range_with_len 0 count)) }
{
    let mut values = Vec::new(alloc);
    for index in 0..count {
        let since = since_at(served, index);
        values.push(message_where(alloc, hub.message(id, index), since)?)?;
    }
    Ok(values)
}

/// Since when the message at a place waits, if that was seen.
fn since_at(served: Option<&LineView>, index: usize) -> Option<u64>
    ensures { result ≡ since_at (option_map (λ s. s.now) served.entry) index }
{
    match served {
        Some(served) => match served.messages_since.get(index) {
            Some(since) => *since,
            None => None,
        },
        None => None,
    }
}

/// For whom a record is that waits, if it reads as a nodal message.
fn message_where(
    alloc: Global,
    found: Option<&Record>,
    since: Option<u64>,
) -> Result<Value, AllocError>
    ensures { IfOk result (λ value. view value
        ≡ message_where (option_map (λ r. r.now.items) found.entry) since) }
{
    match found {
        Some(bytes) => match Nmr::read(bytes) {
            Ok(message) => message_value(alloc, &message, since),
            Err(_) => Ok(Value::Null),
        },
        None => Ok(Value::Null),
    }
}

/// For whom a message is, and since when it waits.
fn message_value(alloc: Global, message: &Nmr, since: Option<u64>) -> Result<Value, AllocError>
    ensures { IfOk result (λ value. view value ≡ message_data message.now since) }
{
    let node = name_text(alloc, message.to())?;
    let user = field_text(alloc, &message.user())?;
    json!(in alloc; {"node": node, "since": moment_value(since), "user": user})
}
