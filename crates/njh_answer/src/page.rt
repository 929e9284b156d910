//! What of a list one answer tells, and where the next goes on.

ghost use Rattle.std.specs.Prelude.{◌≡◌, ◌≤◌};
ghost use Rattle.serde_json.specs.View.{view};
ghost use Rattle.njh_answer.specs.Pages.{next_data, page_of};

use serde_json::Value;

/// What of a list is told: the items from an index to before another.
#[derive(Clone, Copy, Drop)]
pub(crate) struct Page {
    pub(crate) first: usize,
    pub(crate) end: usize,
}

impl Page {
    /// Of so many items those from an index on, at most so many.
    pub(crate) fn of(from: u64, most: usize, count: usize) -> Page
        ensures page { result ≡ page_of from most count }
        ensures ordered { result.first ≤ result.end }
        ensures within { result.end ≤ count }
    {
        let first = usize::try_from(from).unwrap_or(count).min(count);
        let end = first.saturating_add(most).min(count);
        Page { first, end }
    }

    /// The place to go on from, if there are items behind those of the page: its index, and as many
    /// more as have left.
    pub(crate) fn next(self, left: u64, count: usize) -> Value
        ensures { view result ≡ next_data left self.end count }
    {
        if self.end < count {
            Value::from(left.saturating_add(self.end as u64))
        } else {
            Value::Null
        }
    }
}
