//! How long the attendant waits, and what it looks at then.

ghost use Rattle.std.specs.Prelude.{◌≡◌, ◌↔◌, ◌⊎◌, ◌<◌, ◌≤◌, ◌+◌, ◌*◌, ℕ, length, min, false};
ghost use Rattle.std.specs.Prelude.{IsTrue, OnErr, OnOk};
ghost use Rattle.njh_lines.specs.Attention.{IsAnyDue, IsAnyMarked, IsInGroup, IsFirstMoment, IsMarked, IsWanted};
ghost use Rattle.njh_lines.specs.Attention.{wait_of, watch_at};

use njh_wire::Readiness;
use std::alloc::AllocError;

/// How long all lines wait at most, in milliseconds.
const LONGEST: u64 = 100;

/// Moments fall on multiples of so many milliseconds, so that those of several lines fall together.
const GRID: u64 = 5;

/// So many lines in a row are watched together: a group in which nothing is ready or due costs a
/// round one look.
const GROUP: usize = 16;

/// Nothing is ready.
pub(crate) const NOTHING: Readiness = Readiness {
    listener: false,
    reads: false,
    writes: false,
};

/// What wants to be looked at at once.
pub(crate) const AT_ONCE: Watch = Watch {
    moment: 0,
    is_due: true,
};

/// When a line is looked at, or the first of a group.
#[derive(Clone, Copy, Drop)]
pub(crate) struct Watch {
    /// When it wants to be looked at next, on the service's clock.
    pub(crate) moment: u64,
    /// Whether it is looked at in this round.
    pub(crate) is_due: bool,
}

impl Watch {
    /// It was looked at, and wants to be looked at next at this moment.
    pub(crate) fn until(moment: u64) -> Watch
        ensures { result ≡ record { moment = moment; is_due = false } }
    {
        Watch {
            moment,
            is_due: false,
        }
    }

    /// A round begins. Answers whether it is looked at in it: something is ready, or its moment
    /// came.
    pub(crate) fn begin(&mut self, is_ready: bool, now: u64) -> bool
        ensures wanted { IsTrue result ↔ IsWanted is_ready self.old.moment now }
        ensures noted { self.new ≡ record self.old { is_due = result } }
    {
        self.is_due = is_ready || self.moment <= now;
        self.is_due
    }

    /// Whether a group is gone through as a round begins: it is looked at, something of a line is
    /// ready, or its moment came.
    pub(crate) fn wakes(&self, is_ready: bool, now: u64) -> bool
        ensures { IsTrue result ↔ (IsTrue self.now.is_due ⊎ IsWanted is_ready self.now.moment now) }
    {
        self.is_due || (is_ready || self.moment <= now)
    }

    /// It is looked at in this round, if it is so, or was before.
    pub(crate) fn look(&mut self, is_due: bool)
        ensures moment { self.new.moment ≡ self.old.moment }
        ensures stays { IsTrue self.old.is_due → IsTrue self.new.is_due }
        ensures due { IsTrue is_due → IsTrue self.new.is_due }
    {
        self.is_due = self.is_due || is_due;
    }

    /// It wants to be looked at at this moment, if not before.
    pub(crate) fn call(&mut self, moment: u64)
        ensures { self.new ≡ record self.old { moment = min self.old.moment moment } }
    {
        self.moment = self.moment.min(moment);
    }
}

/// Whether something of a line is ready.
pub(crate) fn is_marked(mark: Readiness) -> bool
    ensures { IsTrue result ↔ IsMarked mark }
{
    mark.listener | mark.reads | mark.writes
}

/// Whether something is ready of a line from the first of these places on, up to the other.
pub(crate) fn is_any_marked(ready: &[Readiness], first: usize, end: usize) -> bool
    ensures { IsTrue result ↔ IsAnyMarked ready.now first end }
{
    for place in first..end.min(ready.len()) {
        if is_marked(ready[place]) {
            return true;
        }
    }
    false
}

/// Whether a line is looked at, from the first of these places on, up to the other.
pub(crate) fn is_any_due(watches: &[Watch], first: usize, end: usize) -> bool
    ensures { IsTrue result ↔ IsAnyDue watches.now first end }
{
    for place in first..end.min(watches.len()) {
        if watches[place].is_due {
            return true;
        }
    }
    false
}

/// When the first wants to be looked at of the lines from one of these places on, up to the other;
/// `u64::MAX` if there is none.
pub(crate) fn first_moment(watches: &[Watch], first: usize, end: usize) -> u64
    ensures { IsFirstMoment watches.now first end result }
{
    let mut next = u64::MAX;
    for place in first..end.min(watches.len()) {
        next = next.min(watches[place].moment);
    }
    next
}

/// The places of the lines of a group among those of so many: from the first on, up to the other.
pub(crate) fn places_of(group: usize, many: usize) -> (usize, usize)
    ensures first { result.0 ≡ min (16 * group) many }
    ensures end { result.1 ≡ min (16 * group + 16) many }
{
    let first = group.saturating_mul(GROUP);
    (first.min(many), first.saturating_add(GROUP).min(many))
}

/// Groups of lines get one more, at this place, that is looked at at once. Want of memory is the
/// only refusal.
pub(crate) fn add_to_groups(groups: &mut Vec<Watch>, place: usize) -> Result<(), AllocError>
    ensures lowers { (group : ℕ) → (watch_at groups.new.items group).moment ≤ (watch_at groups.old.items group).moment }
    ensures stays { (group : ℕ) → IsTrue (watch_at groups.old.items group).is_due →
        IsTrue (watch_at groups.new.items group).is_due }
    ensures calls { OnOk result ((group : ℕ) → IsInGroup place group → (watch_at groups.new.items group).moment ≡ 0) }
    ensures due { OnOk result ((group : ℕ) → IsInGroup place group → IsTrue (watch_at groups.new.items group).is_due) }
    ensures room { place ≤ 16 * length groups.old.items → OnOk result (place < 16 * length groups.new.items) }
    ensures others { OnOk result ((group : ℕ) → ¬ IsInGroup place group →
        (watch_at groups.new.items group).moment ≡ (watch_at groups.old.items group).moment) }
    ensures err { OnErr result (groups.new.items ≡ groups.old.items) }
{
    if place % GROUP == 0 {
        groups.push(AT_ONCE)?;
    }
    call_group(groups, place, 0);
    look_at_group(groups, place, true);
    Ok(())
}

/// The group of the line at this place is looked at at this moment, if not before.
pub(crate) fn call_group(groups: &mut Vec<Watch>, place: usize, moment: u64)
    ensures many { length groups.new.items ≡ length groups.old.items }
    ensures lowers { (group : ℕ) → (watch_at groups.new.items group).moment ≤ (watch_at groups.old.items group).moment }
    ensures calls { (group : ℕ) → IsInGroup place group → (watch_at groups.new.items group).moment
        ≡ min (watch_at groups.old.items group).moment moment }
    ensures others { (group : ℕ) → ¬ IsInGroup place group → (watch_at groups.new.items group).moment
        ≡ (watch_at groups.old.items group).moment }
    ensures stays { (group : ℕ) → IsTrue (watch_at groups.old.items group).is_due →
        IsTrue (watch_at groups.new.items group).is_due }
{
    let group = place / GROUP;
    if group < groups.len() {
        groups[group].call(moment);
    }
}

/// The group of the line at this place is looked at in this round if the line is.
pub(crate) fn look_at_group(groups: &mut Vec<Watch>, place: usize, is_due: bool)
    ensures many { length groups.new.items ≡ length groups.old.items }
    ensures moments { (group : ℕ) → (watch_at groups.new.items group).moment
        ≡ (watch_at groups.old.items group).moment }
    ensures stays { (group : ℕ) → IsTrue (watch_at groups.old.items group).is_due →
        IsTrue (watch_at groups.new.items group).is_due }
    ensures due { (group : ℕ) → IsInGroup place group → IsTrue is_due →
        IsTrue (watch_at groups.new.items group).is_due }
{
    let group = place / GROUP;
    if group < groups.len() {
        groups[group].look(is_due);
    }
}

/// For how many milliseconds to wait, now that a line wants to be looked at next at this moment.
pub(crate) fn wait_of(now: u64, next: u64) -> u64
    ensures { result ≡ wait_of now next }
{
    if next <= now {
        return 0;
    }
    let left = (next - now).min(LONGEST);
    left.saturating_add(GRID - 1 - now.saturating_add(left - 1) % GRID)
}
