//! How many lines of a kind and place are written, and what is counted instead.

ghost use Rattle.std.specs.Prelude.{◌≡◌, ◌≢◌, ℕ, ◌<◌, ◌↔◌, ◌/◌, ◌%◌, [], length, slice_get, IfOk, IfSome};
ghost use Rattle.std.specs.Prelude.{IsSome, IsTrue, Some};
ghost use Rattle.njh_log.specs.Kinds.{kind_number};
ghost use Rattle.njh_log.specs.Spells.{after_event, after_kind, after_telling, begun, has_room, is_due, is_for};
ghost use Rattle.njh_log.specs.Spells.{is_written, keeper_of, limit_of, noted_at, number_of, spell_at, writes};

use crate::event_kind::EventKind;
use crate::heading::Place;
use std::alloc::{AllocError, Global};
use std::marker::Model;

/// How many kinds of events there are.
const KINDS: usize = 16;

/// How many places there are at most: the hub, 64 customers and 256 lines.
const PLACES: usize = 321;

/// How many spells there are.
const SPELLS: usize = PLACES * KINDS;

/// How many lines are written in how many milliseconds.
#[derive(Clone, Copy, Drop)]
pub struct Limit {
    /// How many lines.
    pub lines: u32,
    /// In how many milliseconds.
    pub milliseconds: u64,
}

/// The number of the kind of files.
const FILES: usize = 9;

/// Ten lines in ten seconds.
const TEN: Limit = Limit {
    lines: 10,
    milliseconds: 10_000,
};

/// Of a customer's files a thousand in a second.
const THOUSAND: Limit = Limit {
    lines: 1_000,
    milliseconds: 1_000,
};

/// Of those on a line none beyond: they are counted for a second.
const NO_FURTHER: Limit = Limit {
    lines: 0,
    milliseconds: 1_000,
};

/// Some time in which so many lines of a kind and place are written.
#[derive(Clone, Copy, Drop)]
pub struct Spell {
    /// When it is over, on the service's clock.
    pub over: u64,
    /// How many lines may still be written in it.
    pub room: u32,
    /// How many events there were beyond, which are told as a count.
    pub more: u64,
}

/// The spells of all kinds and places.
#[derive(Drop)]
pub struct Spells {
    /// Which place each number has, if one has it.
    places: Vec<Option<Place>>,
    /// The spells of the place 0, by kind, then those of the place 1, and so on.
    spells: Vec<Spell>,
}

impl Model for Spells {
    ghost use Rattle.std.specs.Prelude.{◌≡◌, ◌*◌, ◌≤◌, length};
    ghost use Rattle.njh_log.specs.Table.{SpellTable};

    ghost Value = { SpellTable };

    ghost view = { λ spells. record { places = spells.places.items; spells = spells.spells.items } };

    ghost invariant = { λ spells. (length spells.places.items ≤ 321)
        × (length spells.spells.items ≡ length spells.places.items * 16) };
}

impl Spell {
    /// None.
    const NONE: Spell = Spell {
        over: 0,
        room: 0,
        more: 0,
    };

    /// An event comes: a further spell begins, if this one is over and told.
    fn begin(&mut self, limit: Limit, now: u64)
        ensures { self.new ≡ begun limit self.old now }
    {
        if self.more == 0 && self.over <= now {
            *self = Spell {
                over: now.saturating_add(limit.milliseconds),
                room: limit.lines,
                more: 0,
            };
        }
    }

    /// Whether an event of it is written.
    fn writes(&self, limit: Limit, now: u64) -> bool
        ensures { result ≡ is_written limit self.now now }
    {
        let mut spell = *self;
        spell.begin(limit, now);
        spell.room > 0
    }

    /// An event of it is written, or counted.
    fn note(&mut self, limit: Limit, now: u64)
        ensures { self.new ≡ after_event limit self.old now }
    {
        self.begin(limit, now);
        if self.room > 0 {
            self.room -= 1;
        } else {
            self.more = self.more.saturating_add(1);
        }
    }

    /// What is to be told now of what was counted, if it is. It counts as told then.
    fn tell(&mut self, now: u64) -> Option<u64>
        ensures told { self.new ≡ after_telling self.old now }
        ensures due { IsSome result ↔ IsTrue (is_due self.old now) }
    {
        if self.more > 0 && self.over <= now {
            let more = self.more;
            self.more = 0;
            Some(more)
        } else {
            None
        }
    }
}

/// How many lines of a kind and place are written, in which time.
fn limit_of(place: &Place, kind: EventKind) -> Limit
    ensures { result ≡ limit_of place.now kind }
{
    if kind.number() != FILES {
        return TEN;
    }
    match place {
        Place::Hub => THOUSAND,
        Place::Customer(_) => THOUSAND,
        Place::Line(_, _) => NO_FURTHER,
    }
}

/// Whose spell says whether an event is written: the place's own, and for a file the customer's.
fn keeper_of(place: Place, kind: EventKind) -> Place
    ensures { result ≡ keeper_of place kind }
{
    if kind.number() == FILES {
        place.customer()
    } else {
        place
    }
}

/// Whether a place is that which is known so, or none is known yet.
fn is_for(place: &Place, known: &Option<Place>) -> bool
    ensures { result ≡ is_for place.now known.now }
{
    match known {
        None => true,
        Some(other) => other.is_same(place),
    }
}

/// Numbers that no place has, for all places.
fn no_places(alloc: Global) -> Result<Vec<Option<Place>>, AllocError>
    ensures { IfOk result (λ places. length places.items ≡ 321) }
{
    let mut places = Vec::with_capacity(alloc, PLACES)?;
    for _done in 0..PLACES {
        places.push_reserved(None);
    }
    Ok(places)
}

/// The spells of all places, in which nothing came.
fn no_spells(alloc: Global) -> Result<Vec<Spell>, AllocError>
    ensures { IfOk result (λ spells. length spells.items ≡ 5136) }
{
    let mut spells = Vec::with_capacity(alloc, SPELLS)?;
    for _done in 0..SPELLS {
        spells.push_reserved(Spell::NONE);
    }
    Ok(spells)
}

impl Spells {
    /// Those of no places: nothing is counted.
    pub(crate) fn none(alloc: Global) -> Spells
        ensures { result ≡ record { places = []; spells = [] } }
    {
        Spells {
            places: Vec::new(alloc),
            spells: Vec::new(alloc),
        }
    }

    /// Those of all places. Out of memory is the only refusal.
    pub(crate) fn all(alloc: Global) -> Result<Spells, AllocError>
        ensures { IfOk result (λ spells. length spells.places ≡ 321) }
    {
        let places = no_places(alloc)?;
        let spells = no_spells(alloc)?;
        Ok(Spells { places, spells })
    }

    /// How many spells there are.
    pub(crate) fn count(&self) -> usize
        ensures { result ≡ length self.now.spells }
    {
        self.spells.len()
    }

    /// What is to be told now of what was counted in a spell, if something is. It counts as told
    /// then.
    pub(crate) fn tell(&mut self, index: usize, now: u64) -> Option<u64>
        requires { index < length self.old.spells }
        ensures own { spell_at index self.new ≡ after_telling (spell_at index self.old) now }
        ensures others { (other : ℕ) → other ≢ index → spell_at other self.new ≡ spell_at other self.old }
        ensures places { self.new.places ≡ self.old.places }
        ensures many { length self.new.spells ≡ length self.old.spells }
        ensures due { IsSome result ↔ IsTrue (is_due (spell_at index self.old) now) }
    {
        self.spells[index].tell(now)
    }

    /// Where a spell is, and of which kind.
    pub(crate) fn place_of(&self, index: usize) -> (Place, EventKind)
        ensures place { (place : Place) → slice_get self.now.places (index / 16) ≡ Some (Some place) →
            result.0 ≡ place }
        ensures kind { kind_number result.1 ≡ index % 16 }
    {
        let place = match self.places.get(index / KINDS) {
            Some(Some(place)) => *place,
            Some(None) => Place::Hub,
            None => Place::Hub,
        };
        (place, EventKind::at(index % KINDS))
    }

    /// An event of this kind comes at this place. Says whether it is written; else it is counted.
    pub fn note(&mut self, place: Place, kind: EventKind, now: u64) -> bool
        ensures written { result ≡ has_room place kind now self.old }
        ensures noted { self.new ≡ after_kind place kind now self.old }
    {
        let keeper = keeper_of(place, kind);
        let has_room = self.writes(&keeper, kind, now);
        if has_room {
            self.add(&keeper, kind, now);
        } else {
            self.add(&place, kind, now);
        }
        has_room
    }

    /// The number of a place: its own, or the first that no place has.
    fn number_of(&self, place: &Place) -> Option<usize>
        ensures number { result ≡ number_of place.now self.now }
        ensures within { IfSome result (λ number. number < 321) }
    {
        self.places.iter().position(|known| is_for(place, known))
    }

    /// Whether the spell of a kind and place has room for a line.
    fn writes(&self, place: &Place, kind: EventKind, now: u64) -> bool
        ensures { result ≡ writes place.now kind now self.now }
    {
        match self.number_of(place) {
            Some(number) => {
                let spell = self.spells[number * KINDS + kind.number()];
                spell.writes(limit_of(place, kind), now)
            }
            None => true,
        }
    }

    /// Puts an event to the spell of its kind and of this place.
    fn add(&mut self, place: &Place, kind: EventKind, now: u64)
        ensures { self.new ≡ noted_at place.now kind now self.old }
    {
        match self.number_of(place) {
            Some(number) => {
                self.places[number] = Some(*place);
                let limit = limit_of(place, kind);
                self.spells[number * KINDS + kind.number()].note(limit, now);
            }
            None => {}
        }
    }
}
