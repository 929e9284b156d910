//! An attendant in memory.

use crate::memory_wire::MemoryWire;
use arrayvec::ArrayVec;
use njh_command::Replies;
use njh_hub::{Hub, HubFault};
use njh_turns::{Attendant, NewOrder, NewRoutes};

/// Rounds in which a wire isn't due.
#[derive(Clone, Copy)]
pub struct Pause {
    /// The place of the wire.
    pub place: usize,
    /// The first of these rounds, counted from 1 on.
    pub from: u32,
    /// The first round in which the wire is due again.
    pub to: u32,
}

/// No rounds.
const NO_PAUSE: Pause = Pause {
    place: 0,
    from: 0,
    to: 0,
};

/// Brings routes once and an order once, and counts what it was called for.
#[derive(Drop)]
pub struct MemoryAttendant {
    brought: Option<NewRoutes>,
    ordered: Option<NewOrder>,
    pause: Pause,
    prompts: bool,
    rounds: Option<u32>,
    /// How often it came before a round.
    pub before: u32,
    /// How often it came after one.
    pub after: u32,
    /// How often it was told that a customer got its routes.
    pub given: u32,
    /// The last refusal of routes.
    pub refused: Option<HubFault>,
    /// How often it was told that an order was done.
    pub done: u32,
    /// The last refusal of an order.
    pub not_done: Option<HubFault>,
    /// The replies to its orders, one after the other.
    pub replies: ArrayVec<u8, 256>,
    /// The places of the steps that it was told of.
    pub steps: ArrayVec<u8, 256>,
    /// The frames that they sent, one after the other.
    pub frames: ArrayVec<u8, 256>,
}

impl MemoryAttendant {
    /// One that has these routes to bring, by which all wires are due and none is prompted.
    pub(crate) fn new(brought: Option<NewRoutes>) -> MemoryAttendant {
        MemoryAttendant {
            brought,
            ordered: None,
            pause: NO_PAUSE,
            prompts: false,
            rounds: None,
            before: 0,
            after: 0,
            given: 0,
            refused: None,
            done: 0,
            not_done: None,
            replies: ArrayVec::new(),
            steps: ArrayVec::new(),
            frames: ArrayVec::new(),
        }
    }

    /// One that has an order to bring and no routes.
    pub(crate) fn ordering(order: NewOrder) -> MemoryAttendant {
        let mut attendant = MemoryAttendant::new(None);
        attendant.ordered = Some(order);
        attendant
    }

    /// One that brings nothing, and by which a wire has a pause.
    pub(crate) fn with_pause(pause: Pause) -> MemoryAttendant {
        let mut attendant = MemoryAttendant::new(None);
        attendant.pause = pause;
        attendant
    }

    /// One that brings nothing, and ends the service after so many rounds.
    pub(crate) fn ending(rounds: u32) -> MemoryAttendant {
        let mut attendant = MemoryAttendant::new(None);
        attendant.rounds = Some(rounds);
        attendant
    }

    /// One that brings nothing, and prompts each line that rests.
    pub(crate) fn prompting() -> MemoryAttendant {
        let mut attendant = MemoryAttendant::new(None);
        attendant.prompts = true;
        attendant
    }
}

impl Attendant<MemoryWire> for MemoryAttendant {
    ghost use Rattle.std.specs.Prelude.{◌≡◌, ◌≢◌, ◌<◌, ◌≤◌, ◌⊎◌, IsTrue, Some};

    ghost ended = { λ attendant. attendant.rounds ≡ Some attendant.after };

    ghost visits = { λ attendant place. (place ≢ attendant.pause.place) ⊎ (attendant.before < attendant.pause.from)
        ⊎ (attendant.pause.to ≤ attendant.before) };

    ghost wants = { λ attendant place parts. IsTrue attendant.prompts };

    ghost order = { λ attendant. attendant.ordered };

    fn is_over(&self) -> bool {
        self.rounds == Some(self.after)
    }

    fn before(&mut self, _wires: &mut [MemoryWire]) {
        self.before = self.before.saturating_add(1);
    }

    fn new_routes(&mut self) -> Option<NewRoutes> {
        self.brought.take()
    }

    fn routes_given(&mut self, _hub: &Hub, _new: &NewRoutes, answer: Result<(), HubFault>) {
        match answer {
            Ok(()) => self.given = self.given.saturating_add(1),
            Err(fault) => self.refused = Some(fault),
        }
    }

    fn new_order(&mut self) -> Option<NewOrder> {
        self.ordered.take()
    }

    fn order_done(
        &mut self,
        _hub: &Hub,
        _new: &NewOrder,
        answer: Result<(), HubFault>,
        replies: &Replies,
    ) {
        match answer {
            Ok(()) => self.done = self.done.saturating_add(1),
            Err(fault) => self.not_done = Some(fault),
        }
        for text in replies.texts() {
            let _ = self.replies.try_extend_from_slice(text);
        }
    }

    fn is_due(&self, place: usize) -> bool {
        let pause = self.pause;
        place != pause.place || self.before < pause.from || pause.to <= self.before
    }

    fn prompts(&self, _place: usize, _hub: &Hub) -> bool {
        self.prompts
    }

    fn stepped(&mut self, place: usize, _hub: &Hub, frame: &[u8]) {
        let _ = self.steps.try_push(u8::try_from(place).unwrap_or(u8::MAX));
        let _ = self.frames.try_extend_from_slice(frame);
    }

    fn after(&mut self, _hub: &Hub, _wires: &mut [MemoryWire]) {
        self.after = self.after.saturating_add(1);
    }
}
