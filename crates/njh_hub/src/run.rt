//! Runs over lists of events.

ghost use Rattle.std.specs.Prelude.{◌≡◌, ℕ, ◌+◌, ◌<◌, ◌≤◌, List, [], ◌∷◌, ◌⊎◌, length, slice_get, take, OnOk, OnErr};
ghost use Rattle.std.specs.Prelude.{IfErr, IsSomeAnd, All};
ghost use Rattle.njh_customer.specs.Feeding.{sent_on};
ghost use Rattle.njh_customer.specs.Runs.{alone_run};
ghost use Rattle.njh_hub.specs.OwnEvents.{events_of, event_by, sent_to, bytes_in_event};
ghost use Rattle.njh_hub.specs.Sent.{IsCounted, sink_says};
ghost use Rattle.njh_hub.specs.RunStops.{done, moment, Handed, IfHub, IsBehindFrame, IsEventRun, IsGiven, IsRefused};
ghost use Rattle.njh_hub.specs.RunStops.{IsRoutes, TellsOrder};
ghost use Rattle.njh_hub.specs.WholeHub.{part, AreTaken, IsNamed, IsTurnedAway, SameLines, sent_by, hub_run};
ghost use Rattle.njh_hub.specs.declared.event.Event.TheVariants.{Bytes};

use crate::event::Event;
use crate::fault::{Cause, HubFault, RunFault};
use crate::hub::Hub;
use crate::sink::{Sink, SinkFault};
use njh_customer::Signal;
use njh_table::LineId;

impl Hub {
    ghost use Rattle.njh_table.specs.declared.LineId.{LineId};

    /// Works off the events in order, and hands each frame that is sent to the sink. Stops at the
    /// first fault.
    ///
    /// For every customer, whatever the others do: its part of the hub is what its own events lead
    /// it to by itself, and the sink was handed on its lines what it sends by itself.
    pub fn run<S: Sink>(&mut self, events: &[Event], sink: &mut S) -> Result<(), RunFault>
        // For each customer: its part, and in order the frames on its lines, are those of that
        // customer alone.
        ensures parts { (c : ℕ) → c < length self.old →
            part c self.new ≡ (alone_run (part c self.old) (events_of c (done events.now result))).after }
        ensures sent { OnOk result ((pairs : List (LineId × List ℕ)) × S.took sink.old sink.new pairs ×
            ((c : ℕ) → c < length self.old
            → sent_to c pairs ≡ (alone_run (part c self.old) (events_of c events.now)).sent)) }

        // The sink took the frames of what was done; with cause Sink all but the last.
        ensures handed { Handed S.took S.refused result sink.old sink.new
            (hub_run self.old (done events.now result)).sent }
        ensures refused { IfErr result (λ fault. fault.cause ≡ Cause.Sink
            → 0 < length (hub_run self.old (done events.now result)).sent) }

        // The customers and their lines stay.
        ensures customers { length self.new ≡ length self.old }
        ensures lines { SameLines self.old self.new }

        // When it stops, and where: every event before the stop names a line of the hub, or a
        // customer of it, with an order or with routes that aren't refused.
        ensures known { OnOk result (All (IsNamed self.old) events.now) }
        ensures before { IfErr result (λ fault. All (IsNamed self.old) (take fault.events events.now)) }
        ensures few { IfErr result (λ fault. fault.events ≤ length events.now) }
        ensures within { IfErr result (λ fault. 0 < fault.bytes →
            IsSomeAnd (slice_get events.now fault.events) (λ event. fault.bytes < bytes_in_event event)) }
        ensures causes { IfErr result (λ fault. IfHub fault.cause (λ why.
            IsSomeAnd (slice_get events.now fault.events) (λ event. IsRefused self.old event why))) }
        ensures memory { IfErr result (λ fault. fault.cause ≡ Cause.Hub HubFault.Memory → (fault.bytes ≡ 0) ×
            (IsSomeAnd (slice_get events.now fault.events) IsRoutes ⊎ All IsGiven (take fault.events events.now))) }
        // Each order that was done had a way and room when it came, and one that was refused for
        // want of either had none.
        ensures orders { OnOk result (AreTaken self.old events.now) }
        ensures turned_away { IfErr result (λ fault. IfHub fault.cause (λ why.
            IsSomeAnd (slice_get events.now fault.events) (λ event.
            IsTurnedAway (hub_run self.old (take fault.events events.now)).parts event why))) }
        // Where the hub refused an event, none of its bytes are done; where the sink refused a
        // frame, the stop is right behind the byte, or the signal, that sent it.
        ensures begun { IfErr result (λ fault. IfHub fault.cause (λ why. fault.bytes ≡ 0)) }
        ensures behind { IfErr result (λ fault. fault.cause ≡ Cause.Sink → (whole : ℕ) ×
            IsSomeAnd (slice_get events.now whole) (λ event.
            IsBehindFrame (hub_run self.old (take whole events.now)).parts whole event fault)) }
        ensures counted { IfErr result (λ fault. fault.cause ≡ Cause.Sink
            → IsCounted (S.count sink.old) (S.count sink.new)) }
    {
        let mut out = Vec::new(self.allocator());
        for (index, event) in events.iter().enumerate() {
            match self.run_event(event, &mut out, sink) {
                Ok(()) => {}
                Err(fault) => return Err(fault.after(index)),
            }
        }
        Ok(())
    }

    /// One event. A fault speaks of it as of the only one.
    fn run_event<S: Sink>(
        &mut self,
        event: &Event,
        out: &mut Vec<u8>,
        sink: &mut S,
    ) -> Result<(), RunFault>
        ensures run { IsEventRun (sink_says S.took S.refused S.count) (moment self.old out.old sink.old) event.now
            result (moment self.new out.new sink.new) }
        ensures order { TellsOrder self.old event.now result }
    {
        match event {
            Event::Bytes(line, piece) => self.run_bytes(*line, piece.bytes(), out, sink),
            Event::Tick(line) => self.run_signal(*line, Signal::Tick, out, sink),
            Event::Garbled(line) => self.run_signal(*line, Signal::Garbled, out, sink),
            Event::Lost(line) => self.run_signal(*line, Signal::Lost, out, sink),
            Event::Routes(customer, routes) => match self.set_routes(*customer, routes.routes()) {
                Ok(()) => Ok(()),
                Err(fault) => Err(RunFault {
                    events: 0,
                    bytes: 0,
                    cause: Cause::Hub(fault),
                }),
            },
            Event::Order(customer, order) => match self.order_only(*customer, order) {
                Ok(()) => Ok(()),
                Err(fault) => Err(RunFault {
                    events: 0,
                    bytes: 0,
                    cause: Cause::Hub(fault),
                }),
            },
        }
    }

    /// A signal on a line.
    fn run_signal<S: Sink>(
        &mut self,
        id: LineId,
        signal: Signal,
        out: &mut Vec<u8>,
        sink: &mut S,
    ) -> Result<(), RunFault>
        ensures { IsEventRun (sink_says S.took S.refused S.count) (moment self.old out.old sink.old)
            (event_by signal id) result (moment self.new out.new sink.new) }
    {
        out.clear();
        match self.signal(id, signal, out) {
            Ok(()) => {}
            Err(fault) => return Err(RunFault {
                events: 0,
                bytes: 0,
                cause: Cause::Hub(fault),
            }),
        }
        match hand_over(id, out, sink) {
            Ok(()) => Ok(()),
            Err(_) => Err(RunFault {
                events: 1,
                bytes: 0,
                cause: Cause::Sink,
            }),
        }
    }

    /// The bytes of an event, in as many steps as they need.
    fn run_bytes<S: Sink>(
        &mut self,
        id: LineId,
        piece: &[u8],
        out: &mut Vec<u8>,
        sink: &mut S,
    ) -> Result<(), RunFault>
        ensures { IsEventRun (sink_says S.took S.refused S.count) (moment self.old out.old sink.old)
            (Bytes id piece.now) result (moment self.new out.new sink.new) }
    {
        let mut taken = 0;
        loop {
            let (_, left) = piece.split_at(taken);
            out.clear();
            match self.take(id, left, out) {
                Ok(used) => taken += used,
                Err(fault) => return Err(RunFault {
                    events: 0,
                    bytes: taken,
                    cause: Cause::Hub(fault),
                }),
            }
            match hand_over(id, out, sink) {
                Ok(()) => {}
                Err(_) => return Err(after_sink(taken, piece.len())),
            }
            if taken >= piece.len() {
                return Ok(());
            }
        }
    }
}

/// Where a run stands whose sink refused the frame of a step that took bytes up to here: the event
/// is done with its last step.
fn after_sink(taken: usize, len: usize) -> RunFault
    ensures cause { result.cause ≡ Cause.Sink }
    ensures whole { len ≤ taken → (result.events ≡ 1) × (result.bytes ≡ 0) }
    ensures part { taken < len → (result.events ≡ 0) × (result.bytes ≡ taken) }
{
    if taken < len {
        RunFault {
            events: 0,
            bytes: taken,
            cause: Cause::Sink,
        }
    } else {
        RunFault {
            events: 1,
            bytes: 0,
            cause: Cause::Sink,
        }
    }
}

/// Hands the frame of a step to the sink, where one was sent.
fn hand_over<S: Sink>(id: LineId, frame: &[u8], sink: &mut S) -> Result<(), SinkFault>
    ensures ok { OnOk result (S.took sink.old sink.new (sent_by id.customer (sent_on id.number frame.now))) }
    ensures err { OnErr result (S.refused sink.old sink.new (id, frame.now) × (0 < length frame.now)) }
    ensures counts { S.count sink.old ≤ S.count sink.new }
    ensures counted { OnErr result (IsCounted (S.count sink.old) (S.count sink.new)) }
{
    if frame.is_empty() {
        return Ok(());
    }
    sink.send(id, frame)
}
