//! A round of a service's lines: what is due is looked at, and what its session asks for is done.

ghost use Rattle.std.specs.Prelude.{◌≡◌, ◌≢◌, ℕ, ◌+◌, ◌<◌, ◌≤◌, ◌↔◌, length, min, false};
ghost use Rattle.std.specs.Prelude.{slice_get, IsTrue, Some};
ghost use Rattle.njh_turns.specs.Service.{AreStill};
ghost use Rattle.njh_hub.specs.Quiets.{quiet_on};
ghost use Rattle.njh_hub.specs.Views.{HasGivenUp, hub_line, line_view};
ghost use Rattle.njh_hub.specs.WholeHub.{HasLine};
ghost use Rattle.njh_wire.specs.Tally.{tally, IsTallied};
ghost use Rattle.njh_request.specs.declared.request.LineState.TheVariants.{Stopped};
ghost use Rattle.njh_sight.specs.Sessions.{HasRefusedMore};
ghost use Rattle.njh_sight.specs.Steps.{steps_after};
ghost use Rattle.njh_sight.specs.declared.steps.Steps.{Steps};
ghost use Rattle.njh_lines.specs.Attention.{mark_at, watch_at, IsDue};
ghost use Rattle.njh_lines.specs.Connecting.{IsConnected, StaysOn};
ghost use Rattle.njh_lines.specs.Resting.{HasRested, HaveEnded, IsNextLook, IsSameAt, WaitsForFirst};
ghost use Rattle.njh_lines.specs.Watching.{HasNoted, HaveBegun, IsRoundBegun, IsToBePrompted};
ghost use Rattle.njh_lines.specs.Watching.{Noted, ServedLine};
ghost use Rattle.njh_lines.specs.Wires.{AreHeld, AreMadeSo, IsDone, IsJudged, IsLeft};
ghost use Rattle.njh_lines.specs.declared.attention.Watch.{Watch};

use crate::attention::{Watch, call_group, look_at_group, wait_of};
use crate::exchange::Exchange;
use crate::groups::{begin_groups, end_group};
use crate::sessions::follow;
use crate::visiting::{apply_session, begin};
use crate::waking::wake;
use crate::wires::let_out;
use njh_hub::Hub;
use njh_wire::{LineWire, Network, Readiness};
use std::io::Write;

impl<N: Network + Drop, L: Write + Drop> Exchange<N, L> {
    /// Waits until a line is ready or due, until this moment at most, and looks at each that is.
    pub fn begin_round(&mut self, until: u64, wires: &mut [LineWire<N::Connection>])
        ensures still { AreStill IsTallied (λ wire. wire.failures) wires.old wires.new }
        ensures lines { self.new.lines ≡ self.old.lines }
        ensures begun { IsRoundBegun (min (length self.old.lines) (length wires.old)) self.old self.new }
        ensures held { AreHeld 0 (length wires.old) self.old.lines self.new.watches wires.old wires.new }
        ensures customers { self.new.customers ≡ self.old.customers }
    {
        self.wait(until);
        begin_groups(self, wires);
    }

    /// Waits until something of a line is ready, or one wants to be looked at, until this moment at
    /// most.
    fn wait(&mut self, until: u64)
        ensures lines { self.new.lines ≡ self.old.lines }
        ensures watches { self.new.watches ≡ self.old.watches }
        ensures customers { self.new.customers ≡ self.old.customers }
    {
        self.surroundings.now = self.surroundings.network.now();
        let wait = wait_of(self.surroundings.now, self.next.min(until));
        wait_on(&mut self.surroundings.network, wait, &mut self.ready);
        self.surroundings.now = self.surroundings.network.now();
        self.surroundings.tell_counted();
    }

    /// Looks at a line if something is ready or its moment came, and sets its wire's clock then.
    pub(crate) fn begin(&mut self, place: usize, wire: &mut LineWire<N::Connection>)
        ensures counts { wire.old.failures ≤ wire.new.failures }
        ensures tally { tally wire.new ≡ tally wire.old }
        ensures lines { self.new.lines ≡ self.old.lines }
        ensures now { self.new.now ≡ self.old.now }
        ensures customers { self.new.customers ≡ self.old.customers }
        ensures begun { HaveBegun self.old.now place (place + 1) self.old.ready self.new.ready self.old.watches
            self.new.watches }
        ensures stopped { (line : ServedLine) → slice_get self.old.lines place ≡ Some line → line.state ≡ Stopped →
            IsDue (mark_at self.old.ready place) (watch_at self.old.watches place).moment self.old.now →
            ¬ IsConnected wire.new }
    {
        if self.posts.len() <= place {
            return;
        }
        let post = &mut self.posts[place];
        let ready = &mut self.ready[place];
        let watch = &mut self.watches[place];
        begin(&mut self.surroundings, post, ready, watch, wire);
        look_at_group(&mut self.groups, place, watch.is_due);
    }

    /// Whether a line is looked at in this round.
    pub fn is_due(&self, place: usize) -> bool
        ensures { IsTrue result ↔ IsTrue (watch_at self.now.watches place).is_due }
    {
        match self.watches.get(place) {
            Some(watch) => watch.is_due,
            None => true,
        }
    }

    /// Whether the line at this place, if it rests, is prompted in this round.
    pub fn prompts(&self, place: usize, hub: &Hub) -> bool
        ensures { IsTrue result ↔ IsToBePrompted self.now place hub.now }
    {
        let Some(post) = self.posts.get(place) else {
            return true;
        };
        post.traffic.prompts(hub, post.line, self.surroundings.now)
    }

    /// Notes what a step on the line at this place left, which sent this frame.
    pub fn follow(&mut self, place: usize, hub: &Hub, frame: &[u8])
        ensures lines { self.new.lines ≡ self.old.lines }
        ensures watches { self.new.watches ≡ self.old.watches }
        ensures customers { self.new.customers ≡ self.old.customers }
        ensures noted { HasNoted self.new place hub.now frame.now }
        ensures counted { (line : ServedLine) → (was now : Steps) → slice_get self.old.lines place ≡ Some line →
            slice_get self.old.steps place ≡ Some was → slice_get self.new.steps place ≡ Some now →
            HasLine hub.now line.id →
            now ≡ steps_after was (line_view (hub_line line.id hub.now).state) frame.now }
        ensures others { (other : ℕ) → other ≢ place →
            slice_get self.new.tallies other ≡ slice_get self.old.tallies other }
    {
        let Some(post) = self.posts.get_mut(place) else {
            return;
        };
        follow(&mut self.surroundings, post, hub, frame, &mut self.arrivals);
    }

    /// Of each line that was looked at, which are all that had a turn, lets out what waits, ends a
    /// connection whose session gave up or refused a sign-on, and tells what changed. Then has those
    /// lines looked at in the next round to which others of their customers gave something to send.
    pub fn end_round(&mut self, hub: &Hub, wires: &mut [LineWire<N::Connection>])
        ensures still { AreStill IsTallied (λ wire. wire.failures) wires.old wires.new }
        ensures lines { self.new.lines ≡ self.old.lines }
        ensures now { self.new.now ≡ self.old.now }
        ensures waits { WaitsForFirst self.new }
        ensures ended { HaveEnded self.old self.new hub.now wires.new }
        ensures done { AreMadeSo (λ place s new. IsDone N.Connection.moved self.old hub.now place s new)
            (length self.old.lines) 0 (length wires.old) self.old.watches wires.old wires.new }
    {
        let mut next = u64::MAX;
        for group in 0..self.groups.len() {
            let moment = end_group(self, group, hub, wires);
            next = next.min(moment);
        }
        self.next = next;
        wake(self, hub);
    }

    /// Lets out what waits on a line that was looked at, and does what its session asks for.
    pub(crate) fn end(&mut self, place: usize, hub: &Hub, wire: &mut LineWire<N::Connection>)
        ensures counts { wire.old.failures ≤ wire.new.failures }
        ensures tally { tally wire.new ≡ tally wire.old }
        ensures lines { self.new.lines ≡ self.old.lines }
        ensures now { self.new.now ≡ self.old.now }
        ensures rests { IsTrue (watch_at self.old.watches place).is_due → place < length self.old.lines →
            HasRested self.new place wire.new (watch_at self.new.watches place) }
        ensures idle { ¬ IsTrue (watch_at self.old.watches place).is_due → IsSameAt place self.old self.new }
        ensures others { (other : ℕ) → other ≢ place → IsSameAt other self.old self.new }
        ensures done { IsTrue (watch_at self.old.watches place).is_due →
            IsDone N.Connection.moved self.old hub.now place wire.old wire.new }
    {
        if !self.is_due(place) {
            return;
        }
        let_out(wire);
        let moment = self.apply_session(place, hub, wire);
        self.rest(place, moment);
    }

    /// A line that was looked at is looked at next at this moment, and its group then or before.
    fn rest(&mut self, place: usize, moment: u64)
        requires { IsTrue (watch_at self.old.watches place).is_due }
        ensures lines { self.new.lines ≡ self.old.lines }
        ensures noted { self.new.noted ≡ self.old.noted }
        ensures refusals { self.new.refusals ≡ self.old.refusals }
        ensures customers { self.new.customers ≡ self.old.customers }
        ensures now { self.new.now ≡ self.old.now }
        ensures rests { place < length self.old.lines →
            watch_at self.new.watches place ≡ record { moment = moment; is_due = false } }
        ensures others { (other : ℕ) → other ≢ place →
            watch_at self.new.watches other ≡ watch_at self.old.watches other }
    {
        if self.watches.len() <= place {
            return;
        }
        self.watches[place] = Watch::until(moment);
        call_group(&mut self.groups, place, moment);
        self.next = self.next.min(moment);
    }

    /// Does what a line's session asks for: its connection stays, unless its own session gave up or
    /// refused a sign-on, and its next quiet lasts as long as its own session says. Answers when it
    /// wants to be looked at.
    fn apply_session(&mut self, place: usize, hub: &Hub, wire: &mut LineWire<N::Connection>) -> u64
        ensures counts { wire.old.failures ≤ wire.new.failures }
        ensures tally { tally wire.new ≡ tally wire.old }
        ensures lines { self.new.lines ≡ self.old.lines }
        ensures watches { self.new.watches ≡ self.old.watches }
        ensures now { self.new.now ≡ self.old.now }
        ensures asks { (noted : Noted) → slice_get self.new.noted place ≡ Some noted →
            IsNextLook wire.new noted self.old.now result }
        ensures others { (other : ℕ) → other ≢ place →
            slice_get self.new.noted other ≡ slice_get self.old.noted other }
        ensures counts_of_others { (other : ℕ) → other ≢ place →
            slice_get self.new.refusals other ≡ slice_get self.old.refusals other }
        ensures judged { IsJudged self.old hub.now place wire.new }
        ensures kept { (line : ServedLine) → (seen : ℕ) → slice_get self.old.lines place ≡ Some line →
            slice_get self.old.refusals place ≡ Some seen → HasLine hub.now line.id → ¬ HasGivenUp hub.now line.id →
            ¬ HasRefusedMore seen (line_view (hub_line line.id hub.now).state) →
            StaysOn wire.old.protocol (line_view (hub_line line.id hub.now).state) →
            wire.new.connection ≡ wire.old.connection }
        ensures left { IsLeft wire.old wire.new }
        ensures quiet { (line : ServedLine) → slice_get self.old.lines place ≡ Some line → HasLine hub.now line.id →
            wire.new.quiet ≡ quiet_on line.id hub.now }
    {
        let Some(post) = self.posts.get_mut(place) else {
            return u64::MAX;
        };
        apply_session(&mut self.surroundings, post, hub, wire)
    }
}

/// Waits so many milliseconds at most, and marks what is ready of each line.
fn wait_on<N: Network>(network: &mut N, milliseconds: u64, ready: &mut Vec<Readiness>)
    ensures { length ready.new.items ≡ length ready.old.items }
{
    let _waited = network.wait(milliseconds, ready).is_ok();
}
