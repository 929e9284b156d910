//! What the attendant sees of a line's session, and tells of it.

ghost use Rattle.std.specs.Prelude.{◌≡◌, ◌≤◌, ◌↔◌, ◌⊎◌, None, Some, true, IsSome, IfSome, IsTrue};
ghost use Rattle.njh_hub.specs.Views.{HasGivenUp, hub_line, line_view};
ghost use Rattle.njh_hub.specs.WholeHub.{HasLine};
ghost use Rattle.njh_wire.specs.Standing.{after_close};
ghost use Rattle.njh_wire.specs.Tally.{tally};
ghost use Rattle.njh_log.specs.Limiting.{IsTold as IsLogged};
ghost use Rattle.njh_sites.specs.Dialling.{moment_of_loss};
ghost use Rattle.njh_sites.specs.Opened.{site_kept};
ghost use Rattle.njh_sight.specs.Awaiting.{awaits_again, told_awaited};
ghost use Rattle.njh_sight.specs.News.{after_telling, told_now, IsTold};
ghost use Rattle.njh_sight.specs.Sessions.{after_step, barred_until, had_session, news_seen, refusal_event};
ghost use Rattle.njh_sight.specs.Sessions.{session_end, tries_end, HasRefused};
ghost use Rattle.njh_sight.specs.Steps.{steps_after};
ghost use Rattle.njh_lines.specs.Entrances.{parted};
ghost use Rattle.njh_lines.specs.Wires.{IsLeft, IsRefusedOn};
ghost use Rattle.njh_lines.specs.Connecting.{moment_seen, place_of, silence_of, IsConnected, IsInSession, IsOverOn};
ghost use Rattle.njh_lines.specs.Connecting.{IsReady};
ghost use Rattle.njh_lines.specs.Connecting.{told_refusal};
ghost use Rattle.njh_lines.specs.LineStates.{is_stopped};

use crate::connecting::{tell_end, told_refusal};
use crate::entrance::Entrance;
use crate::line_state::is_stopped;
use crate::post::Post;
use crate::surroundings::Surroundings;
use crate::telling::{LineStep, tell_commands, tell_files};
use crate::wires::{is_ready, refuse};
use njh_arrivals::Arrivals;
use njh_hub::{Hub, SessionView};
use njh_log::DownCause;
use njh_sight::{
    Label, awaited_event, awaits_again, is_session, room_refusal, session_end, session_of,
    tries_end,
};
use njh_sites::Asking;
use njh_table::{LineId, Protocol};
use njh_wire::{Connection, ConnectionEnd, LineWire, Network};
use std::io::Write;

/// For how long a line takes no connection on which a sign-on was refused, in milliseconds.
const BARRED: u64 = 1_000;

/// Looks at a line on which something came.
pub(crate) fn look<N: Network + Drop, L: Write + Drop>(
    surroundings: &mut Surroundings<N, L>,
    post: &mut Post<N::Listener, N::Connection>,
    hub: &Hub,
    wire: &mut LineWire<N::Connection>,
)
    ensures counts { wire.old.failures ≤ wire.new.failures }
    ensures tally { tally wire.new ≡ tally wire.old }
    ensures line { post.new.line ≡ post.old.line }
    ensures site { site_kept N.address_of post.new.site ≡ site_kept N.address_of post.old.site }
    ensures state { post.new.state ≡ post.old.state }
    ensures from { post.new.entrance.from ≡ post.old.entrance.from }
    ensures now { surroundings.new.now ≡ surroundings.old.now }
    ensures moment { HasLine hub.now post.old.line →
        let session = line_view (hub_line post.old.line hub.now).state in
        let moment = moment_seen post.old.label session surroundings.old.now post.old.moment in
        (post.new.moment ≡ moment) ⊎ (post.new.moment
        ≡ moment_of_loss (had_session post.old.label session) post.old.site moment surroundings.old.now) }
    ensures told { IsTold post.new.label.news surroundings.old.now }
    ensures ends { HasLine hub.now post.old.line →
        ¬ (IsInSession post.old.label.in_session wire.old × HasGivenUp hub.now post.old.line) →
        let session = line_view (hub_line post.old.line hub.now).state in
        post.new.label.news
        ≡ news_seen post.old.label session None (is_stopped post.old.state) surroundings.old.now }
    ensures tries { HasLine hub.now post.old.line → IsInSession post.old.label.in_session wire.old →
        HasGivenUp hub.now post.old.line →
        let session = line_view (hub_line post.old.line hub.now).state in
        let silence = silence_of wire.old in
        let tries = tries_end post.old.label.tries_since silence surroundings.old.now wire.old.last_bytes in
        post.new.label.news
        ≡ news_seen post.old.label session (Some tries) (is_stopped post.old.state) surroundings.old.now }
    ensures kept { HasLine hub.now post.old.line → ¬ HasGivenUp hub.now post.old.line →
        ¬ HasRefused post.old.label (line_view (hub_line post.old.line hub.now).state) →
        ¬ IsOverOn wire.old.protocol post.old.label (line_view (hub_line post.old.line hub.now).state) →
        wire.new.connection ≡ wire.old.connection }
    ensures left { IsLeft wire.old wire.new }
    ensures refused { HasLine hub.now post.old.line →
        HasRefused post.old.label (line_view (hub_line post.old.line hub.now).state) → ¬ IsConnected wire.new }
    ensures ended { IsInSession post.old.label.in_session wire.old → HasGivenUp hub.now post.old.line →
        ¬ IsConnected wire.new }
{
    let now = surroundings.now;
    let session = session_of(hub, post.line);
    let Parting {
        tries,
        is_refused,
        end,
    } = part(surroundings, post, &session, hub, wire);
    let is_early = post.label.in_session && !post.label.up;
    let is_stopped = is_stopped(post.state);
    let cause = session_end(tries, is_stopped, session.last_end);
    post.see(session, cause, now);
    tell_sessions(surroundings, &mut post.label, now);
    tell_awaited(surroundings, &mut post.label, &session, wire.is_connected());
    if let Some(end) = end {
        tell_end(surroundings, &mut post.label, end, is_early);
        post.lose(is_refused, now);
    }
}

/// How a line's session had its connection end.
#[derive(Drop)]
struct Parting {
    /// Why the session gave up, if it did.
    tries: Option<DownCause>,
    /// Whether a sign-on was refused.
    is_refused: bool,
    /// How the connection ended that the line had, once the hub has heard of it.
    end: Option<ConnectionEnd>,
}

/// Ends a line's connection where its session has it be, and answers how.
fn part<N: Network + Drop, L: Write + Drop>(
    surroundings: &mut Surroundings<N, L>,
    post: &mut Post<N::Listener, N::Connection>,
    session: &SessionView,
    hub: &Hub,
    wire: &mut LineWire<N::Connection>,
) -> Parting
    ensures same { post.new ≡ record post.old { label = post.new.label; entrance = post.new.entrance } }
    ensures label { post.new.label ≡ record post.old.label { barred_until = post.new.label.barred_until } }
    ensures from { post.new.entrance.from ≡ post.old.entrance.from }
    ensures now { surroundings.new.now ≡ surroundings.old.now }
    ensures counts { wire.old.failures ≤ wire.new.failures }
    ensures tally { tally wire.new ≡ tally wire.old }
    ensures left { IsLeft wire.old wire.new }
    ensures gave_up { IsSome result.tries
        ↔ (IsInSession post.old.label.in_session wire.old × HasGivenUp hub.now post.old.line) }
    ensures why { IfSome result.tries (λ end. end
        ≡ tries_end post.old.label.tries_since (silence_of wire.old) surroundings.old.now wire.old.last_bytes) }
    ensures kept { ¬ HasGivenUp hub.now post.old.line → ¬ HasRefused post.old.label session.now →
        ¬ IsOverOn wire.old.protocol post.old.label session.now → wire.new.connection ≡ wire.old.connection }
    ensures refused { HasRefused post.old.label session.now → ¬ IsConnected wire.new }
    ensures ended { IsSome result.tries → ¬ IsConnected wire.new }
{
    let tries = end_tries(surroundings, post.line, &post.label, hub, wire);
    let entrance = &mut post.entrance;
    let is_refused = end_refused(surroundings, entrance, &mut post.label, session, wire);
    let is_over = end_over(&post.label, session, wire);
    let end = heard_end(wire, tries.is_some() || is_refused || is_over);
    Parting {
        tries,
        is_refused,
        end,
    }
}

/// Notes what a step on a line left, which sent this frame: tells and counts what became of its
/// files and which commands were carried out, and keeps what is to be told of its session. That
/// one gave up is seen at the end of the turn, by what came last.
pub(crate) fn follow<N: Network + Drop, L: Write + Drop>(
    surroundings: &mut Surroundings<N, L>,
    post: &mut Post<N::Listener, N::Connection>,
    hub: &Hub,
    frame: &[u8],
    arrivals: &mut Arrivals,
)
    ensures line { post.new.line ≡ post.old.line }
    ensures site { site_kept N.address_of post.new.site ≡ site_kept N.address_of post.old.site }
    ensures state { post.new.state ≡ post.old.state }
    ensures from { post.new.entrance.from ≡ post.old.entrance.from }
    ensures traffic { post.new.traffic ≡ post.old.traffic }
    ensures now { surroundings.new.now ≡ surroundings.old.now }
    ensures customers { surroundings.new.customers ≡ surroundings.old.customers }
    ensures steps { HasLine hub.now post.old.line →
        let session = line_view (hub_line post.old.line hub.now).state in
        post.new.steps ≡ steps_after post.old.steps session frame.now }
    ensures session { HasLine hub.now post.old.line → ¬ HasGivenUp hub.now post.old.line →
        let session = line_view (hub_line post.old.line hub.now).state in
        let end = session_end None (is_stopped post.old.state) session.last_end in
        (post.new.label ≡ after_step post.old.label session end surroundings.old.now)
        × (post.new.moment ≡ moment_seen post.old.label session surroundings.old.now post.old.moment) }
    ensures gave_up { HasGivenUp hub.now post.old.line → post.new.label ≡ post.old.label }
{
    let session = session_of(hub, post.line);
    let is_new = post.steps.note(&session, frame);
    note_block(post, hub, frame, is_new);
    if !hub.has_given_up(post.line) {
        let is_stopped = is_stopped(post.state);
        post.follow(
            session,
            session_end(None, is_stopped, session.last_end),
            surroundings.now,
        );
    }
    let step = LineStep {
        id: post.line,
        label: &post.label,
        hub,
    };
    tell_files(surroundings, &step, &mut post.streams, arrivals);
    tell_commands(surroundings, &post.label, &mut post.streams.tally, hub);
    post.stands.note(post.line, hub, surroundings.now);
}

/// Counts the requests for files that a step refused, if the frame that it sent is a block that
/// wasn't sent before.
fn note_block<Li: Drop, C: Drop>(post: &mut Post<Li, C>, hub: &Hub, frame: &[u8], is_new: bool)
    ensures noted { post.new ≡ record post.old { streams = post.new.streams } }
    ensures none { ¬ IsTrue is_new → post.new ≡ post.old }
{
    if is_new {
        let why = room_refusal(hub, post.line.customer);
        post.streams.note_block(frame, post.label.streams, why);
    }
}

/// Ends the connection of a line that was in a session which gave up. Answers how that ended.
/// Without a connection it ended by its loss.
fn end_tries<N: Network + Drop, L: Write + Drop>(
    surroundings: &Surroundings<N, L>,
    id: LineId,
    label: &Label,
    hub: &Hub,
    wire: &mut LineWire<N::Connection>,
) -> Option<DownCause>
    ensures gave_up { IsSome result ↔ (IsInSession label.now.in_session wire.old × HasGivenUp hub.now id) }
    ensures why { IfSome result (λ end.
        end ≡ tries_end label.now.tries_since (silence_of wire.old) surroundings.entry.now.now wire.old.last_bytes) }
    ensures counts { wire.old.failures ≤ wire.new.failures }
    ensures tally { tally wire.new ≡ tally wire.old }
    ensures closed { IsSome result → wire.new ≡ after_close wire.old }
    ensures left { IsLeft wire.old wire.new }
    ensures kept { result ≡ None → wire.new ≡ wire.old }
{
    if label.in_session && wire.is_connected() && hub.has_given_up(id) {
        wire.close();
        let silent = wire.silent_for();
        Some(tries_end(
            label.tries_since,
            silent,
            surroundings.now,
            wire.last_bytes(),
        ))
    } else {
        None
    }
}

/// Ends the connection of a line on which a sign-on was refused since its session was seen last,
/// tells of it, and has the line take none for a second. Answers whether one was.
fn end_refused<N: Network + Drop, L: Write + Drop>(
    surroundings: &mut Surroundings<N, L>,
    entrance: &mut Entrance<Asking<N::Connection>>,
    label: &mut Label,
    session: &SessionView,
    wire: &mut LineWire<N::Connection>,
) -> bool
    ensures refused { IsTrue result ↔ HasRefused label.old session.now }
    ensures barred { IsTrue result → label.new ≡ record label.old { barred_until = barred_until surroundings.old.now } }
    ensures closed { IsTrue result → IsRefusedOn wire.old.protocol N.Connection.moved N.Connection.said wire.old wire.new }
    ensures gone { IsTrue result → ¬ IsConnected wire.new }
    ensures left { IsLeft wire.old wire.new }
    ensures noted { IsTrue result →
        entrance.new ≡ parted label.old.had_session true surroundings.old.now entrance.old }
    ensures from { entrance.new.from ≡ entrance.old.from }
    ensures logged { IsTrue result → IsLogged L.contents (place_of label.old)
        (told_refusal session.now.last_refusal entrance.new) surroundings.old.now
        surroundings.old.log surroundings.new.log }
    ensures kept { ¬ IsTrue result → (wire.new ≡ wire.old) × ((label.new ≡ label.old)
        × ((surroundings.new ≡ surroundings.old) × (entrance.new ≡ entrance.old))) }
    ensures now { surroundings.new.now ≡ surroundings.old.now }
    ensures counts { wire.old.failures ≤ wire.new.failures }
    ensures tally { tally wire.new ≡ tally wire.old }
{
    if !label.has_refused(session) {
        return false;
    }
    refuse(wire);
    label.barred_until = surroundings.now.saturating_add(BARRED);
    entrance.part(label.had_session, true, surroundings.now);
    surroundings.tell(label, told_refusal(session.last_refusal, entrance));
    true
}

/// Ends the connection of a line over TCP/IP that was in a session which is over, by whatever end:
/// the peer opens the link anew. Answers whether it was.
fn end_over<C: Connection + Drop>(
    label: &Label,
    session: &SessionView,
    wire: &mut LineWire<C>,
) -> bool
    ensures over { IsTrue result → IsOverOn wire.old.protocol label.now session.now }
    ensures closed { IsTrue result → wire.new ≡ after_close wire.old }
    ensures kept { ¬ IsTrue result → wire.new ≡ wire.old }
    ensures left { IsLeft wire.old wire.new }
    ensures counts { wire.old.failures ≤ wire.new.failures }
    ensures tally { tally wire.new ≡ tally wire.old }
{
    if !is_over(wire.protocol(), label, session) || !wire.is_connected() {
        return false;
    }
    wire.close();
    true
}

/// Whether a session is over that was on the line of this protocol, whose connections end with
/// their sessions.
fn is_over(protocol: Protocol, label: &Label, session: &SessionView) -> bool
    ensures { IsTrue result ↔ IsOverOn protocol label.now session.now }
{
    match protocol {
        Protocol::Bisync => false,
        Protocol::Tcp => { (label.in_session || label.had_session) && !is_session(session.phase) }
    }
}

/// Tells of a line's sessions what is to be told now, if anything is.
pub(crate) fn tell_sessions<N: Network + Drop, L: Write + Drop>(
    surroundings: &mut Surroundings<N, L>,
    label: &mut Label,
    now: u64,
)
    ensures told { label.new ≡ record label.old { news = after_telling label.old.news now } }
    ensures now { surroundings.new.now ≡ surroundings.old.now }
    ensures silent { told_now label.old.news now ≡ None → surroundings.new ≡ surroundings.old }
    ensures logged { IfSome (told_now label.old.news now) (λ event. IsLogged L.contents (place_of label.old) event
        surroundings.old.now surroundings.old.log surroundings.new.log) }
{
    match label.news.take(now) {
        Some(event) => surroundings.tell(label, event),
        None => {}
    }
}

/// Tells what is due on a line that has a connection without a session, if it is to be told
/// now.
fn tell_awaited<N: Network + Drop, L: Write + Drop>(
    surroundings: &mut Surroundings<N, L>,
    label: &mut Label,
    session: &SessionView,
    is_connected: bool,
)
    ensures now { surroundings.new.now ≡ surroundings.old.now }
    ensures news { label.new.news ≡ label.old.news }
    ensures told { IsSome (told_awaited label.old session.now is_connected surroundings.old.now) →
        label.new ≡ record label.old { awaits_again = awaits_again surroundings.old.now } }
    ensures silent { told_awaited label.old session.now is_connected surroundings.old.now ≡ None →
        (label.new ≡ label.old) × (surroundings.new ≡ surroundings.old) }
    ensures logged { IfSome (told_awaited label.old session.now is_connected surroundings.old.now) (λ event.
        IsLogged L.contents (place_of label.old) event surroundings.old.now surroundings.old.log surroundings.new.log) }
{
    match awaited_event(label, session, is_connected, surroundings.now) {
        Some(event) => {
            label.awaits_again = awaits_again(surroundings.now);
            surroundings.tell(label, event);
        }
        None => {}
    }
}

/// Why a connection ended, once the hub has heard of it. It need not hear of one that was ended as
/// its session gave up, or as a sign-on was refused.
fn heard_end<C: Connection + Drop>(wire: &mut LineWire<C>, gave_up: bool) -> Option<ConnectionEnd>
    ensures counts { wire.old.failures ≤ wire.new.failures }
    ensures tally { tally wire.new ≡ tally wire.old }
    ensures kept { wire.new.connection ≡ wire.old.connection }
    ensures left { IsLeft wire.old wire.new }
    ensures connected { IsConnected wire.old → (result ≡ None) × (wire.new ≡ wire.old) }
    ensures waits { ¬ IsTrue gave_up → IsReady wire.old → (result ≡ None) × (wire.new ≡ wire.old) }
    ensures heard { ¬ IsConnected wire.old → (IsTrue gave_up ⊎ ¬ IsReady wire.old) →
        (result ≡ wire.old.end) × (wire.new ≡ record wire.old { end = None }) }
{
    if wire.is_connected() {
        return None;
    }
    // The next read is to tell the hub.
    if is_ready(wire) && !gave_up {
        return None;
    }
    wire.take_end()
}
