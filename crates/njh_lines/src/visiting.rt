//! What the attendant does with one line.

ghost use Rattle.std.specs.Prelude.{◌≡◌, ◌<◌, ◌≤◌, ◌↔◌, [], length, None, IsSome, IsTrue};
ghost use Rattle.njh_hub.specs.Quiets.{quiet_on, quiet_time};
ghost use Rattle.njh_hub.specs.Views.{HasGivenUp, hub_line, line_view};
ghost use Rattle.njh_hub.specs.WholeHub.{HasLine};
ghost use Rattle.njh_wire.specs.Standing.{due};
ghost use Rattle.njh_wire.specs.Tally.{tally};
ghost use Rattle.njh_lines.specs.Attention.{again_at, first_of, stalled_at, IsDue, IsMarked};
ghost use Rattle.njh_lines.specs.Connecting.{IsConnected};
ghost use Rattle.njh_sight.specs.News.{news_moment, IsTold};
ghost use Rattle.njh_sites.specs.Opened.{site_kept};
ghost use Rattle.njh_sight.specs.Sessions.{is_up, HasRefused};
ghost use Rattle.njh_lines.specs.Connecting.{IsOverOn, IsReady};
ghost use Rattle.njh_lines.specs.Resting.{IsMarkedFor, IsNextLook};
ghost use Rattle.njh_lines.specs.Watching.{noted_of};
ghost use Rattle.njh_lines.specs.Wires.{IsLeft};
ghost use Rattle.njh_sight.specs.Prompting.{noted};
ghost use Rattle.njh_request.specs.declared.request.LineState.TheVariants.{Stopped};

use crate::attention::{NOTHING, Watch, is_marked};
use crate::dialling::drive;
use crate::doors::keep_door;
use crate::entrance::Entrance;
use crate::line_state::is_stopped;
use crate::post::Post;
use crate::sessions::{look, tell_sessions};
use crate::stopping::hold;
use crate::surroundings::Surroundings;
use crate::wires::{beside_at, deadline, is_ready, tend};
use njh_hub::{Hub, SessionView};
use njh_sight::{Sight, Traffic, is_up, session_of, sight_of};
use njh_sites::{Asking, Site};
use njh_table::LineId;
use njh_wire::{Connection, LineWire, Network, Readiness};
use std::io::Write;

/// When a line on which bytes wait to go out is looked at again, in milliseconds.
const AGAIN: u64 = 100;

/// Looks at a line if something of it is ready or its moment came, and sets its wire's clock
/// then. No mark of it stays.
pub(crate) fn begin<N: Network + Drop, L: Write + Drop>(
    surroundings: &mut Surroundings<N, L>,
    post: &mut Post<N::Listener, N::Connection>,
    ready: &mut Readiness,
    watch: &mut Watch,
    wire: &mut LineWire<N::Connection>,
)
    ensures due { IsTrue watch.new.is_due ↔ IsDue ready.old watch.old.moment surroundings.old.now }
    ensures moment { watch.new.moment ≡ watch.old.moment }
    ensures unmarked { ¬ IsMarked ready.new }
    ensures clock { IsTrue watch.new.is_due → wire.new.clock ≡ surroundings.old.now }
    ensures still { ¬ IsTrue watch.new.is_due → wire.new ≡ wire.old }
    ensures counts { wire.old.failures ≤ wire.new.failures }
    ensures tally { tally wire.new ≡ tally wire.old }
    ensures line { post.new.line ≡ post.old.line }
    ensures site { site_kept N.address_of post.new.site ≡ site_kept N.address_of post.old.site }
    ensures state { post.new.state ≡ post.old.state }
    ensures from { post.new.entrance.from ≡ post.old.entrance.from }
    ensures stopped { post.old.state ≡ Stopped → IsTrue watch.new.is_due → ¬ IsConnected wire.new }
    ensures now { surroundings.new.now ≡ surroundings.old.now }
    ensures customers { surroundings.new.customers ≡ surroundings.old.customers }
{
    let mark = *ready;
    let is_ready = is_marked(mark);
    if !watch.begin(is_ready, surroundings.now) {
        return;
    }
    *ready = NOTHING;
    wire.set_clock(surroundings.now);
    tend(wire, surroundings.now);
    if is_ready || post.moment <= surroundings.now || is_stopped(post.state) {
        attend(surroundings, post, wire, mark);
    }
}

/// Looks at a line of which something is ready, or whose site's moment came.
pub(crate) fn attend<N: Network + Drop, L: Write + Drop>(
    surroundings: &mut Surroundings<N, L>,
    post: &mut Post<N::Listener, N::Connection>,
    wire: &mut LineWire<N::Connection>,
    mark: Readiness,
)
    ensures counts { wire.old.failures ≤ wire.new.failures }
    ensures tally { tally wire.new ≡ tally wire.old }
    ensures clock { wire.new.clock ≡ wire.old.clock }
    ensures line { post.new.line ≡ post.old.line }
    ensures site { site_kept N.address_of post.new.site ≡ site_kept N.address_of post.old.site }
    ensures state { post.new.state ≡ post.old.state }
    ensures from { post.new.entrance.from ≡ post.old.entrance.from }
    ensures stopped { post.old.state ≡ Stopped → ¬ IsConnected wire.new }
    ensures now { surroundings.new.now ≡ surroundings.old.now }
    ensures customers { surroundings.new.customers ≡ surroundings.old.customers }
{
    if is_stopped(post.state) {
        hold(surroundings, post, wire, mark);
    } else {
        look_for_peer(surroundings, post, wire, mark);
    }
    // A connection that ends in the round to come is seen to have been there.
    post.linked = post.linked || wire.is_connected();
}

/// Looks at a line that isn't stopped.
fn look_for_peer<N: Network + Drop, L: Write + Drop>(
    surroundings: &mut Surroundings<N, L>,
    post: &mut Post<N::Listener, N::Connection>,
    wire: &mut LineWire<N::Connection>,
    mark: Readiness,
)
    ensures counts { wire.old.failures ≤ wire.new.failures }
    ensures tally { tally wire.new ≡ tally wire.old }
    ensures clock { wire.new.clock ≡ wire.old.clock }
    ensures line { post.new.line ≡ post.old.line }
    ensures site { site_kept N.address_of post.new.site ≡ site_kept N.address_of post.old.site }
    ensures state { post.new.state ≡ post.old.state }
    ensures from { post.new.entrance.from ≡ post.old.entrance.from }
    ensures now { surroundings.new.now ≡ surroundings.old.now }
    ensures customers { surroundings.new.customers ≡ surroundings.old.customers }
{
    if mark.reads {
        wire.mark_readable();
    }
    if mark.writes {
        wire.flush();
    }
    match &mut post.site {
        Site::Listens(door) => {
            let entrance = &mut post.entrance;
            if mark.listener || post.moment <= surroundings.now || asks(mark, entrance) {
                post.moment = keep_door(surroundings, door, entrance, &mut post.label, wire, false);
            }
        }
        Site::Dials(dial) => {
            drive(
                surroundings,
                dial,
                &mut post.entrance,
                &mut post.label,
                wire,
            );
            post.moment = dial.moment();
        }
    }
}

/// Whether one who waits may have said something: on a line over TCP/IP those who wait are heard.
fn asks<C: Drop>(mark: Readiness, entrance: &Entrance<Asking<C>>) -> bool {
    mark.reads && !entrance.anteroom.waiting().is_empty()
}

/// Ends the connection of a line whose session gave up, or refused a sign-on, and tells what
/// changed, if something came, or the line was quiet or prompted. Sets how long the line's next
/// quiet lasts, and notes how the line is. Answers when it wants to be looked at.
pub(crate) fn apply_session<N: Network + Drop, L: Write + Drop>(
    surroundings: &mut Surroundings<N, L>,
    post: &mut Post<N::Listener, N::Connection>,
    hub: &Hub,
    wire: &mut LineWire<N::Connection>,
) -> u64
    ensures counts { wire.old.failures ≤ wire.new.failures }
    ensures tally { tally wire.new ≡ tally wire.old }
    ensures line { post.new.line ≡ post.old.line }
    ensures site { site_kept N.address_of post.new.site ≡ site_kept N.address_of post.old.site }
    ensures state { post.new.state ≡ post.old.state }
    ensures from { post.new.entrance.from ≡ post.old.entrance.from }
    ensures now { surroundings.new.now ≡ surroundings.old.now }
    ensures asks { IsNextLook wire.new (noted_of post.new) surroundings.old.now result }
    ensures told { IsTold post.new.label.news surroundings.old.now }
    ensures tells { result ≤ news_moment post.new.label.news }
    ensures kept { HasLine hub.now post.old.line → ¬ HasGivenUp hub.now post.old.line →
        ¬ HasRefused post.old.label (line_view (hub_line post.old.line hub.now).state) →
        ¬ IsOverOn wire.old.protocol post.old.label (line_view (hub_line post.old.line hub.now).state) →
        wire.new.connection ≡ wire.old.connection }
    ensures left { IsLeft wire.old wire.new }
    ensures quiet { HasLine hub.now post.old.line → wire.new.quiet ≡ quiet_on post.old.line hub.now }
    ensures refused { HasLine hub.now post.old.line →
        HasRefused post.old.label (line_view (hub_line post.old.line hub.now).state) → ¬ IsConnected wire.new }
    ensures up { HasLine hub.now post.old.line →
        wire.new.up ≡ is_up (line_view (hub_line post.old.line hub.now).state).phase }
{
    let now = surroundings.now;
    let session = session_of(hub, post.line);
    visit(surroundings, post, &session, hub, wire);
    set_session(&session, wire);
    note_sight(
        surroundings,
        post.line,
        &mut post.traffic,
        sight_of(post.line, hub, wire),
    );
    let soon = post.traffic.soon(now);
    let moment = next_look(wire, post.moment, soon, now);
    moment.min(post.label.news.moment()).min(beside_at(wire))
}

/// Looks at a line, if something came, or the line was quiet or prompted, or a sign-on was refused.
/// Else tells only what of its sessions waited to be told.
fn visit<N: Network + Drop, L: Write + Drop>(
    surroundings: &mut Surroundings<N, L>,
    post: &mut Post<N::Listener, N::Connection>,
    session: &SessionView,
    hub: &Hub,
    wire: &mut LineWire<N::Connection>,
)
    ensures counts { wire.old.failures ≤ wire.new.failures }
    ensures tally { tally wire.new ≡ tally wire.old }
    ensures line { post.new.line ≡ post.old.line }
    ensures site { site_kept N.address_of post.new.site ≡ site_kept N.address_of post.old.site }
    ensures state { post.new.state ≡ post.old.state }
    ensures from { post.new.entrance.from ≡ post.old.entrance.from }
    ensures now { surroundings.new.now ≡ surroundings.old.now }
    ensures told { IsTold post.new.label.news surroundings.old.now }
    ensures kept { HasLine hub.now post.old.line → ¬ HasGivenUp hub.now post.old.line →
        ¬ HasRefused post.old.label (line_view (hub_line post.old.line hub.now).state) →
        ¬ IsOverOn wire.old.protocol post.old.label (line_view (hub_line post.old.line hub.now).state) →
        wire.new.connection ≡ wire.old.connection }
    ensures left { IsLeft wire.old wire.new }
    ensures refused { HasLine hub.now post.old.line → HasRefused post.old.label session.now →
        session.now ≡ line_view (hub_line post.old.line hub.now).state → ¬ IsConnected wire.new }
{
    let now = surroundings.now;
    if is_at_rest(post, session, wire, now) {
        tell_sessions(surroundings, &mut post.label, now);
        return;
    }
    look(surroundings, post, hub, wire);
    post.linked = wire.is_connected() || wire.is_ready();
}

/// Whether nothing came on a line, it was neither quiet nor prompted, no end of a connection is to
/// be seen, and no sign-on was refused.
fn is_at_rest<Li: Drop, C: Connection + Drop>(
    post: &Post<Li, C>,
    session: &SessionView,
    wire: &LineWire<C>,
    now: u64,
) -> bool
    ensures refused { IsTrue result → ¬ HasRefused post.now.label session.now }
{
    let begun = wire.begun();
    let is_silent = begun == post.traffic.seen.begun && begun != now;
    is_silent && (!post.linked || wire.is_connected()) && !post.label.has_refused(session)
}

/// Notes how a line is at the end of its turn, and of its customer whether a line may have
/// something to send by that.
fn note_sight<N: Network + Drop, L: Write + Drop>(
    surroundings: &mut Surroundings<N, L>,
    id: LineId,
    traffic: &mut Traffic,
    sight: Sight,
)
    ensures noted { traffic.new ≡ noted traffic.old sight surroundings.old.now }
    ensures now { surroundings.new.now ≡ surroundings.old.now }
    ensures marks { IsMarkedFor id.customer traffic.old.seen sight surroundings.old.customers
        surroundings.new.customers }
{
    if traffic.note(sight, surroundings.now) {
        surroundings.customers.mark(id.customer);
    }
}

/// Tells a line's wire whether its session is up, and how long its next quiet lasts.
fn set_session<C: Connection + Drop>(session: &SessionView, wire: &mut LineWire<C>)
    ensures { wire.new ≡ record wire.old {
      quiet = quiet_time session.now;
      up = is_up session.now.phase;
    } }
{
    wire.set_quiet(session.quiet_time());
    wire.set_up(is_up(session.phase));
}

/// When a line wants to be looked at: at once if something is ready; else at the first of what it
/// waits for. `moment` is its site's, `soon` that of texts that were on it of late.
fn next_look<C: Connection + Drop>(wire: &LineWire<C>, moment: u64, soon: u64, now: u64) -> u64
    ensures waits { 0 < length wire.now.waiting → ¬ IsReady wire.now →
        result ≡ first_of (again_at now) moment (stalled_at wire.now) }
    ensures ready { IsReady wire.now → result ≡ now }
    ensures rests { wire.now.waiting ≡ [] → ¬ IsReady wire.now → IsSome wire.now.connection →
        result ≡ first_of (due wire.now) moment soon }
    ensures alone { wire.now.waiting ≡ [] → ¬ IsReady wire.now → wire.now.connection ≡ None →
        result ≡ first_of 18446744073709551615 moment soon }
{
    if is_ready(wire) {
        return now;
    }
    if wire.waits_to_send() {
        let again = now.saturating_add(AGAIN);
        return again.min(moment).min(deadline(wire));
    }
    deadline(wire).min(moment).min(soon)
}
