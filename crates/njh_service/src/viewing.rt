//! What the console tells of the lines that are served.

ghost use Rattle.std.specs.Prelude.{◌≡◌, map, not, IfOk};
ghost use Rattle.njh_service.specs.Bureaus.{bytes_on, counts_of, lines_told, peer_if, post_told, refused_in};
ghost use Rattle.njh_service.specs.Bureaus.{seconds_at, seconds_if, turned_by, view_told, with_messages};

use crate::line_clock::LineClock;
use crate::troubles::{is_connected_at, line_trouble};
use njh_answer::{BothWays, LineCounts, LineView, Refused, TurnedAway};
use njh_anteroom::{Guest, Remembered};
use njh_hub::{Hub, MessageCounts};
use njh_lines::{Exchange, Post};
use njh_sight::{ComingStand, FileRefusals, GoingStand, Queue, Steps, Tally};
use njh_sites::{Door, Site};
use njh_table::{LineId, Tables};
use njh_wire::{Connection, LineWire, Network};
use std::alloc::{AllocError, Global};
use std::io::Write;
use std::net::SocketAddr;

/// What lines are told by: the tables that the hub was opened with, the hub, and the clock.
#[derive(Clone, Copy)]
pub(crate) struct Sources<'a> {
    pub(crate) tables: Option<&'a Tables>,
    pub(crate) hub: &'a Hub,
    pub(crate) clock: LineClock,
    /// Since when messages wait on each line.
    pub(crate) queues: &'a [Queue],
}

/// What is seen of the wire of a line, and of its queue.
#[derive(Clone, Copy)]
struct WireView {
    /// Whether somebody is connected on it.
    is_connected: bool,
    /// How many bytes came on it and went.
    bytes: BothWays,
    /// Since when messages wait to go on it.
    queue: Queue,
}

/// What is told of each line, on the wires of the lines, by the tables that the hub was opened
/// with. Out of memory is the only refusal.
pub(crate) fn line_views<N: Network + Drop, L: Write + Drop>(
    alloc: Global,
    exchange: &mut Exchange<N, L>,
    tables: Option<&Tables>,
    hub: &Hub,
    wires: &[LineWire<N::Connection>],
) -> Result<Vec<LineView>, AllocError>
    ensures same { exchange.new ≡ exchange.old }
    ensures told { IfOk result (λ views. map view_told views.items
        ≡ lines_told exchange.old.lines exchange.old.steps exchange.old.tallies) }
{
    let clock = LineClock {
        now: exchange.now(),
        utc: u64::try_from(exchange.utc()).unwrap_or(0),
    };
    let queues = exchange.queues();
    let sources = Sources {
        tables,
        hub,
        clock,
        queues,
    };
    views_of(alloc, sources, exchange.posts(), wires)
}

/// What is told of lines.
fn views_of<Li: Drop, C: Connection + Drop>(
    alloc: Global,
    sources: Sources<'_>,
    posts: &[Post<Li, C>],
    wires: &[LineWire<C>],
) -> Result<Vec<LineView>, AllocError>
    ensures { IfOk result (λ views. map view_told views.items ≡ map post_told posts.now) }
{
    let mut views = Vec::new(alloc);
    for place in 0..posts.len() {
        let wire = seen_on(sources.queues, wires, place);
        views.push(view_of(alloc, sources, &posts[place], wire)?)?;
    }
    Ok(views)
}

/// What is seen of the wire at a place.
fn seen_on<C: Connection + Drop>(queues: &[Queue], wires: &[LineWire<C>], place: usize) -> WireView
    ensures { result.bytes ≡ bytes_on place wires.now }
{
    WireView {
        is_connected: is_connected_at(wires, place),
        bytes: bytes_on(wires, place),
        queue: queue_at(queues, place),
    }
}

/// Since when messages wait on the line at a place.
fn queue_at(queues: &[Queue], place: usize) -> Queue {
    match queues.get(place) {
        Some(queue) => *queue,
        None => Queue::none(),
    }
}

/// How many bytes came on the wire at a place, and went.
fn bytes_on<C: Connection + Drop>(wires: &[LineWire<C>], place: usize) -> BothWays
    ensures { result ≡ bytes_on place wires.now }
{
    match wires.get(place) {
        Some(wire) => BothWays {
            came: wire.came(),
            went: wire.went(),
        },
        None => BothWays { came: 0, went: 0 },
    }
}

/// What is told of a line.
fn view_of<Li: Drop, C: Drop>(
    alloc: Global,
    sources: Sources<'_>,
    post: &Post<Li, C>,
    wire: WireView,
) -> Result<LineView, AllocError>
    ensures told { IfOk result (λ view. view_told view ≡ post_told post.now) }
    ensures bytes { IfOk result (λ view. view.counts.bytes ≡ wire.bytes) }
    ensures connected { IfOk result (λ view.
        view.connected ≡ seconds_if sources.entry.clock wire.is_connected post.now.label.connected_since) }
    ensures up { IfOk result (λ view.
        view.up ≡ seconds_if sources.entry.clock post.now.label.up post.now.label.up_since) }
    ensures down { IfOk result (λ view.
        view.down ≡ seconds_if sources.entry.clock (not post.now.label.up) post.now.label.down_since) }
    ensures since { IfOk result (λ view. view.state_since ≡ seconds_at sources.entry.clock post.now.state_since) }
    ensures coming { IfOk result (λ view. view.coming_since.items
        ≡ map (λ stand. seconds_at sources.entry.clock stand.since) post.now.stands.coming) }
    ensures going { IfOk result (λ view. view.going_since.items
        ≡ map (λ stand. seconds_at sources.entry.clock stand.since) post.now.stands.going) }
    ensures peer { IfOk result (λ view. view.peer ≡ peer_if wire.is_connected post.now.entrance.peer) }
    ensures waiting { IfOk result (λ view.
        view.waiting.items ≡ map (λ guest. guest.address) post.now.entrance.anteroom.waiting) }
    ensures refused { IfOk result (λ view.
        view.refused.items ≡ refused_in post.now.entrance.anteroom.remembered) }
{
    let clock = sources.clock;
    let site = site_text(alloc, sources.tables, post)?;
    let last_end = end_text(alloc, post)?;
    let coming_since = coming_moments(alloc, &post.stands.coming, clock)?;
    let going_since = going_moments(alloc, &post.stands.going, clock)?;
    let messages = sources.hub.message_counts(post.line);
    let messages_since = queue_moments(alloc, sources, post.line, wire.queue, messages.sent)?;
    let counts = counts_of(&post.steps, &post.streams.tally, wire.bytes);
    let wrong = line_trouble(alloc, sources.hub, post, wire.is_connected, clock)?;
    let waiting = waiting_of(alloc, post.entrance.anteroom.waiting())?;
    let refused = refused_of(alloc, post.entrance.anteroom.remembered())?;
    let label = &post.label;
    Ok(LineView {
        line: post.line,
        state: post.state,
        state_since: clock.seconds_at(post.state_since),
        site,
        connected: clock.seconds_if(wire.is_connected, label.connected_since),
        up: clock.seconds_if(label.up, label.up_since),
        down: clock.seconds_if(!label.up, label.down_since),
        last_end,
        naks: post.steps.naks,
        repeats: post.steps.repeats,
        counts: with_messages(counts, messages),
        coming_since,
        going_since,
        messages_since,
        wrong,
        peer: peer_if(wire.is_connected, post.entrance.peer),
        waiting,
        refused,
    })
}

/// What was counted of a line at its steps and of its files, and these bytes.
fn counts_of(steps: &Steps, tally: &Tally, bytes: BothWays) -> LineCounts
    ensures { result ≡ counts_of steps.now tally.now bytes }
{
    LineCounts {
        blocks: BothWays {
            came: steps.blocks_in,
            went: steps.blocks_out,
        },
        bytes,
        files: BothWays {
            came: tally.files_in,
            went: tally.files_out,
        },
        messages: BothWays { came: 0, went: 0 },
        dropped: 0,
        records: BothWays {
            came: tally.records_in,
            went: tally.records_out,
        },
        commands: tally.commands,
        cut_off: tally.cut_off,
        returned: tally.returned,
        turned_away: turned_by(&tally.refused),
    }
}

/// The same, with how many nodal messages came, went and were dropped.
fn with_messages(counts: LineCounts, messages: MessageCounts) -> LineCounts
    ensures { result ≡ with_messages messages counts }
{
    LineCounts {
        messages: BothWays {
            came: messages.came,
            went: messages.sent,
        },
        dropped: messages.dropped,
        ..counts
    }
}

/// Since when the messages wait that wait on a line, of which so many went before.
fn queue_moments(
    alloc: Global,
    sources: Sources<'_>,
    line: LineId,
    queue: Queue,
    sent: u64,
) -> Result<Vec<Option<u64>>, AllocError> {
    let mut moments = Vec::new(alloc);
    let waiting = sources.hub.message_count(line).unwrap_or(0) as u64;
    for index in 0..waiting {
        let moment = match queue.since(sent.saturating_add(index)) {
            Some(moment) => Some(sources.clock.seconds_at(moment)),
            None => None,
        };
        moments.push(moment)?;
    }
    Ok(moments)
}

/// How many files were refused, by why.
fn turned_by(refused: &FileRefusals) -> TurnedAway
    ensures { result ≡ turned_by refused.now }
{
    TurnedAway {
        files: refused.files,
        quota: refused.quota,
        route: refused.route,
        other: refused.other,
    }
}

/// Since when streams to the hub stand as they stand.
fn coming_moments(
    alloc: Global,
    stands: &[ComingStand],
    clock: LineClock,
) -> Result<Vec<u64>, AllocError>
    ensures { IfOk result (λ moments. moments.items ≡ map (λ stand. seconds_at clock stand.since) stands.now) }
{
    let mut moments = Vec::new(alloc);
    for stand in stands {
        moments.push(clock.seconds_at(stand.since))?;
    }
    Ok(moments)
}

/// Since when streams from the hub do.
fn going_moments(
    alloc: Global,
    stands: &[GoingStand],
    clock: LineClock,
) -> Result<Vec<u64>, AllocError>
    ensures { IfOk result (λ moments. moments.items ≡ map (λ stand. seconds_at clock stand.since) stands.now) }
{
    let mut moments = Vec::new(alloc);
    for stand in stands {
        moments.push(clock.seconds_at(stand.since))?;
    }
    Ok(moments)
}

/// Who is connected, if somebody is: of who had the line last nothing is told.
fn peer_if(is_connected: bool, peer: Option<SocketAddr>) -> Option<SocketAddr>
    ensures { result ≡ peer_if is_connected peer }
{
    if is_connected { peer } else { None }
}

/// Who waits for a line, in their order.
fn waiting_of<C: Drop>(alloc: Global, guests: &[Guest<C>]) -> Result<Vec<SocketAddr>, AllocError>
    ensures { IfOk result (λ waiting. waiting.items ≡ map (λ guest. guest.address) guests.now) }
{
    let mut waiting = Vec::new(alloc);
    for guest in guests {
        waiting.push(guest.address)?;
    }
    Ok(waiting)
}

/// The addresses that are remembered of which sign-ons were refused, what was noted last behind all
/// else.
fn refused_of(alloc: Global, remembered: &[Remembered]) -> Result<Vec<Refused>, AllocError>
    ensures { IfOk result (λ refused. refused.items ≡ refused_in remembered.now) }
{
    let mut refused = Vec::new(alloc);
    for known in remembered {
        if known.refusals > 0 {
            refused.push(Refused {
                address: known.address,
                count: known.refusals,
            })?;
        }
    }
    Ok(refused)
}

/// Where a line of tables listens or can't, or whom it dials; nothing if there are no tables.
fn site_text<Li: Drop, C: Drop>(
    alloc: Global,
    tables: Option<&Tables>,
    post: &Post<Li, C>,
) -> Result<String, AllocError> {
    let id = post.line;
    let Some(tables) = tables else {
        return Ok(String::new(alloc));
    };
    if !tables.has_line(id) {
        return Ok(String::new(alloc));
    }
    let entry = tables.line(id);
    match entry.peer() {
        Some(address) => format!(in alloc; "dials {address}"),
        None => port_text(alloc, entry.port(), is_shut(post)),
    }
}

fn port_text(alloc: Global, port: u16, is_shut: bool) -> Result<String, AllocError> {
    if is_shut {
        format!(in alloc; "can't listen {port}")
    } else {
        format!(in alloc; "listens {port}")
    }
}

/// Whether nothing listens for a line that has a port.
fn is_shut<Li: Drop, C: Drop>(post: &Post<Li, C>) -> bool {
    match &post.site {
        Site::Listens(Door::Open(_)) => false,
        Site::Listens(Door::Shut { .. }) => true,
        Site::Dials(_) => false,
    }
}

/// Why the last session of a line ended that was up; nothing if none was.
fn end_text<Li: Drop, C: Drop>(alloc: Global, post: &Post<Li, C>) -> Result<String, AllocError> {
    match post.label.last_end {
        Some(end) => format!(in alloc; "{end}"),
        None => Ok(String::new(alloc)),
    }
}
