//! What the log calls a line, and what it told of it.

ghost use Rattle.std.specs.Prelude.{◌≡◌, ◌↔◌, IsTrue};
ghost use Rattle.njh_sight.specs.Sessions.{after_session, after_step, HasRefused};

use crate::ending::{
    end_after, in_session_after, is_session, is_up, no_session_since, session_change, tries_since,
    up_since,
};
use crate::news::News;
use arrayvec::ArrayString;
use njh_ebcdic::Name;
use njh_hub::SessionView;
use njh_log::DownCause;
use njh_open::NakReason;

/// How many bytes the name of a line has at most.
const NAME: usize = 8;

/// What a line is called.
#[derive(Clone, Copy, Drop)]
pub struct LineNames<'a> {
    /// Its customer.
    pub customer: Name,
    /// Its name on this hub.
    pub line: &'a str,
    /// The node at its other end.
    pub node: Name,
    /// What its customer calls the hub.
    pub hub: Name,
    /// How many streams of each kind it has.
    pub streams: u8,
}

/// What the log calls a line, and what it told of it.
#[derive(Clone, Copy, Drop)]
pub struct Label {
    /// Its customer.
    pub customer: Name,
    /// Its name on this hub.
    pub line: ArrayString<NAME>,
    /// From when on a connection may be told again.
    pub again: u64,
    /// Whether the line's connection was told.
    pub connected: bool,
    /// The node at its other end.
    pub node: Name,
    /// What its customer calls the hub.
    pub hub: Name,
    /// How many streams of each kind it has.
    pub streams: u8,
    /// Whether its session was up.
    pub up: bool,
    /// What of its sessions isn't told yet.
    pub news: News,
    /// Since when its connection is without a session that is up, on the service's clock: since it
    /// came, or since its session ended.
    pub no_session_since: u64,
    /// Since when no session is up on it, on the service's clock: since the last one ended, or since
    /// the start.
    pub down_since: u64,
    /// Whether it was in a session, up or on the way there.
    pub in_session: bool,
    /// When it was seen that the session tried again, the first time of the tries in a row that it
    /// has made, on the service's clock; none if it has made none.
    pub tries_since: Option<u64>,
    /// How many sign-ons were refused on it, as its session was seen last.
    pub refusals: u64,
    /// Until when it takes no connection, on the service's clock.
    pub barred_until: u64,
    /// When its last connection came, on the service's clock.
    pub connected_since: u64,
    /// When its last session came up, on the service's clock.
    pub up_since: u64,
    /// Whether a session was up on the connection that came last.
    pub had_session: bool,
    /// Why the last session ended that was up, if one did.
    pub last_end: Option<DownCause>,
    /// From when on it may be told that its connection is without a session.
    pub awaits_again: u64,
    /// What the peer answered to the OPEN of its last dial, if it was NAK.
    pub nak: Option<NakReason>,
}

impl Label {
    /// A line of these names, of which nothing was told.
    pub fn of(names: &LineNames<'_>) -> Label
        ensures node { result.node ≡ names.now.node }
        ensures hub { result.hub ≡ names.now.hub }
    {
        let mut line = ArrayString::new();
        let _whole = line.try_push_str(names.line).is_ok();
        Label {
            customer: names.customer,
            line,
            node: names.node,
            hub: names.hub,
            streams: names.streams,
            up: false,
            news: News::none(),
            no_session_since: 0,
            down_since: 0,
            in_session: false,
            tries_since: None,
            refusals: 0,
            barred_until: 0,
            connected_since: 0,
            up_since: 0,
            had_session: false,
            last_end: None,
            awaits_again: 0,
            nak: None,
            again: 0,
            connected: false,
        }
    }

    /// A step left its session so; if it is down, it ended so.
    pub fn follow(&mut self, session: SessionView, end: DownCause, now: u64)
        ensures { self.new ≡ after_step self.old session end now }
    {
        let is_up = is_up(session.phase);
        self.news
            .add(session_change(self.up, is_up, self.node, end));
        self.in_session = in_session_after(self.in_session, self.up, is_up);
        self.no_session_since = no_session_since(self.no_session_since, self.up, is_up, now);
        self.down_since = no_session_since(self.down_since, self.up, is_up, now);
        self.up_since = up_since(self.up_since, self.up, is_up, now);
        self.last_end = end_after(self.last_end, self.up, is_up, end);
        self.had_session = self.had_session || is_up;
        self.up = is_up;
    }

    /// Its session was seen so at the end of a turn; if it is down, it ended so.
    pub fn see(&mut self, session: SessionView, end: DownCause, now: u64)
        ensures { self.new ≡ after_session self.old session end now }
    {
        let tries_since = tries_since(self.tries_since, session.tries, now);
        let in_session = is_session(session.phase);
        let refusals = session.refusals;
        self.follow(session, end, now);
        self.in_session = in_session;
        self.tries_since = tries_since;
        self.refusals = refusals;
    }

    /// Whether a sign-on was refused since its session was seen last.
    pub fn has_refused(&self, session: &SessionView) -> bool
        ensures { IsTrue result ↔ HasRefused self.now session.now }
    {
        self.refusals < session.refusals
    }
}
