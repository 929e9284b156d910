//! A line that is served, as the attendant sees it.

ghost use Rattle.std.specs.Prelude.{◌≡◌, None, IsSome};
ghost use Rattle.std.specs.declared.net.socket_addr.SocketAddr.{SocketAddr};
ghost use Rattle.njh_request.specs.declared.request.LineState.TheVariants.{Started};
ghost use Rattle.njh_sites.specs.Dialling.{moment_of_loss, site_lost};
ghost use Rattle.njh_sites.specs.Opened.{site_kept, site_opened};
ghost use Rattle.njh_sight.specs.Sessions.{after_session, after_step, had_session};
ghost use Rattle.njh_lines.specs.Connecting.{moment_behind, moment_seen};
ghost use Rattle.njh_lines.specs.Entrances.{parted_as_lost, seen_session};
ghost use Rattle.njh_lines.specs.LineStates.{change_event};

use crate::entrance::Entrance;
use crate::line_state::change_event;
use njh_hub::SessionView;
use njh_log::{DownCause, LogEvent};
use njh_request::LineState;
use njh_sight::{Label, Stands, Steps, Streams, Traffic};
use njh_sites::{Asking, Dial, Door, Site, kept_until};
use njh_table::LineId;
use std::net::SocketAddr;

/// A line that is served.
#[derive(Drop)]
pub struct Post<Li: Drop, C: Drop> {
    /// When its site is to be looked at, on the service's clock; `u64::MAX` if nobody waits there.
    pub moment: u64,
    /// Whether its wire had a connection, or an end to tell, when it was last looked at.
    pub linked: bool,
    /// Which line it is.
    pub line: LineId,
    /// How it is served.
    pub state: LineState,
    /// Since when it is served so, on the service's clock.
    pub state_since: u64,
    /// Its door, or its dials.
    pub site: Site<Door<Li>, Dial<C>>,
    /// Who comes to it.
    pub entrance: Entrance<Asking<C>>,
    /// What the log calls it, and what it told of it.
    pub label: Label,
    /// What its streams were about after the last step on it, and what was counted of that.
    pub streams: Streams,
    /// How they stood after it, and since when.
    pub stands: Stands,
    /// What was noted of it at that step, and counted.
    pub steps: Steps,
    /// What was noted of it as it was last looked at.
    pub traffic: Traffic,
}

impl<Li: Drop, C: Drop> Post<Li, C> {
    /// A line on which nothing happened yet, with its entrance.
    pub(crate) fn new(
        id: LineId,
        label: Label,
        site: Site<Door<Li>, SocketAddr>,
        entrance: Entrance<Asking<C>>,
    ) -> Post<Li, C>
        ensures line { result.line ≡ id }
        ensures state { result.state ≡ Started }
        ensures entrance { result.entrance ≡ entrance }
        ensures site { (address_of : Li → SocketAddr)
            → site_kept address_of result.site ≡ site_opened address_of site }
    {
        Post {
            moment: 0,
            linked: false,
            line: id,
            state: LineState::Started,
            state_since: 0,
            site: match site {
                Site::Listens(door) => Site::Listens(door),
                Site::Dials(address) => Site::Dials(Dial::new(address)),
            },
            entrance,
            label,
            streams: Streams::idle(),
            stands: Stands::idle(),
            steps: Steps::none(),
            traffic: Traffic::none(),
        }
    }

    /// Its session was seen so; if it is down, it ended so. If it was up before, the site is looked
    /// at ten seconds later, if not before: another connection may wait there.
    pub(crate) fn see(&mut self, session: SessionView, end: DownCause, now: u64)
        ensures noted { self.new ≡ record self.old {
          label = after_session self.old.label session end now;
          moment = moment_seen self.old.label session now self.old.moment;
          entrance = seen_session self.old.label.had_session (had_session self.old.label session) self.old.entrance;
        } }
        ensures from { self.new.entrance.from ≡ self.old.entrance.from }
    {
        let was_up = self.label.up;
        let had_session = self.label.had_session;
        self.label.see(session, end, now);
        self.wait(was_up);
        self.note_session(had_session);
    }

    /// A step left its session so; if it is down, it ended so. Its site is looked at as if it was
    /// seen so.
    pub(crate) fn follow(&mut self, session: SessionView, end: DownCause, now: u64)
        ensures noted { self.new ≡ record self.old {
          label = after_step self.old.label session end now;
          moment = moment_seen self.old.label session now self.old.moment;
          entrance = seen_session self.old.label.had_session (had_session self.old.label session) self.old.entrance;
        } }
        ensures from { self.new.entrance.from ≡ self.old.entrance.from }
    {
        let was_up = self.label.up;
        let had_session = self.label.had_session;
        self.label.follow(session, end, now);
        self.wait(was_up);
        self.note_session(had_session);
    }

    /// If a session was up on its connection for the first time, that is noted of who has it.
    fn note_session(&mut self, had_session: bool)
        ensures noted { self.new ≡ record self.old {
          entrance = seen_session had_session self.old.label.had_session self.old.entrance;
        } }
        ensures from { self.new.entrance.from ≡ self.old.entrance.from }
    {
        if self.label.had_session && !had_session {
            self.entrance.note_session();
        }
    }

    /// If its session was up before, its site is looked at ten seconds after that ended, if not
    /// before.
    fn wait(&mut self, was_up: bool)
        ensures { self.new ≡ record self.old {
          moment =
              moment_behind was_up self.old.label.up self.old.label.no_session_since self.old.moment;
        } }
    {
        if was_up {
            let until = kept_until(self.label.up, self.label.no_session_since);
            self.moment = self.moment.min(until);
        }
    }

    /// It is served so from now on. If it wasn't before, it is looked at at this moment, and what is
    /// told of the change is answered.
    pub(crate) fn set_state(&mut self, state: LineState, now: u64) -> Option<LogEvent>
        ensures line { self.new.line ≡ self.old.line }
        ensures site { (address_of : Li → SocketAddr)
            → site_kept address_of self.new.site ≡ site_kept address_of self.old.site }
        ensures state { self.new.state ≡ state }
        ensures from { self.new.entrance.from ≡ self.old.entrance.from }
        ensures told { result ≡ change_event self.old.state state }
        ensures changed { IsSome result → self.new.state_since ≡ now }
        ensures stays { result ≡ None → self.new.state_since ≡ self.old.state_since }
    {
        let event = change_event(self.state, state);
        self.state = state;
        if event.is_some() {
            self.state_since = now;
            self.moment = now;
            self.resume(now);
        }
        event
    }

    /// If it is dialled and may have a connection, and none is under way, the next dial comes now.
    fn resume(&mut self, now: u64)
        ensures line { self.new.line ≡ self.old.line }
        ensures state { self.new.state ≡ self.old.state }
        ensures since { self.new.state_since ≡ self.old.state_since }
        ensures from { self.new.entrance.from ≡ self.old.entrance.from }
        ensures site { (address_of : Li → SocketAddr)
            → site_kept address_of self.new.site ≡ site_kept address_of self.old.site }
    {
        match &mut self.site {
            Site::Listens(_) => {}
            Site::Dials(dial) => dial.resume(now),
        }
    }

    /// The line has no connection any more; `was_refused`: since a sign-on was refused on it, which
    /// was noted of who had it.
    pub(crate) fn lose(&mut self, was_refused: bool, now: u64)
        ensures entrance { self.new.entrance
            ≡ parted_as_lost self.old.label.had_session was_refused now self.old.entrance }
        ensures line { self.new.line ≡ self.old.line }
        ensures state { self.new.state ≡ self.old.state }
        ensures from { self.new.entrance.from ≡ self.old.entrance.from }
        ensures site { (address_of : Li → SocketAddr)
            → site_kept address_of self.new.site ≡ site_kept address_of self.old.site }
        ensures lost { self.new.site ≡ site_lost self.old.label.had_session self.old.site now }
        ensures moment { self.new.moment
            ≡ moment_of_loss self.old.label.had_session self.old.site self.old.moment now }
        ensures label { self.new.label ≡ self.old.label }
    {
        if !was_refused {
            self.entrance.part(self.label.had_session, false, now);
        }
        match &mut self.site {
            Site::Listens(_) => self.moment = self.moment.min(now),
            Site::Dials(dial) => {
                dial.lose(self.label.had_session, now);
                self.moment = dial.moment();
            }
        }
    }
}
