//! Whether what is open of the spool file is what stands at its path.

ghost use Rattle.std.specs.Prelude.{◌≡◌, Option};
ghost use Rattle.njh_service.specs.Presences.{known_first, news_event, IsLookedAt};
ghost use Rattle.njh_presence.specs.declared.presence.PresenceNews.{PresenceNews};

use njh_lines::Exchange;
use njh_log::{LogEvent, Place};
use njh_presence::{Presence, PresenceNews, SpoolSeen};
use njh_revision::{Revision, TableSource};
use njh_wire::Network;
use std::io::Write;

/// What is known of the spool file, which was opened and then seen so, if the hub's files are kept.
pub(crate) fn presence_of(seen: Option<SpoolSeen>) -> Option<Presence>
    ensures { result ≡ known_first seen }
{
    match seen {
        Some(seen) => Some(Presence::new(seen)),
        None => None,
    }
}

/// Looks at the paths of the spool file and of its log, if the hub's files are kept and a second is
/// over, and tells what is to be told of that.
pub(crate) fn look_at_spool<N: Network + Drop, L: Write + Drop, S: TableSource + Drop>(
    presence: &mut Option<Presence>,
    revision: &Revision<S>,
    exchange: &mut Exchange<N, L>,
)
    ensures same { exchange.new ≡ exchange.old }
    ensures looked { (news : Option PresenceNews) × IsLookedAt exchange.old.now presence.old presence.new news }
{
    let now = exchange.now();
    let Some(news) = look(presence, revision, now) else {
        return;
    };
    exchange.tell(Place::Hub, news_event(news));
}

/// Looks, if the hub's files are kept and a second is over. Answers what is to be told.
fn look<S: TableSource + Drop>(
    presence: &mut Option<Presence>,
    revision: &Revision<S>,
    now: u64,
) -> Option<PresenceNews>
    ensures { IsLookedAt now presence.old presence.new result }
{
    let known = presence.as_mut()?;
    if known.is_due(now) {
        known.look(now, revision.seen().unwrap_or(SpoolSeen::nothing()))
    } else {
        None
    }
}

/// What the log tells of it.
fn news_event(news: PresenceNews) -> LogEvent
    ensures { result ≡ news_event news }
{
    match news {
        PresenceNews::Wrong(faults) => LogEvent::SpoolAstray(faults),
        PresenceNews::Right => LogEvent::SpoolBack,
    }
}

/// What is told of the spool file as long as something is wrong at its paths.
pub(crate) fn spool_fault(presence: &Option<Presence>) -> Option<LogEvent> {
    let faults = presence.as_ref()?.wrong()?;
    Some(LogEvent::SpoolAstray(faults))
}
