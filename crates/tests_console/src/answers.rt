//! What the console answers: for each line, a method, a path and a body, the status, the body, and
//! what is ordered.

use crate::asked::{bad, hub_of, request_of, tables_of};
use circular_buffer::HeapCircularBuffer;
use njh_answer::{
    BothWays, Deed, LineCounts, LineView, OrderRecord, Outcome, Refused, RequestAnswer,
    ServiceView, Ticket, Trouble, TurnedAway, Views, Work, answer_request, refuses,
};
use njh_arrivals::Arrivals;
use njh_command::Replies;
use njh_ebcdic::Name;
use njh_header::User;
use njh_hub::{GivenOrder, Hub, OrderText};
use njh_request::{EndMoment, LineState, Order, OrderName, Terms};
use njh_table::{LineId, Tables};
use std::alloc::{AllocError, Global};
use std::io;
use std::net::{IpAddr, Ipv4Addr, Ipv6Addr, SocketAddr};

const TABLES: &str = r#"
capacity = 200
[[customer]]
name = "ACME"
hub = "BUREAU"
quota = 100
files = 8
[[customer.line]]
name = "a1"
node = "LYON"
role = "answer"
block = 1024
streams = 4
[[customer.line]]
name = "a2"
node = "METZ"
role = "answer"
block = 1024
streams = 4
protocol = "tcp"
[[customer.route]]
node = "LYON"
line = "a1"
[[customer.route]]
node = "METZ"
line = "a2"
[[customer]]
name = "BOLT"
hub = "BUREAU"
quota = 100
files = 8
[[customer.line]]
name = "b1"
node = "LYON"
role = "answer"
block = 1024
streams = 4
"#;

/// `HI`.
const HI: &[u8] = &[0xc8, 0xc9];

/// `NJH003 LYON.42 HELD 1`.
const HELD: &[u8] = &[
    0xd5, 0xd1, 0xc8, 0xf0, 0xf0, 0xf3, 0x40, 0xd3, 0xe8, 0xd6, 0xd5, 0x4b, 0xf4, 0xf2, 0x40, 0xc8,
    0xc5, 0xd3, 0xc4, 0x40, 0xf1,
];

/// A hub that has a file of ANNA's at LYON, and a message for LYON that waits.
fn hub(alloc: Global) -> io::Result<Hub> {
    let mut hub = hub_of(alloc, TABLES)?;
    give_message(alloc, &mut hub)?;
    Ok(hub)
}

/// A message for LYON waits.
fn give_message(alloc: Global, hub: &mut Hub) -> io::Result<()> {
    let Ok(node) = Name::of_text("LYON") else {
        return Err(bad());
    };
    let text = OrderText::of(alloc, HI)?;
    let whom = User {
        node,
        user: [0x40; 8],
    };
    let mut replies = Replies::new();
    match hub.order(0, &GivenOrder::Message(whom, text), &mut replies) {
        Ok(()) => Ok(()),
        Err(_) => Err(bad()),
    }
}

/// The file was seen to come.
fn arrivals(alloc: Global, hub: &Hub) -> Result<Arrivals, AllocError> {
    let mut arrivals = Arrivals::none(alloc, 2)?;
    if hub.file_count(0) > 0 {
        arrivals.note(0, hub.number_at(0, 0), 1790650007);
    }
    Ok(arrivals)
}

/// What the service knows of itself.
fn service_view(alloc: Global) -> Result<ServiceView, AllocError> {
    let version = String::from_str(alloc, "0.9")?;
    let mut troubles = Vec::new(alloc);
    let text = "ACME: no room for \"files\"";
    troubles.push(trouble(alloc, text, "warning", Some(1790649000))?)?;
    let text = "table file: it can't be read";
    troubles.push(trouble(alloc, text, "error", None)?)?;
    let mut intended = Vec::new(alloc);
    let text = "ACME a2: stopped";
    intended.push(trouble(alloc, text, "info", Some(1790649500))?)?;
    Ok(ServiceView {
        version,
        since: 1790650000,
        clock: 1790650000,
        file_bytes: Some(5832704),
        log_bytes: Some(98304),
        troubles,
        intended,
    })
}

fn trouble(
    alloc: Global,
    text: &str,
    severity: &str,
    since: Option<u64>,
) -> Result<Trouble, AllocError> {
    Ok(Trouble {
        text: String::from_str(alloc, text)?,
        severity: String::from_str(alloc, severity)?,
        since,
    })
}

/// What was counted on the line, each by a number of its own.
fn counts() -> LineCounts {
    LineCounts {
        blocks: BothWays { came: 31, went: 32 },
        bytes: BothWays {
            came: 4101,
            went: 4102,
        },
        files: BothWays { came: 3, went: 4 },
        records: BothWays {
            came: 201,
            went: 202,
        },
        messages: BothWays { came: 21, went: 22 },
        dropped: 5,
        commands: 7,
        cut_off: 1,
        returned: 2,
        turned_away: TurnedAway {
            files: 11,
            quota: 12,
            route: 13,
            other: 14,
        },
    }
}

/// Since when eight streams stand as they stand, from a moment on.
fn moments(alloc: Global, first: u64) -> Result<Vec<u64>, AllocError> {
    let mut moments = Vec::new(alloc);
    for place in 0..8 {
        moments.push(first.saturating_add(place))?;
    }
    Ok(moments)
}

/// What it knows of the line that it serves.
fn line_view(alloc: Global) -> Result<LineView, AllocError> {
    let site = String::from_str(alloc, "listens 37801")?;
    let last_end = String::from_str(alloc, "five tries")?;
    let text = "the peer is to sign on";
    let wrong = trouble(alloc, text, "warning", Some(1790649999))?;
    Ok(LineView {
        line: LineId {
            customer: 0,
            number: 0,
        },
        state: LineState::Started,
        state_since: 1790640000,
        site,
        connected: Some(1790650000),
        up: None,
        down: Some(1790649999),
        last_end,
        naks: 2,
        repeats: 5,
        counts: counts(),
        coming_since: moments(alloc, 1790650010)?,
        going_since: moments(alloc, 1790650020)?,
        messages_since: Vec::new(alloc),
        wrong: Some(wrong),
        peer: Some(peer()),
        waiting: waiting(alloc)?,
        refused: refused(alloc)?,
    })
}

/// An IPv4 address that is mapped into IPv6.
fn mapped(last: u8) -> IpAddr {
    IpAddr::V6(Ipv4Addr::new(192, 0, 2, last).to_ipv6_mapped())
}

fn peer() -> SocketAddr {
    SocketAddr::new(mapped(7), 41022)
}

/// Two wait.
fn waiting(alloc: Global) -> Result<Vec<SocketAddr>, AllocError> {
    let mut waiting = Vec::new(alloc);
    waiting.push(SocketAddr::new(IpAddr::V4(Ipv4Addr::new(203, 0, 113, 9)), 50112))?;
    waiting.push(SocketAddr::new(
        IpAddr::V6(Ipv6Addr::new(0x2001, 0xdb8, 0, 0, 0, 0, 0, 9)),
        40212,
    ))?;
    Ok(waiting)
}

/// Of two addresses sign-ons were refused.
fn refused(alloc: Global) -> Result<Vec<Refused>, AllocError> {
    let mut refused = Vec::new(alloc);
    refused.push(Refused {
        address: mapped(4),
        count: 1,
    })?;
    refused.push(Refused {
        address: IpAddr::V6(Ipv6Addr::new(0x2001, 0xdb8, 0, 0, 0, 0, 0, 9)),
        count: 12,
    })?;
    Ok(refused)
}

fn line_views(alloc: Global) -> Result<Vec<LineView>, AllocError> {
    let mut lines = Vec::new(alloc);
    lines.push(line_view(alloc)?)?;
    Ok(lines)
}

/// Seven orders: for two tables were read, one had no room, one was carried out, one's giver had gone,
/// one had no way, and one, called anna-6, came too late.
fn order_records(alloc: Global) -> Result<HeapCircularBuffer<OrderRecord>, AllocError> {
    let mut orders = HeapCircularBuffer::with_capacity(alloc, 64)?;
    let mut texts = Vec::new(alloc);
    texts.push(String::from_str(alloc, "ACME: new routes")?)?;
    drop(orders.push_back(order_record(0, None, Outcome::Read(texts))));
    let fault = String::from_str(alloc, "table file: not found; nothing changes")?;
    drop(orders.push_back(order_record(1, None, Outcome::Unread(fault))));
    drop(orders.push_back(order_record(2, None, Outcome::QueueFull)));
    let done = Outcome::Done(replies(alloc)?);
    drop(orders.push_back(order_record(3, None, done)));
    drop(orders.push_back(order_record(4, None, Outcome::GiverGone)));
    drop(orders.push_back(order_record(5, None, Outcome::NoWay)));
    let name = OrderName::of("anna-6");
    drop(orders.push_back(order_record(6, name, Outcome::TooLate)));
    Ok(orders)
}

/// The end of the service, ordered at once.
fn order_record(number: u64, name: Option<OrderName>, outcome: Outcome) -> OrderRecord {
    let terms = Terms {
        name,
        until: None,
        by: None,
    };
    OrderRecord {
        ticket: Ticket {
            number,
            customer: Name::of_text("ACME").ok(),
            terms,
            order: Order::Stop(EndMoment::AtOnce),
        },
        outcome,
    }
}

fn replies(alloc: Global) -> Result<Vec<OrderText>, AllocError> {
    let mut replies = Vec::new(alloc);
    replies.push(OrderText::of(alloc, HELD)?)?;
    Ok(replies)
}

fn deed_text(deed: &Deed) -> &'static str {
    match deed {
        Deed::Nothing => "nothing",
        Deed::Refused(_) => "refused",
        Deed::Order(_, Work::Customer(_, GivenOrder::Command(..))) => "a command",
        Deed::Order(_, Work::Customer(_, GivenOrder::Message(..))) => "a message",
        Deed::Order(_, Work::Line(..)) => "a line",
        Deed::Order(_, Work::Stop(_)) => "the end",
        Deed::Order(_, Work::Tables) => "tables",
    }
}

fn answer(alloc: Global, line: &str, views: &Views<'_>) -> Result<RequestAnswer, AllocError> {
    match request_of(alloc, views.tables, line)? {
        Ok(request) => answer_request(alloc, request, views),
        Err(refusal) => refuses(alloc, views.service.since, refusal),
    }
}

/// The status, the body and what is ordered, as they are printed.
fn told(alloc: Global, line: &str, views: &Views<'_>) -> Result<String, AllocError> {
    let answer = answer(alloc, line, views)?;
    let body = answer.value.to_string(alloc)?;
    let status = answer.status;
    let deed = deed_text(&answer.deed);
    format!(in alloc; "{status} {body} ({deed})")
}

/// The same of each line.
fn told_lines(alloc: Global, text: &str, views: &Views<'_>) -> Result<String, AllocError> {
    let mut all = String::new(alloc);
    for line in text.lines() {
        let told = told(alloc, line, views)?;
        all.push_str(line)?;
        all.push_str("\n  ")?;
        all.push_str(told.as_str())?;
        all.push('\n')?;
    }
    Ok(all)
}

fn told_by(alloc: Global, text: &str, hub: &Hub, tables: &Tables) -> Result<String, AllocError> {
    let service = service_view(alloc)?;
    let lines = line_views(alloc)?;
    let arrivals = arrivals(alloc, hub)?;
    let orders = order_records(alloc)?;
    let views = Views {
        hub,
        tables,
        service: &service,
        lines: &lines,
        arrivals: &arrivals,
        orders: &orders,
        next: 7,
    };
    told_lines(alloc, text, &views)
}

/// Tries each line.
pub(crate) fn try_each<R: Print + AllocGlobal>(rt: &R, lines: &str) -> io::Result<()> {
    let tables = tables_of(rt.alloc(), TABLES)?;
    let hub = hub(rt.alloc())?;
    let told = told_by(rt.alloc(), lines, &hub, &tables)?;
    print!(rt; "{told}")
}
