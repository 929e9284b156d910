//! A hub with its console.

ghost use Rattle.njh_console.specs.Orders.{NoneIsOpen};

use crate::asked::{hub_of, tables_of};
use crate::pipe::{Pipe, Pipes, VISITORS, Visit};
use njh_answer::{Outcome, ServiceView, Ticket};
use njh_arrivals::Arrivals;
use njh_command::Replies;
use njh_console::{Act, Asked, Console, Situation};
use njh_hub::Hub;
use njh_request::{EndMoment, LineWish, Order};
use njh_table::Tables;
use std::alloc::{AllocError, Global};
use std::fmt::Write;
use std::io;

const TABLES: &str = r#"
capacity = 200
[[customer]]
name = "ACME"
hub = "BUREAU"
quota = 100
files = 8
[[customer.line]]
name = "a1"
node = "LYON"
role = "answer"
block = 1024
streams = 4
[[customer.line]]
name = "a2"
node = "METZ"
role = "answer"
block = 1024
streams = 4
[[customer.route]]
node = "LYON"
line = "a1"
[[customer.route]]
node = "METZ"
line = "a2"
"#;

/// A line of rounds is no longer than this.
const ROUNDS: usize = 200;

/// How many customers the tables have.
const CUSTOMERS: usize = 1;

/// A hub, its tables, its console, and the clock.
#[derive(Drop)]
pub(crate) struct Bureau<'a> {
    alloc: Global,
    pipes: &'a Pipes,
    hub: Hub,
    tables: Tables,
    service: ServiceView,
    arrivals: Arrivals,
    console: Console<Visit<'a>>,
    now: u64,
}

impl<'a> Bureau<'a> {
    /// Its hub has a file of ANNA's at LYON.
    pub(crate) fn open(alloc: Global, pipes: &'a Pipes) -> io::Result<Bureau<'a>> {
        Ok(Bureau {
            alloc,
            pipes,
            hub: hub_of(alloc, TABLES)?,
            tables: tables_of(alloc, TABLES)?,
            service: ServiceView {
                version: String::from_str(alloc, "0.9")?,
                since: 1790650000,
                clock: 1790650000,
                file_bytes: None,
                log_bytes: None,
                troubles: Vec::new(alloc),
                intended: Vec::new(alloc),
            },
            arrivals: Arrivals::none(alloc, CUSTOMERS)?,
            console: Console::new(alloc)?,
            now: 1000,
        })
    }

    /// Time passes.
    pub(crate) fn wait(&mut self, time: u64) {
        self.now = self.now.saturating_add(time);
    }

    /// Has rounds until the console has nothing to do, and answers what was seen.
    pub(crate) fn run(&mut self) -> io::Result<String> {
        let mut seen = String::new(self.alloc);
        for round in 0..ROUNDS {
            self.round(&mut seen)?;
            if self.console.moment(self.now) > self.now && !self.pipes.has_guest() {
                let _kept = write!(seen, " ({round})").is_ok();
                break;
            }
        }
        self.show_told(&mut seen)?;
        Ok(seen)
    }

    fn round(&mut self, seen: &mut String) -> io::Result<()> {
        self.let_in();
        self.console.receive();
        self.give_order(seen)?;
        let asked = self.answer();
        self.console.send();
        self.obey(asked, seen)?;
        let astray = self.console.let_go(self.now);
        if astray > 0 {
            write!(*seen, "\n  {astray} gone who sent no HTTP")?;
        }
        Ok(())
    }

    /// Lets in who waits, while there is room.
    fn let_in(&mut self) {
        for _ in 0..VISITORS {
            if !self.console.has_room() {
                return;
            }
            match self.pipes.let_in() {
                Some(visit) => self.console.admit(visit, self.now),
                None => return,
            }
        }
    }

    /// Gives the hub the order that waits.
    fn give_order(&mut self, seen: &mut String) -> io::Result<()>
        ensures { NoneIsOpen self.new.console.orders }
    {
        let Some(new) = self.console.order(self.service.clock) else {
            return Ok(());
        };
        let mut replies = Replies::new();
        let answer = self.hub.order(new.customer, &new.order, &mut replies);
        self.console.order_done(answer, &replies);
        let count = replies.texts().len();
        let told = if answer.is_ok() { "done" } else { "refused" };
        write!(*seen, "\n  order {told}, {count} replies")?;
        Ok(())
    }

    /// Answers a request, if one came.
    fn answer(&mut self) -> Asked
        requires { NoneIsOpen self.old.console.orders }
    {
        if !self.console.has_request() {
            return Asked::Nothing;
        }
        let (hub, tables, service) = (&self.hub, &self.tables, &self.service);
        let situation = Situation::new(hub, tables, service, &[], &self.arrivals);
        self.console.serve(self.now, &situation)
    }

    /// Says what the service is to do itself.
    fn obey(&mut self, asked: Asked, seen: &mut String) -> io::Result<()> {
        match asked {
            Asked::Nothing => {}
            Asked::Refused(why) => write!(*seen, "\n  {why}")?,
            Asked::Given(number, terms) => match &terms.by {
                Some(by) => write!(*seen, "\n  order {number} of {by}")?,
                None => {}
            },
            Asked::Act(ticket, act) => match self.console.act(self.service.clock, ticket, act) {
                Some(act) => {
                    let text = act_text(act);
                    write!(*seen, "\n  {text}")?;
                }
                None => write!(*seen, "\n  nothing is done")?,
            },
            Asked::Tables(ticket) => self.read_tables(ticket, seen)?,
        }
        Ok(())
    }

    /// Tables are read, and nothing differs; a file that is compared has a fault.
    fn read_tables(&mut self, ticket: Ticket, seen: &mut String) -> io::Result<()> {
        let outcome = match self.console.lapse(self.service.clock, &ticket) {
            Some(lapse) => lapse,
            None => tables_outcome(self.alloc, &ticket.order)?,
        };
        self.console.note(ticket, outcome);
        write!(*seen, "\n  tables are read")?;
        Ok(())
    }

    /// What each visitor was told.
    fn show_told(&self, seen: &mut String) -> io::Result<()> {
        for (number, pipe) in self.pipes.all().iter().enumerate() {
            show(self.alloc, number, pipe, seen)?;
        }
        Ok(())
    }
}

fn show(alloc: Global, number: usize, pipe: &Pipe, seen: &mut String) -> io::Result<()> {
    let told = pipe.take_told(alloc);
    if told.is_empty() {
        return Ok(());
    }
    write!(*seen, "\n  {number}: ")?;
    for byte in &told {
        match *byte {
            b'\r' => {}
            b'\n' => seen.push('|')?,
            byte => seen.push(char::from(byte))?,
        }
    }
    Ok(())
}

/// What comes of an order for which tables are read.
fn tables_outcome(alloc: Global, order: &Order) -> Result<Outcome, AllocError> {
    match order {
        Order::Diff(_) => {
            let fault = String::from_str(alloc, "table file: not found; nothing changes")?;
            Ok(Outcome::Unread(fault))
        }
        _ => Ok(Outcome::Read(Vec::new(alloc))),
    }
}

fn act_text(act: Act) -> &'static str {
    match act {
        Act::Line(_, LineWish::Started) => "a line starts",
        Act::Line(_, LineWish::Stopped(EndMoment::AtOnce)) => "a line stops",
        Act::Line(_, LineWish::Stopped(EndMoment::WhenIdle)) => "a line drains",
        Act::Stop(EndMoment::AtOnce) => "the service stops",
        Act::Stop(EndMoment::WhenIdle) => "the service stops when idle",
    }
}
