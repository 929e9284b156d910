//! A command is carried out by requests, and what their answers tell is put together.

ghost use Rattle.std.specs.Prelude.{◌≡◌, ◌+◌, ◌≤◌, [], IfErr, IfOk, length, map, min, string_bytes};
ghost use Rattle.njh_arguments.specs.Choices.{choice_view};
ghost use Rattle.njh_ctl.specs.Faults.{IsAskedWhy, IsPlain, IsWhy};
ghost use Rattle.njh_ctl.specs.Many.{EntryTried, NameGiven, NameTold, Tried, entry_view, many_view, share_at};
ghost use Rattle.njh_ctl.specs.Orders.{GivenOnce, IsAskedAgain, order_view};
ghost use Rattle.njh_ctl.specs.Talks.{CarriesOut, ManyOrdered, wanted_at};

use crate::counts::{Counts, Outcome};
use crate::ending::Ending;
use crate::entries::{Entry, Share};
use crate::fault::CtlFault;
use crate::giver::Giver;
use crate::machine::Machine;
use crate::many::{Many, order_of};
use crate::order::{Order, Terms, files_of};
use crate::orders::{ask_again, give, order, tell_given, tell_order};
use crate::request_text::is_orderable;
use crate::talk::Talk;
use njh_arguments::{Choice, ConsoleCommand, Owner};
use std::alloc::Global;
use std::io::{Read, Write};
use std::marker::Model;

/// For how many seconds an order may be carried out.
const PATIENCE: u64 = 4;

/// Who gives commands to a console, and what is to be told of it.
#[derive(Drop)]
pub struct Operator<S: Read + Write + Drop, M: Machine<S> + Drop> {
    alloc: Global,
    talk: Talk<S, M>,
    giver: Giver,
}

impl<S: Read + Write + Drop, M: Machine<S> + Drop> Model for Operator<S, M> {
    ghost use Rattle.njh_ctl.specs.Orders.{OperatorView};

    ghost Value = { OperatorView };

    ghost view = { λ operator. record { talk = operator.talk; giver = operator.giver } };
}

impl<S: Read + Write + Drop, M: Machine<S> + Drop> Operator<S, M> {
    /// Over a connection that the machine makes. Answers are told as they came, or for people.
    pub fn new(
        alloc: Global,
        machine: M,
        json: bool,
        giver: Giver,
    ) -> Result<Operator<S, M>, CtlFault>
        ensures json { IfOk result (λ operator. operator.talk.told.json ≡ json) }
        ensures text { IfOk result (λ operator. operator.talk.told.text ≡ []) }
        ensures giver { IfOk result (λ operator. operator.giver ≡ giver) }
        ensures fault { IfErr result IsPlain }
    {
        let talk = Talk::new(alloc, machine, json)?;
        Ok(Operator { alloc, talk, giver })
    }

    /// What is to be told.
    pub fn text(&self) -> &str
        ensures { result.now ≡ self.now.talk.told.text }
    {
        self.talk.text()
    }

    /// Tells what came of the order of a name, whose answer was lost.
    pub fn ask_again(&mut self, name: String) -> Result<Ending, CtlFault>
        ensures done { IfOk result (IsAskedAgain (string_bytes name) self.old.talk self.new.talk) }
        ensures why { IfErr result (λ fault. IsAskedWhy self.old.talk.moment fault self.new.talk.link) }
    {
        match ask_again(&mut self.talk, name.as_str()) {
            Ok(ending) => Ok(ending),
            Err(fault) => Err(fault.lost(name)),
        }
    }

    /// Carries out a command. If that fails in the middle, what came before is to be told all the
    /// same.
    pub fn carry_out(&mut self, command: &ConsoleCommand<'_>) -> Result<Ending, CtlFault>
        ensures done { IfOk result (CarriesOut command.now self.old self.new) }
        ensures why { IfErr result (λ fault. IsWhy fault self.new.talk.link) }
    {
        match *command {
            ConsoleCommand::Status { quiet } => self.talk.status(quiet),
            ConsoleCommand::Customers => self.talk.customers(),
            ConsoleCommand::Lines { name } => self.talk.lines(name),
            ConsoleCommand::Messages { line } => self.talk.messages(line),
            ConsoleCommand::Files { customer, choice } => self.talk.files(customer, choice),
            ConsoleCommand::Change {
                change,
                customer,
                file,
                owner,
            } => self.order(Order::Change(change, files_of(customer, file, owner))),
            ConsoleCommand::ChangeMany {
                change,
                customer,
                choice,
                dry_run,
            } => {
                let many = Many {
                    change,
                    customer,
                    dry_run,
                };
                self.order_many(many, choice)
            }
            ConsoleCommand::Tell {
                customer,
                node,
                user,
                text,
            } => self.order(Order::Tell(customer, Owner { node, user }, text)),
            ConsoleCommand::Outcome { order } => tell_order(&mut self.talk, order),
            ConsoleCommand::Stop { line, when_idle } => self.order(Order::Stop(line, when_idle)),
            ConsoleCommand::Start { line } => self.order(Order::Start(line)),
            ConsoleCommand::Shutdown { when_idle } => self.order(Order::Shutdown(when_idle)),
            ConsoleCommand::Reload => self.order(Order::Reload),
            ConsoleCommand::Diff { file } => self.order(Order::Diff(file)),
        }
    }

    /// Gives an order, and says in the end that all was done, if it was.
    fn order(&mut self, given: Order<'_>) -> Result<Ending, CtlFault>
        ensures done { IfOk result (GivenOnce (order_view given.entry) self.old self.new) }
        ensures why { IfErr result (λ fault. IsWhy fault self.new.talk.link) }
    {
        if !is_orderable(&given) {
            return Err(CtlFault::BadName);
        }
        let name = self.giver.name(0)?;
        let terms = Terms {
            name: name.as_str(),
            until: last_second(self.talk.now()),
            by: self.giver.by(),
        };
        match order(&mut self.talk, given, terms) {
            Ok(ending) => Ok(ending),
            Err(fault) => Err(fault.lost(name)),
        }
    }

    /// Gives an order for each name of the files that are chosen.
    fn order_many(&mut self, many: Many<'_>, choice: Choice<'_>) -> Result<Ending, CtlFault>
        ensures done { IfOk result (ManyOrdered (many_view many.entry)
            (wanted_at (choice_view choice.entry) self.old.talk) self.old self.new) }
        ensures why { IfErr result (λ fault. IsWhy fault self.new.talk.link) }
    {
        let entries = self.talk.entries(many.customer, choice)?;
        let counts = self.try_each(many, entries.as_slice())?;
        let text = counts.text(self.alloc, many.dry_run)?;
        self.talk.tell_line(text.as_str())?;
        Ok(counts.ending())
    }

    /// Gives an order for each name that is chosen.
    fn try_each(&mut self, many: Many<'_>, entries: &[Entry]) -> Result<Counts, CtlFault>
        ensures done { IfOk result (Tried (many_view many.entry) self.old.giver (map entry_view entries.now)
            self.old.talk (length entries.now) self.new.talk) }
        ensures few { IfOk result (λ n. n.done + n.not_done + n.refused + n.passed_over ≤ length entries.now) }
        ensures giver { self.new.giver ≡ self.old.giver }
        ensures why { IfErr result (λ fault. IsWhy fault self.new.talk.link) }
    {
        let mut counts = Counts::NONE;
        for (at, entry) in entries.iter().enumerate() {
            let outcome = self.try_entry(many, entries, at, entry)?;
            counts = counts.with(outcome);
        }
        Ok(counts)
    }

    /// Gives an order for the files of an entry, if it stands for all of its name and owner.
    fn try_entry(
        &mut self,
        many: Many<'_>,
        entries: &[Entry],
        at: usize,
        entry: &Entry,
    ) -> Result<Outcome, CtlFault>
        requires { at ≤ length entries.now }
        ensures done { IfOk result (EntryTried (many_view many.entry) self.old.giver at (entry_view entry.now)
            (share_at (map entry_view entries.now) at (entry_view entry.now)) self.old.talk self.new.talk) }
        ensures giver { self.new.giver ≡ self.old.giver }
        ensures why { IfErr result (λ fault. IsWhy fault self.new.talk.link) }
    {
        match entry.share_at(entries, at) {
            Some(share) => self.try_name(many, at, entry, share),
            None => Ok(Outcome::Left),
        }
    }

    /// Gives an order for all files of a name and an owner, unless some of them aren't chosen.
    fn try_name(
        &mut self,
        many: Many<'_>,
        at: usize,
        entry: &Entry,
        share: Share,
    ) -> Result<Outcome, CtlFault>
        ensures done { IfOk result (NameTold (many_view many.entry) self.old.giver at (entry_view entry.now) share
            self.old.talk self.new.talk) }
        ensures giver { self.new.giver ≡ self.old.giver }
        ensures why { IfErr result (λ fault. IsWhy fault self.new.talk.link) }
    {
        let text = many.text(self.alloc, entry, share)?;
        self.talk.tell_line(text.as_str())?;
        if share.is_passed_over() {
            return Ok(Outcome::PassedOver);
        }
        if many.dry_run {
            return Ok(Outcome::Done);
        }
        self.give(many, at, entry)
    }

    /// Gives an order for all files of a name and an owner.
    fn give(&mut self, many: Many<'_>, at: usize, entry: &Entry) -> Result<Outcome, CtlFault>
        ensures done { IfOk result (NameGiven (many_view many.entry) self.old.giver at (entry_view entry.now)
            self.old.talk self.new.talk) }
        ensures giver { self.new.giver ≡ self.old.giver }
        ensures why { IfErr result (λ fault. IsWhy fault self.new.talk.link) }
    {
        let name = self.giver.name(at)?;
        let terms = Terms {
            name: name.as_str(),
            until: last_second(self.talk.now()),
            by: self.giver.by(),
        };
        match give(&mut self.talk, order_of(many, entry), terms) {
            Ok(given) => tell_given(self.alloc, &mut self.talk, given),
            Err(fault) => Err(fault.cut_off(name)),
        }
    }
}

/// The last second in which what is ordered in this one may be carried out.
fn last_second(now: u64) -> u64
    ensures { result ≡ min (now + 4) 18446744073709551615 }
{
    now.saturating_add(PATIENCE)
}
