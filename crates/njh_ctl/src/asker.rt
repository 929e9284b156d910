//! What is asked of a console one after another.

ghost use Rattle.std.specs.Prelude.{◌≡◌, [], Err, IfErr, IfOk, None, OnOk, false, map, string_bytes};
ghost use Rattle.njh_ctl.specs.Asked.{Gathered, IsAskedOf, IsAskedSo, IsName, PartGathered, Understands, answer_view};
ghost use Rattle.njh_ctl.specs.Chosen.{wanted_by};
ghost use Rattle.njh_ctl.specs.Exchanges.{IsAnswered, IsExchanged, IsFresh, IsHeard, reply_view, request_view, text_of};
ghost use Rattle.njh_ctl.specs.Faults.{IsPlain, IsWhy};
ghost use Rattle.njh_ctl.specs.Lists.{Customers, Files};
ghost use Rattle.njh_ctl.specs.Many.{IsEntry, entry_view};
ghost use Rattle.njh_ctl.specs.Questions.{is_askable};

use crate::answers::{list_in, next_in};
use crate::choosing::Filter;
use crate::entries::{Entry, add_entries};
use crate::fault::CtlFault;
use crate::machine::Machine;
use crate::names::add_names;
use crate::question::Question;
use crate::reply::{Heard, Refusal, understood};
use crate::request_text::{RequestText, is_askable};
use crate::session::{ReplyText, Session};
use serde_json::Value;
use std::alloc::Global;
use std::io::{Read, Write};
use std::marker::Model;

/// How many parts a list has at most.
pub(crate) const PARTS: usize = 100_000;

/// On how many connections a question is asked at most. Beside visitors who come again and again one
/// in five is answered.
const CONNECTIONS: usize = 1_000;

/// An answer that was understood.
#[derive(Drop)]
pub(crate) struct Answer {
    pub(crate) reply: ReplyText,
    /// What its body says.
    pub(crate) value: Value,
}

/// What comes of a question.
#[derive(Drop)]
pub(crate) enum Asked {
    Answered(Answer),
    /// The console refuses it.
    Refused(Refusal),
}

/// A connection to a console on which questions are asked, and what makes another.
#[derive(Drop)]
pub(crate) struct Asker<S: Read + Write + Drop, M: Machine<S> + Drop> {
    alloc: Global,
    machine: M,
    session: Session<S>,
}

impl<S: Read + Write + Drop, M: Machine<S> + Drop> Model for Asker<S, M> {
    ghost use Rattle.njh_ctl.specs.Exchanges.{Link};

    ghost Value = { Link };

    ghost view = { λ asker. asker.session };
}

impl<S: Read + Write + Drop, M: Machine<S> + Drop> Asker<S, M> {
    /// Over a connection that the machine makes.
    pub(crate) fn new(alloc: Global, machine: M) -> Result<Asker<S, M>, CtlFault>
        ensures fault { IfErr result IsPlain }
    {
        let stream = machine.connect()?;
        Ok(Asker {
            alloc,
            machine,
            session: Session::new(alloc, stream),
        })
    }

    /// Now, in seconds since the beginning of 1970.
    pub(crate) fn now(&self) -> u64 {
        self.machine.now()
    }

    /// Closes the connection, and makes another.
    pub(crate) fn connect(&mut self) -> Result<(), CtlFault>
        ensures done { OnOk result (IsFresh self.new) }
        ensures fault { IfErr result IsPlain }
    {
        let stream = self.machine.connect()?;
        self.session = Session::new(self.alloc, stream);
        Ok(())
    }

    /// The answer to a question, which isn't to be refused.
    pub(crate) fn ask(&mut self, question: &Question<'_>) -> Result<Answer, CtlFault>
        ensures done { IfOk result (λ answer.
            Understands (text_of question.now) self.old self.new (answer_view answer)) }
        ensures why { IfErr result (λ fault. IsWhy fault self.new) }
    {
        match self.try_ask(question)? {
            Asked::Answered(answer) => Ok(answer),
            Asked::Refused(refusal) => Err(CtlFault::Refused(refusal.into_sentence())),
        }
    }

    /// What comes of a question.
    pub(crate) fn try_ask(&mut self, question: &Question<'_>) -> Result<Asked, CtlFault>
        ensures done { IfOk result (IsAskedSo (text_of question.now) self.old self.new) }
        ensures fault { IfErr result IsPlain }
    {
        let reply = self.reply_to(question)?;
        asked_of(self.alloc, reply)
    }

    /// The answer to a question.
    fn reply_to(&mut self, question: &Question<'_>) -> Result<ReplyText, CtlFault>
        ensures done { IfOk result (λ reply. IsHeard self.old self.new (text_of question.now) (reply_view reply)) }
        ensures why { IfErr result IsPlain }
        ensures bad { is_askable question.now ≡ false → (result ≡ Err CtlFault.BadName) × (self.new ≡ self.old) }
    {
        if !is_askable(question) {
            return Err(CtlFault::BadName);
        }
        let request = RequestText::of(self.alloc, question)?;
        self.answer_to(&request)
    }

    /// The answer to a request. The console may end a connection between two requests, and then the
    /// request is sent on another.
    fn answer_to(&mut self, request: &RequestText) -> Result<ReplyText, CtlFault>
        ensures done { IfOk result (λ reply.
            IsAnswered self.old self.new (request_view request.now) (reply_view reply)) }
        ensures why { IfErr result IsPlain }
    {
        for _ in 0..CONNECTIONS {
            match self.exchange(request) {
                Err(CtlFault::Broken) => self.connect()?,
                answered => return answered,
            }
        }
        Err(CtlFault::Broken)
    }

    /// The answer to a request on this connection.
    fn exchange(&mut self, request: &RequestText) -> Result<ReplyText, CtlFault>
        ensures done { IfOk result (λ reply.
            IsExchanged self.old self.new (request_view request.now) (reply_view reply)) }
        ensures why { IfErr result IsPlain }
    {
        self.session.send(self.alloc, request)?;
        self.session.answer(self.alloc)
    }

    /// The names of all customers.
    pub(crate) fn names(&mut self) -> Result<Vec<String>, CtlFault>
        ensures done { IfOk result (λ names. Gathered Customers IsName self.old self.new
            (map string_bytes names.items) None) }
        ensures why { IfErr result (λ fault. IsWhy fault self.new) }
    {
        let mut names = Vec::new(self.alloc);
        self.gather_names(&mut names)?;
        Ok(names)
    }

    fn gather_names(&mut self, names: &mut Vec<String>) -> Result<(), CtlFault>
        requires { names.old.items ≡ [] }
        ensures done { OnOk result (Gathered Customers IsName self.old self.new
            (map string_bytes names.new.items) None) }
        ensures why { IfErr result (λ fault. IsWhy fault self.new) }
    {
        let mut from = 0;
        for _ in 0..PARTS {
            match self.names_from(from, names)? {
                Some(next) => from = next,
                None => return Ok(()),
            }
        }
        Err(CtlFault::NotUnderstood)
    }

    fn names_from(&mut self, from: u64, names: &mut Vec<String>) -> Result<Option<u64>, CtlFault>
        ensures done { IfOk result (λ next. PartGathered Customers IsName from self.old self.new
            (map string_bytes names.old.items) (map string_bytes names.new.items) next) }
        ensures why { IfErr result (λ fault. IsWhy fault self.new) }
    {
        let answer = self.ask(&Question::Customers(from))?;
        let customers = list_in(&answer.value, "customers")?;
        add_names(self.alloc, customers, names)?;
        next_in(&answer.value)
    }

    /// A customer's files, by name and owner.
    pub(crate) fn entries(
        &mut self,
        customer: &str,
        filter: Filter<'_>,
    ) -> Result<Vec<Entry>, CtlFault>
        ensures done { IfOk result (λ entries. Gathered (Files customer.now (wanted_by filter.entry))
            (IsEntry (wanted_by filter.entry)) self.old self.new (map entry_view entries.items) None) }
        ensures why { IfErr result (λ fault. IsWhy fault self.new) }
    {
        let mut entries = Vec::new(self.alloc);
        self.gather_entries(customer, filter, &mut entries)?;
        Ok(entries)
    }

    fn gather_entries(
        &mut self,
        customer: &str,
        filter: Filter<'_>,
        entries: &mut Vec<Entry>,
    ) -> Result<(), CtlFault>
        requires { entries.old.items ≡ [] }
        ensures done { OnOk result (Gathered (Files customer.now (wanted_by filter.entry))
            (IsEntry (wanted_by filter.entry)) self.old self.new (map entry_view entries.new.items) None) }
        ensures why { IfErr result (λ fault. IsWhy fault self.new) }
    {
        let mut from = 0;
        for _ in 0..PARTS {
            match self.entries_from(customer, filter, from, entries)? {
                Some(next) => from = next,
                None => return Ok(()),
            }
        }
        Err(CtlFault::NotUnderstood)
    }

    fn entries_from(
        &mut self,
        customer: &str,
        filter: Filter<'_>,
        from: u64,
        entries: &mut Vec<Entry>,
    ) -> Result<Option<u64>, CtlFault>
        ensures done { IfOk result (λ next. PartGathered (Files customer.now (wanted_by filter.entry))
            (IsEntry (wanted_by filter.entry)) from self.old self.new (map entry_view entries.old.items)
            (map entry_view entries.new.items) next) }
        ensures why { IfErr result (λ fault. IsWhy fault self.new) }
    {
        let answer = self.ask(&Question::Files(customer, from))?;
        let files = list_in(&answer.value, "files")?;
        add_entries(self.alloc, files, filter, entries)?;
        next_in(&answer.value)
    }
}

/// What a reply is to what was asked.
fn asked_of(alloc: Global, reply: ReplyText) -> Result<Asked, CtlFault>
    ensures done { IfOk result (IsAskedOf (reply_view reply)) }
    ensures fault { IfErr result IsPlain }
{
    match understood(alloc, &reply)? {
        Heard::Value(value) => Ok(Asked::Answered(Answer { reply, value })),
        Heard::Refused(refusal) => Ok(Asked::Refused(refusal)),
    }
}
