//! What is asked in a talk with a console, and what is to be told of it.

ghost use Rattle.std.specs.Prelude.{◌≡◌, [], None, IfErr, IfOk, OnOk, bytes_eq, map, option_map, string_bytes, true};
ghost use Rattle.std.specs.List.{list_any};
ghost use Rattle.njh_arguments.specs.Choices.{choice_view};
ghost use Rattle.njh_ctl.specs.Asked.{Gathered, IsAskedSo, answer_view};
ghost use Rattle.njh_ctl.specs.Chosen.{wanted_by};
ghost use Rattle.njh_ctl.specs.Exchanges.{IsFresh, text_of};
ghost use Rattle.njh_ctl.specs.Faults.{IsPlain, IsWhy};
ghost use Rattle.njh_ctl.specs.Lists.{Customers, Files, list_view};
ghost use Rattle.njh_ctl.specs.Many.{IsEntry, entry_view};
ghost use Rattle.njh_ctl.specs.Orders.{with_ending};
ghost use Rattle.njh_ctl.specs.Shown.{AreRepliesShown, customers_head, files_head};
ghost use Rattle.njh_ctl.specs.ShownLines.{lines_head};
ghost use Rattle.njh_ctl.specs.ShownMessages.{messages_head};
ghost use Rattle.njh_ctl.specs.Talks.{FilesListed, FilesOf, ForEach, LinesFound, LinesListed, LinesOf, ListedWhole};
ghost use Rattle.njh_ctl.specs.Talks.{MessagesFound, MessagesListed, MessagesOf, NameListed, OfAll, PartListed};
ghost use Rattle.njh_ctl.specs.Talks.{StatusAsked, wanted_at, with_head};
ghost use Rattle.njh_ctl.specs.Told.{IsNothing, LineTold, Tells};

use crate::answers::next_in;
use crate::asker::{Answer, Asked, Asker, PARTS};
use crate::choosing::Filter;
use crate::ending::Ending;
use crate::entries::Entry;
use crate::fault::CtlFault;
use crate::machine::Machine;
use crate::names::has_name;
use crate::parted_list::PartedList;
use crate::question::Question;
use crate::replies::wrong_by;
use crate::shown::{CUSTOMERS, FILES};
use crate::shown_lines::LINES;
use crate::shown_messages::MESSAGES;
use crate::teller::Teller;
use njh_arguments::Choice;
use std::alloc::Global;
use std::io::{Read, Write};
use std::marker::Model;

/// A talk with a console, and what is to be told of it.
#[derive(Drop)]
pub(crate) struct Talk<S: Read + Write + Drop, M: Machine<S> + Drop> {
    asker: Asker<S, M>,
    teller: Teller,
    /// When it began, in seconds since 1970.
    moment: u64,
}

impl<S: Read + Write + Drop, M: Machine<S> + Drop> Model for Talk<S, M> {
    ghost use Rattle.njh_ctl.specs.Orders.{TalkView};

    ghost Value = { TalkView };

    ghost view = { λ talk. record { link = talk.asker; told = talk.teller; moment = talk.moment } };
}

impl<S: Read + Write + Drop, M: Machine<S> + Drop> Talk<S, M> {
    /// Over a connection that the machine makes. Answers are told as they came, or for people.
    pub(crate) fn new(alloc: Global, machine: M, json: bool) -> Result<Talk<S, M>, CtlFault>
        ensures json { IfOk result (λ talk. talk.told.json ≡ json) }
        ensures text { IfOk result (λ talk. talk.told.text ≡ []) }
        ensures fault { IfErr result IsPlain }
    {
        let asker = Asker::new(alloc, machine)?;
        let moment = asker.now();
        Ok(Talk {
            asker,
            teller: Teller::new(alloc, json),
            moment,
        })
    }

    /// Closes the connection, and makes another.
    pub(crate) fn connect(&mut self) -> Result<(), CtlFault>
        ensures done { OnOk result (IsFresh self.new.link) }
        ensures told { self.new.told ≡ self.old.told }
        ensures moment { self.new.moment ≡ self.old.moment }
        ensures fault { IfErr result IsPlain }
    {
        self.asker.connect()
    }

    /// Now, in seconds since the beginning of 1970.
    pub(crate) fn now(&self) -> u64 {
        self.asker.now()
    }

    /// What is to be told.
    pub(crate) fn text(&self) -> &str
        ensures { result.now ≡ self.now.told.text }
    {
        self.teller.text()
    }

    /// How the hub is, or only whether something is wrong.
    pub(crate) fn status(&mut self, quiet: bool) -> Result<Ending, CtlFault>
        ensures done { IfOk result (StatusAsked quiet self.old self.new) }
        ensures why { IfErr result (λ fault. IsWhy fault self.new.link) }
    {
        let answer = self.asker.ask(&Question::Status)?;
        if quiet {
            return wrong_by(&answer.value);
        }
        self.teller.tell_status(&answer)?;
        Ok(Ending::Done)
    }

    /// What customers have.
    pub(crate) fn customers(&mut self) -> Result<Ending, CtlFault>
        ensures done { IfOk result (λ ending. ListedWhole Customers (with_head customers_head self.old) self.new
            × (ending ≡ Ending.Done)) }
        ensures why { IfErr result (λ fault. IsWhy fault self.new.link) }
    {
        self.teller.set_head(CUSTOMERS);
        self.list(PartedList::Customers)?;
        Ok(Ending::Done)
    }

    /// How lines are: those of the customer of a name, the line of this name, or all.
    pub(crate) fn lines(&mut self, name: Option<&str>) -> Result<Ending, CtlFault>
        ensures done { IfOk result (λ ending.
            LinesListed (option_map (λ name. name.now) name.entry) (with_head lines_head self.old) self.new
            × (ending ≡ Ending.Done)) }
        ensures why { IfErr result (λ fault. IsWhy fault self.new.link) }
    {
        self.teller.set_head(LINES);
        let found = match name {
            Some(name) => self.lines_called(name),
            None => self.all_lines(),
        };
        if found? {
            Ok(Ending::Done)
        } else {
            Err(CtlFault::NoLine)
        }
    }

    fn all_lines(&mut self) -> Result<bool, CtlFault>
        ensures done { OnOk result (OfAll (LinesOf None) self.old self.new) }
        ensures why { IfErr result (λ fault. IsWhy fault self.new.link) }
    {
        let names = self.asker.names()?;
        self.lines_of_all(names.as_slice(), None)?;
        Ok(true)
    }

    fn lines_called(&mut self, name: &str) -> Result<bool, CtlFault>
        ensures done { OnOk result (NameListed name.now self.old self.new) }
        ensures why { IfErr result (λ fault. IsWhy fault self.new.link) }
    {
        let names = self.asker.names()?;
        self.lines_named(names.as_slice(), name)
    }

    /// The lines of the customer of a name, or the line of this name if there is none. It answers
    /// whether there is either.
    fn lines_named(&mut self, names: &[String], name: &str) -> Result<bool, CtlFault>
        ensures done { IfOk result (LinesFound (list_any (λ n. bytes_eq n name.now) (map string_bytes names.now))
            (map string_bytes names.now) name.now self.old self.new) }
        ensures why { IfErr result (λ fault. IsWhy fault self.new.link) }
    {
        if has_name(names, name) {
            self.list(PartedList::Lines(name, None))?;
            return Ok(true);
        }
        let before = self.teller.text().len();
        self.lines_of_all(names, Some(name))?;
        Ok(self.teller.text().len() != before)
    }

    /// Of each customer the lines, or that of a name.
    fn lines_of_all(&mut self, names: &[String], line: Option<&str>) -> Result<(), CtlFault>
        ensures done { OnOk result (ForEach (LinesOf (option_map (λ line. line.now) line.entry)) self.old
            (map string_bytes names.now) self.new) }
        ensures why { IfErr result (λ fault. IsWhy fault self.new.link) }
    {
        for name in names {
            self.list(PartedList::Lines(name.as_str(), line))?;
        }
        Ok(())
    }

    /// The messages of the lines of a name.
    pub(crate) fn messages(&mut self, line: &str) -> Result<Ending, CtlFault>
        ensures done { IfOk result (λ ending.
            MessagesListed line.now (with_head messages_head self.old) self.new true
            × (ending ≡ Ending.Done)) }
        ensures why { IfErr result (λ fault. IsWhy fault self.new.link) }
    {
        self.teller.set_head(MESSAGES);
        if self.messages_called(line)? {
            Ok(Ending::Done)
        } else {
            Err(CtlFault::NotALine)
        }
    }

    fn messages_called(&mut self, line: &str) -> Result<bool, CtlFault>
        ensures done { IfOk result (MessagesListed line.now self.old self.new) }
        ensures why { IfErr result (λ fault. IsWhy fault self.new.link) }
    {
        let names = self.asker.names()?;
        self.messages_found(names.as_slice(), line)
    }

    /// Of each customer the messages of the line of a name. It answers whether one has such a line.
    fn messages_found(&mut self, names: &[String], line: &str) -> Result<bool, CtlFault>
        ensures done { IfOk result (MessagesFound (map string_bytes names.now) line.now self.old self.new) }
        ensures why { IfErr result (λ fault. IsWhy fault self.new.link) }
    {
        let before = self.teller.text().len();
        self.messages_of_all(names, line)?;
        Ok(self.teller.text().len() != before)
    }

    fn messages_of_all(&mut self, names: &[String], line: &str) -> Result<(), CtlFault>
        ensures done { OnOk result (ForEach (MessagesOf line.now) self.old (map string_bytes names.now) self.new) }
        ensures why { IfErr result (λ fault. IsWhy fault self.new.link) }
    {
        for name in names {
            self.list(PartedList::Messages(name.as_str(), line))?;
        }
        Ok(())
    }

    /// The files that are chosen: a customer's, or of all.
    pub(crate) fn files(
        &mut self,
        customer: Option<&str>,
        choice: Choice<'_>,
    ) -> Result<Ending, CtlFault>
        ensures done { IfOk result (λ ending. FilesListed (wanted_at (choice_view choice.entry) self.old)
            (option_map (λ name. name.now) customer.entry) (with_head files_head self.old) self.new
            × (ending ≡ Ending.Done)) }
        ensures why { IfErr result (λ fault. IsWhy fault self.new.link) }
    {
        self.teller.set_head(FILES);
        let filter = Filter {
            choice,
            now: self.moment,
        };
        self.files_told(customer, filter)?;
        Ok(Ending::Done)
    }

    fn files_told(&mut self, customer: Option<&str>, filter: Filter<'_>) -> Result<(), CtlFault>
        ensures done { OnOk result (FilesListed (wanted_by filter.entry)
            (option_map (λ name. name.now) customer.entry) self.old self.new) }
        ensures why { IfErr result (λ fault. IsWhy fault self.new.link) }
    {
        match customer {
            Some(customer) => self.list(PartedList::Files(customer, filter)),
            None => self.all_files(filter),
        }
    }

    fn all_files(&mut self, filter: Filter<'_>) -> Result<(), CtlFault>
        ensures done { OnOk result (OfAll (FilesOf (wanted_by filter.entry)) self.old self.new) }
        ensures why { IfErr result (λ fault. IsWhy fault self.new.link) }
    {
        let names = self.asker.names()?;
        self.files_of_all(names.as_slice(), filter)
    }

    fn files_of_all(&mut self, names: &[String], filter: Filter<'_>) -> Result<(), CtlFault>
        ensures done { OnOk result (ForEach (FilesOf (wanted_by filter.entry)) self.old (map string_bytes names.now)
            self.new) }
        ensures why { IfErr result (λ fault. IsWhy fault self.new.link) }
    {
        for name in names {
            self.list(PartedList::Files(name.as_str(), filter))?;
        }
        Ok(())
    }

    /// Asks for a list to its end, and tells of it.
    fn list(&mut self, list: PartedList<'_>) -> Result<(), CtlFault>
        ensures done { OnOk result (ListedWhole (list_view list.entry) self.old self.new) }
        ensures why { IfErr result (λ fault. IsWhy fault self.new.link) }
    {
        let mut from = 0;
        for _ in 0..PARTS {
            match self.list_from(list, from)? {
                Some(next) => from = next,
                None => return Ok(()),
            }
        }
        Err(CtlFault::NotUnderstood)
    }

    /// Asks for a part of a list, and tells of it.
    fn list_from(&mut self, list: PartedList<'_>, from: u64) -> Result<Option<u64>, CtlFault>
        ensures done { IfOk result (PartListed (list_view list.entry) from self.old self.new) }
        ensures why { IfErr result (λ fault. IsWhy fault self.new.link) }
    {
        let answer = self.asker.ask(&list.question(from))?;
        let next = next_in(&answer.value)?;
        self.teller.tell_part(list, answer)?;
        Ok(next)
    }

    /// A customer's files, by name and owner.
    pub(crate) fn entries(
        &mut self,
        customer: &str,
        choice: Choice<'_>,
    ) -> Result<Vec<Entry>, CtlFault>
        ensures done { IfOk result (λ entries. Gathered
            (Files customer.now (wanted_at (choice_view choice.entry) self.old))
            (IsEntry (wanted_at (choice_view choice.entry) self.old)) self.old.link self.new.link
            (map entry_view entries.items) None) }
        ensures told { self.new.told ≡ self.old.told }
        ensures moment { self.new.moment ≡ self.old.moment }
        ensures why { IfErr result (λ fault. IsWhy fault self.new.link) }
    {
        let filter = Filter {
            choice,
            now: self.moment,
        };
        self.asker.entries(customer, filter)
    }

    /// What comes of a question.
    pub(crate) fn try_ask(&mut self, question: &Question<'_>) -> Result<Asked, CtlFault>
        ensures done { IfOk result (IsAskedSo (text_of question.now) self.old.link self.new.link) }
        ensures told { self.new.told ≡ self.old.told }
        ensures moment { self.new.moment ≡ self.old.moment }
        ensures fault { IfErr result IsPlain }
    {
        self.asker.try_ask(question)
    }

    /// Tells that an order was taken, of which people are told nothing.
    pub(crate) fn tell_taken(&mut self, answer: &Answer) -> Result<(), CtlFault>
        ensures done { OnOk result (Tells IsNothing (answer_view answer.now).reply.body self.old.told self.new.told) }
        ensures link { self.new.link ≡ self.old.link }
        ensures moment { self.new.moment ≡ self.old.moment }
        ensures fault { IfErr result IsPlain }
    {
        self.teller.tell_taken(answer)
    }

    /// Tells what an order answered.
    pub(crate) fn tell_replies(&mut self, answer: &Answer) -> Result<(), CtlFault>
        ensures done { OnOk result (Tells (AreRepliesShown (answer_view answer.now).value)
            (answer_view answer.now).reply.body self.old.told self.new.told) }
        ensures link { self.new.link ≡ self.old.link }
        ensures moment { self.new.moment ≡ self.old.moment }
        ensures fault { IfErr result IsPlain }
    {
        self.teller.tell_replies(answer)
    }

    /// Tells people that all was done, if it was.
    pub(crate) fn tell_ending(&mut self, ending: Ending) -> Result<(), CtlFault>
        ensures done { OnOk result (self.new ≡ with_ending ending self.old) }
        ensures link { self.new.link ≡ self.old.link }
        ensures moment { self.new.moment ≡ self.old.moment }
        ensures fault { IfErr result IsPlain }
    {
        self.teller.tell_ending(ending)
    }

    /// Tells a line of our own.
    pub(crate) fn tell_line(&mut self, line: &str) -> Result<(), CtlFault>
        ensures done { OnOk result (LineTold line.now self.old.told self.new.told) }
        ensures link { self.new.link ≡ self.old.link }
        ensures moment { self.new.moment ≡ self.old.moment }
        ensures fault { IfErr result IsPlain }
    {
        self.teller.tell_line(line)
    }

    /// When it began, in seconds since 1970.
    pub(crate) fn moment(&self) -> u64
        ensures { result ≡ self.now.moment }
    {
        self.moment
    }
}
