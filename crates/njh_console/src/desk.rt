//! What answers requests of HTTP.

ghost use Rattle.std.specs.Prelude.{◌≡◌, IfOk};
ghost use Rattle.njh_request.specs.Named.{IsReadOf};
ghost use Rattle.njh_answer.specs.Answers.{told_of};
ghost use Rattle.njh_console.specs.Acts.{IsSound};
ghost use Rattle.njh_console.specs.Desks.{new_desk, told_at};
ghost use Rattle.njh_console.specs.Rounds.{asked_by, reply_to};

use crate::order_book::OrderBook;
use crate::page::{Page, allowed, page_of, write_text};
use crate::situation::Situation;
use bytes::Bytes;
use http::Request;
use http_server::{Response, Service};
use njh_answer::{Deed, RequestAnswer, answer_request, refuses};
use njh_request::RequestRefusal;
use std::alloc::{AllocError, Global};
use std::marker::Model;

/// Answers one request of a round by what there is to be told of, and keeps what it orders.
#[derive(Drop)]
pub(crate) struct Desk<'a> {
    alloc: Global,
    situation: &'a Situation<'a>,
    book: &'a OrderBook,
    /// A request of this round was answered.
    is_done: bool,
    taken: Deed,
}

impl<'a> Model for Desk<'a> {
    ghost use Rattle.njh_console.specs.Desks.{DeskState};

    ghost Value = { DeskState };

    ghost view = { λ desk. record {
      scene = desk.situation.now;
      orders = desk.book.now;
      done = desk.is_done;
      taken = desk.taken;
    } };
}

impl<'a> Desk<'a> {
    /// One at which nobody has asked anything yet.
    pub(crate) fn new(alloc: Global, situation: &'a Situation<'a>, book: &'a OrderBook) -> Desk<'a>
        ensures { result ≡ new_desk situation.now book.now }
    {
        Desk {
            alloc,
            situation,
            book,
            is_done: false,
            taken: Deed::Nothing,
        }
    }

    /// Whether a request of this round was answered.
    pub(crate) fn is_done(&self) -> bool
        ensures { result ≡ self.now.done }
    {
        self.is_done
    }

    /// What was ordered.
    pub(crate) fn into_taken(self) -> Deed
        ensures { result ≡ self.entry.taken }
    {
        let Desk { taken, .. } = self;
        taken
    }

    /// What a request asks for.
    fn read(
        &self,
        request: &Request<Bytes>,
    ) -> Result<Result<njh_request::Request, RequestRefusal>, AllocError>
        ensures read { IfOk result (λ read. read ≡ asked_by self.now.scene request.now) }
        ensures there { IfOk result (IsReadOf self.now.scene.tables) }
    {
        let tables = self.situation.tables();
        let method = request.method().as_str();
        let (path, query) = (request.uri().path(), request.uri().query());
        let body = request.body().as_slice();
        njh_request::Request::read(self.alloc, tables, method, path, query, body)
    }

    /// What is answered to what was asked for.
    #[tactic(auto, using(crate::proofs::AnswerLaws::answered, crate::proofs::AnswerLaws::refused))]
    fn reply(
        &self,
        asked: Result<njh_request::Request, RequestRefusal>,
    ) -> Result<RequestAnswer, AllocError>
        requires there { IsReadOf self.now.scene.tables asked }
        ensures told { IfOk result (λ answer. told_of answer ≡ reply_to self.now.scene self.now.orders asked) }
        ensures sound { IfOk result (λ answer. IsSound (told_of answer)) }
    {
        match asked {
            Ok(asked) => {
                let views = self
                    .situation
                    .with_orders(self.book.records(), self.book.next());
                answer_request(self.alloc, asked, &views)
            }
            Err(refusal) => refuses(self.alloc, self.situation.since(), refusal),
        }
    }

    /// What is answered to a request.
    fn answer(&self, request: &Request<Bytes>) -> Result<RequestAnswer, AllocError>
        ensures told { IfOk result (λ answer. told_of answer
            ≡ reply_to self.now.scene self.now.orders (asked_by self.now.scene request.now)) }
        ensures sound { IfOk result (λ answer. IsSound (told_of answer)) }
    {
        let asked = self.read(request)?;
        self.reply(asked)
    }

    /// The same, but nothing behind the round's first request is answered.
    #[tactic(auto, using(crate::proofs::AnswerLaws::refused))]
    fn answer_in_turn(&self, request: &Request<Bytes>) -> Result<RequestAnswer, AllocError>
        ensures told { IfOk result (λ answer. told_of answer ≡ told_at self.now request.now) }
        ensures sound { IfOk result (λ answer. IsSound (told_of answer)) }
    {
        if self.is_done {
            refuses(self.alloc, self.situation.since(), RequestRefusal::Busy)
        } else {
            self.answer(request)
        }
    }
}

impl Service for Desk<'_> {
    ghost use Rattle.njh_console.specs.Desks.{IsServed};

    ghost answers = { IsServed };

    fn call(
        &mut self,
        request: &Request<Bytes>,
        response: &mut Response,
    ) -> Result<(), AllocError> {
        let answer = self.answer_in_turn(request)?;
        let since = self.situation.since();
        let Page { status, text, deed } = page_of(self.alloc, since, answer)?;
        write_text(status, allowed(&deed), text.as_str(), response)?;
        if !self.is_done {
            self.taken = deed;
            self.is_done = true;
        }
        Ok(())
    }
}
