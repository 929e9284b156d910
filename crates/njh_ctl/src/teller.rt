//! What is to be told.

ghost use Rattle.std.specs.Prelude.{◌≡◌, [], ◌++◌, IfErr, OnOk, map, string_bytes};
ghost use Rattle.serde_json.specs.View.{view};
ghost use Rattle.njh_ctl.specs.Asked.{answer_view};
ghost use Rattle.njh_ctl.specs.Faults.{IsPlain};
ghost use Rattle.njh_ctl.specs.Lists.{CameWhere, PartTold, RowOf, is_filtered, key_of, list_view};
ghost use Rattle.njh_ctl.specs.Orders.{done_where, ended_told};
ghost use Rattle.njh_ctl.specs.Questions.{Text};
ghost use Rattle.njh_ctl.specs.Shown.{AreRepliesShown, IsStatusShown, Rows};
ghost use Rattle.njh_ctl.specs.Told.{IsNothing, LineTold, Tells, headed, with_came, with_told};

use crate::answers::list_in;
use crate::asker::Answer;
use crate::bodies::told_line;
use crate::ending::Ending;
use crate::fault::CtlFault;
use crate::kept::{kept_of, part_text};
use crate::parted_list::PartedList;
use crate::shown::{show_replies, show_status};
use serde_json::Value;
use std::alloc::Global;
use std::marker::Model;
use std::str;

/// What is to be told.
#[derive(Drop)]
pub(crate) struct Teller {
    alloc: Global,
    /// Answers are told as they came.
    json: bool,
    /// What is still to stand above what is told for people next.
    head: &'static str,
    text: String,
}

impl Model for Teller {
    ghost use Rattle.std.specs.Prelude.{string_bytes};
    ghost use Rattle.njh_ctl.specs.Told.{Told};

    ghost Value = { Told };

    ghost view = { λ teller. record {
      json = teller.json;
      head = teller.head.now;
      text = string_bytes teller.text;
    } };
}

impl Teller {
    /// Nothing yet. Answers are told as they came, or for people.
    pub(crate) fn new(alloc: Global, json: bool) -> Teller
        ensures json { result.json ≡ json }
        ensures head { result.head ≡ [] }
        ensures text { result.text ≡ [] }
    {
        Teller {
            alloc,
            json,
            head: "",
            text: String::new(alloc),
        }
    }

    /// What is to be told.
    pub(crate) fn text(&self) -> &str
        ensures { result.now ≡ self.now.text }
    {
        self.text.as_str()
    }

    /// This is to stand above what is told for people next.
    pub(crate) fn set_head(&mut self, head: &'static str)
        ensures { self.new ≡ headed head.now self.old }
    {
        self.head = head;
    }

    /// Tells a text for people.
    fn tell(&mut self, text: &str) -> Result<(), CtlFault>
        ensures done { OnOk result (self.new ≡ with_told text.now self.old) }
        ensures fault { IfErr result IsPlain }
    {
        if text.is_empty() {
            return Ok(());
        }
        self.text.push_str(self.head)?;
        self.head = "";
        self.text.push_str(text)?;
        Ok(())
    }

    /// Tells a text as it came, as a line.
    fn tell_came(&mut self, text: &str) -> Result<(), CtlFault>
        ensures done { OnOk result (self.new ≡ with_came text.now self.old) }
        ensures fault { IfErr result IsPlain }
    {
        if text.is_empty() {
            return Ok(());
        }
        self.text.push_str(text)?;
        self.text.push_str("\n")?;
        Ok(())
    }

    /// Tells a body as it came.
    fn tell_body(&mut self, body: &[u8]) -> Result<(), CtlFault>
        ensures done { OnOk result (self.new ≡ with_came body.now self.old) }
        ensures fault { IfErr result IsPlain }
    {
        match str::from_utf8(body) {
            Ok(text) => self.tell_came(text),
            Err(_) => Err(CtlFault::NotUnderstood),
        }
    }

    /// Tells how the hub is.
    pub(crate) fn tell_status(&mut self, answer: &Answer) -> Result<(), CtlFault>
        ensures done { OnOk result (Tells (IsStatusShown (answer_view answer.now).value)
            (answer_view answer.now).reply.body self.old self.new) }
        ensures fault { IfErr result IsPlain }
    {
        if self.json {
            return self.tell_body(answer.reply.body.as_slice());
        }
        let mut text = String::new(self.alloc);
        show_status(self.alloc, &answer.value, &mut text)?;
        self.tell(text.as_str())
    }

    /// Tells what an order answered.
    pub(crate) fn tell_replies(&mut self, answer: &Answer) -> Result<(), CtlFault>
        ensures done { OnOk result (Tells (AreRepliesShown (answer_view answer.now).value)
            (answer_view answer.now).reply.body self.old self.new) }
        ensures fault { IfErr result IsPlain }
    {
        if self.json {
            return self.tell_body(answer.reply.body.as_slice());
        }
        let mut text = String::new(self.alloc);
        show_replies(self.alloc, &answer.value, &mut text)?;
        self.tell(text.as_str())
    }

    /// Tells an answer of which people are told nothing.
    pub(crate) fn tell_taken(&mut self, answer: &Answer) -> Result<(), CtlFault>
        ensures done { OnOk result (Tells IsNothing (answer_view answer.now).reply.body self.old self.new) }
        ensures fault { IfErr result IsPlain }
    {
        if self.json {
            self.tell_body(answer.reply.body.as_slice())
        } else {
            self.tell("")
        }
    }

    /// Tells people that all was done, if it was.
    pub(crate) fn tell_ending(&mut self, ending: Ending) -> Result<(), CtlFault>
        ensures done { OnOk result (self.new ≡ ended_told ending self.old) }
        ensures fault { IfErr result IsPlain }
    {
        match ending {
            Ending::Done => self.tell_done(),
            Ending::TurnedDown | Ending::Wrong => Ok(()),
        }
    }

    fn tell_done(&mut self) -> Result<(), CtlFault>
        ensures done { OnOk result (self.new ≡ done_where self.old.json self.old) }
        ensures fault { IfErr result IsPlain }
    {
        if self.json {
            Ok(())
        } else {
            self.tell("done\n")
        }
    }

    /// Tells a line of our own.
    pub(crate) fn tell_line(&mut self, line: &str) -> Result<(), CtlFault>
        ensures done { OnOk result (LineTold line.now self.old self.new) }
        ensures fault { IfErr result IsPlain }
    {
        if self.json {
            let body = told_line(self.alloc, line)?;
            self.tell_body(body.as_slice())
        } else {
            let text = format!(in self.alloc; "{line}\n")?;
            self.tell(text.as_str())
        }
    }

    /// Tells a part of a list.
    pub(crate) fn tell_part(&mut self, list: PartedList<'_>, answer: Answer) -> Result<(), CtlFault>
        ensures done { OnOk result (PartTold (list_view list.entry) (answer_view answer).reply.body
            (answer_view answer).value self.old self.new) }
        ensures fault { IfErr result IsPlain }
    {
        let items = list_in(&answer.value, list.key())?;
        let kept = kept_of(self.alloc, list, items)?;
        if self.json {
            self.tell_kept(list, answer, kept)
        } else {
            self.tell_rows(list, kept)
        }
    }

    /// Tells the items that are looked for, as they came.
    fn tell_kept(
        &mut self,
        list: PartedList<'_>,
        answer: Answer,
        kept: Vec<Value>,
    ) -> Result<(), CtlFault>
        ensures done { OnOk result (CameWhere (is_filtered (list_view list.entry)) (key_of (list_view list.entry))
            (answer_view answer).reply.body (map view kept.items) (answer_view answer).value self.old self.new) }
        ensures fault { IfErr result IsPlain }
    {
        let Answer { reply, value } = answer;
        if !list.is_filtered() {
            return self.tell_body(reply.body.as_slice());
        }
        if kept.is_empty() {
            return Ok(());
        }
        let text = part_text(self.alloc, value, list.key(), kept)?;
        self.tell_came(text.as_str())
    }

    /// Tells the items that are looked for, for people.
    fn tell_rows(&mut self, list: PartedList<'_>, kept: Vec<Value>) -> Result<(), CtlFault>
        ensures done { OnOk result ((text : Text) × Rows (RowOf (list_view list.entry)) (map view kept.items) text
            × (self.new ≡ with_told text self.old)) }
        ensures fault { IfErr result IsPlain }
    {
        let mut text = String::new(self.alloc);
        list.show(self.alloc, kept.as_slice(), &mut text)?;
        self.tell(text.as_str())
    }
}
