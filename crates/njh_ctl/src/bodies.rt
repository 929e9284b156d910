//! The JSON of what is asked.

ghost use Rattle.std.specs.Prelude.{◌≡◌, ◌≤◌, Some, IfOk, codes, decimal, string_bytes};
ghost use Rattle.json.specs.Json.{max_depth, member, no_members, object, string};
ghost use Rattle.json.specs.Print.{IsNumber};
ghost use Rattle.json.specs.Tree.{HasNumbers, depth};
ghost use Rattle.json.specs.Value.{value_view};
ghost use Rattle.njh_request.specs.Bodies.{json_of_body};
ghost use Rattle.njh_arguments.specs.Choices.{owner_view, viewed_owner};
ghost use Rattle.njh_arguments.specs.Commands.{change_view};
ghost use Rattle.njh_ctl.specs.Questions.{IsBody, change_text, command_data, data_of, order_data, owner_data};
ghost use Rattle.njh_ctl.specs.Questions.{start_data, shutdown_data, stated_by, stated_members, stated_view};
ghost use Rattle.njh_ctl.specs.Questions.{stop_data, tell_data, diff_data, reload_data, terms_view};

use crate::order::{Files, Order, Terms};
use crate::question::Question;
use json::{Value, to_vec};
use njh_arguments::{Change, Owner};
use std::alloc::{AllocError, Global};

/// The body of what is asked; nothing where it is asked by GET. Out of memory is the only failure.
pub(crate) fn body_of(alloc: Global, question: &Question<'_>) -> Result<Vec<u8>, AllocError>
    ensures { IfOk result (λ body. IsBody (data_of question.now) body.items) }
{
    match *question {
        Question::Status
        | Question::Customers(_)
        | Question::Lines(_, _)
        | Question::Files(_, _)
        | Question::Outcome(_) => Ok(Vec::new(alloc)),
        Question::Order(order, terms) => ordering(alloc, order, terms),
    }
}

/// What is ordered, and on which terms.
fn ordering(alloc: Global, order: Order<'_>, terms: Terms<'_>) -> Result<Vec<u8>, AllocError>
    ensures { IfOk result (λ body. json_of_body body.items
        ≡ Some (order_data order.entry (stated_by (terms_view terms.entry)))) }
{
    let until = digits_of(alloc, terms.until)?;
    let stated = Stated {
        alloc,
        name: terms.name,
        until: until.as_str(),
        by: terms.by,
    };
    stated.body_of(order)
}

/// A number in digits.
fn digits_of(alloc: Global, number: u64) -> Result<String, AllocError>
    ensures text { IfOk result (λ text. string_bytes text ≡ decimal number) }
    ensures number { IfOk result (λ text. IsNumber (string_bytes text)) }
{
    let text = format!(in alloc; "{number}")?;
    Ok(text)
}

/// The command that changes files of a name.
pub(crate) fn change_text(
    alloc: Global,
    change: Change<'_>,
    name: &str,
) -> Result<String, AllocError>
    ensures { IfOk result (λ text. string_bytes text ≡ change_text (change_view change.entry) name.now) }
{
    match change {
        Change::Hold => format!(in alloc; "HOLD {name}"),
        Change::Release => format!(in alloc; "RELEASE {name}"),
        Change::Cancel => format!(in alloc; "CANCEL {name}"),
        Change::Reroute(node) => format!(in alloc; "REROUTE {name} {node}"),
    }
}

/// A line of our own, for who reads JSON.
pub(crate) fn told_line(alloc: Global, line: &str) -> Result<Vec<u8>, AllocError>
    ensures { IfOk result (λ body. json_of_body body.items
        ≡ Some (object (member (codes "told") (string line.now) no_members))) }
{
    let mut members = Vec::with_capacity(alloc, 1)?;
    members.push_reserved(("told", Value::String(line)));
    let value = Value::Object(members);
    text_of(alloc, &value)
}

/// The terms of an order, with the digits of its last second.
#[derive(Clone, Copy)]
pub(crate) struct Stated<'a> {
    pub(crate) alloc: Global,
    pub(crate) name: &'a str,
    pub(crate) until: &'a str,
    pub(crate) by: &'a str,
}

impl<'a> Stated<'a> {
    /// What is ordered, on these terms.
    fn body_of(self, order: Order<'_>) -> Result<Vec<u8>, AllocError>
        requires { IsNumber self.until.now }
        ensures { IfOk result (λ body. json_of_body body.items
            ≡ Some (order_data order.entry (stated_view self.entry))) }
    {
        match order {
            Order::Change(change, files) => self.changing(change, files),
            Order::Tell(_, user, text) => self.telling(user, text),
            Order::Stop(_, when_idle) => self.stopping(when_idle),
            Order::Start(_) => self.starting(),
            Order::Shutdown(when_idle) => self.ending(when_idle),
            Order::Reload => self.reloading(),
            Order::Diff(file) => self.comparing(file),
        }
    }

    /// A change of files.
    fn changing(self, change: Change<'_>, files: Files<'_>) -> Result<Vec<u8>, AllocError>
        requires { IsNumber self.until.now }
        ensures { IfOk result (λ body. json_of_body body.items
            ≡ Some (command_data (change_text (change_view change.entry) files.entry.name.now)
            (viewed_owner files.entry.owner) (stated_view self.entry))) }
    {
        let text = change_text(self.alloc, change, files.name)?;
        self.commanding(text.as_str(), files.owner)
    }

    /// A command, and in whose name it is given, if that is said.
    #[tactic(auto, using(crate::proofs::BodyText::command_numbers, crate::proofs::BodyText::command_depth))]
    fn commanding(self, text: &str, owner: Option<Owner<'_>>) -> Result<Vec<u8>, AllocError>
        requires { IsNumber self.until.now }
        ensures { IfOk result (λ body. json_of_body body.items
            ≡ Some (command_data text.now (viewed_owner owner.entry) (stated_view self.entry))) }
    {
        let value = command_value(self, text, owner)?;
        text_of(self.alloc, &value)
    }

    /// A message to a user.
    fn telling(self, user: Owner<'_>, text: &str) -> Result<Vec<u8>, AllocError>
        requires { IsNumber self.until.now }
        ensures { IfOk result (λ body. json_of_body body.items
            ≡ Some (tell_data (owner_view user.entry) text.now (stated_view self.entry))) }
    {
        let value = telling_value(self, user, text)?;
        text_of(self.alloc, &value)
    }

    /// The end of a line's connection.
    fn stopping(self, when_idle: bool) -> Result<Vec<u8>, AllocError>
        requires { IsNumber self.until.now }
        ensures { IfOk result (λ body. json_of_body body.items ≡ Some (stop_data when_idle (stated_view self.entry))) }
    {
        let (state, flag) = (Value::String("stopped"), Value::Bool(when_idle));
        let value = self.with_two("state", state, "when_idle", flag)?;
        text_of(self.alloc, &value)
    }

    /// A line's connections again.
    fn starting(self) -> Result<Vec<u8>, AllocError>
        requires { IsNumber self.until.now }
        ensures { IfOk result (λ body. json_of_body body.items ≡ Some (start_data (stated_view self.entry))) }
    {
        let value = self.with_one("state", Value::String("started"))?;
        text_of(self.alloc, &value)
    }

    /// The end of the service.
    fn ending(self, when_idle: bool) -> Result<Vec<u8>, AllocError>
        requires { IsNumber self.until.now }
        ensures { IfOk result (λ body. json_of_body body.items
            ≡ Some (shutdown_data when_idle (stated_view self.entry))) }
    {
        let value = self.with_one("when_idle", Value::Bool(when_idle))?;
        text_of(self.alloc, &value)
    }

    /// That the table file is read.
    fn reloading(self) -> Result<Vec<u8>, AllocError>
        requires { IsNumber self.until.now }
        ensures { IfOk result (λ body. json_of_body body.items ≡ Some (reload_data (stated_view self.entry))) }
    {
        let value = self.alone()?;
        text_of(self.alloc, &value)
    }

    /// That a table file is compared.
    fn comparing(self, file: &str) -> Result<Vec<u8>, AllocError>
        requires { IsNumber self.until.now }
        ensures { IfOk result (λ body. json_of_body body.items
            ≡ Some (diff_data file.now (stated_view self.entry))) }
    {
        let value = diff_value(self, file)?;
        text_of(self.alloc, &value)
    }

    /// An object of these.
    fn alone(self) -> Result<Value<'a>, AllocError>
        ensures { IfOk result (λ whole. value_view whole ≡ object (stated_members (stated_view self.entry))) }
    {
        let mut members = Vec::with_capacity(self.alloc, 3)?;
        members.push_reserved(("name", Value::String(self.name)));
        members.push_reserved(("until", Value::Number(self.until)));
        members.push_reserved(("by", Value::String(self.by)));
        Ok(Value::Object(members))
    }

    /// An object of one member and these.
    fn with_one(self, key: &'a str, value: Value<'a>) -> Result<Value<'a>, AllocError>
        ensures { IfOk result (λ whole. value_view whole ≡ object (member key.entry.now (value_view value.entry)
            (stated_members (stated_view self.entry)))) }
    {
        let mut members = Vec::with_capacity(self.alloc, 4)?;
        members.push_reserved((key, value));
        members.push_reserved(("name", Value::String(self.name)));
        members.push_reserved(("until", Value::Number(self.until)));
        members.push_reserved(("by", Value::String(self.by)));
        Ok(Value::Object(members))
    }

    /// An object of two and these.
    fn with_two(
        self,
        key: &'a str,
        value: Value<'a>,
        second: &'a str,
        other: Value<'a>,
    ) -> Result<Value<'a>, AllocError>
        ensures { IfOk result (λ whole. value_view whole ≡ object (member key.entry.now (value_view value.entry)
            (member second.entry.now (value_view other.entry) (stated_members (stated_view self.entry))))) }
    {
        let mut members = Vec::with_capacity(self.alloc, 5)?;
        members.push_reserved((key, value));
        members.push_reserved((second, other));
        members.push_reserved(("name", Value::String(self.name)));
        members.push_reserved(("until", Value::Number(self.until)));
        members.push_reserved(("by", Value::String(self.by)));
        Ok(Value::Object(members))
    }
}

/// A command, and in whose name it is given, if that is said.
fn command_value<'a>(
    stated: Stated<'a>,
    text: &'a str,
    owner: Option<Owner<'a>>,
) -> Result<Value<'a>, AllocError>
    ensures { IfOk result (λ value. value_view value
        ≡ command_data text.entry.now (viewed_owner owner.entry) (stated_view stated.entry)) }
{
    match owner {
        Some(owner) => {
            let owner = owner_value(stated.alloc, owner)?;
            stated.with_two("command", Value::String(text), "owner", owner)
        }
        None => stated.with_one("command", Value::String(text)),
    }
}

/// A table file that is compared.
fn diff_value<'a>(stated: Stated<'a>, file: &'a str) -> Result<Value<'a>, AllocError>
    ensures { IfOk result (λ value. value_view value ≡ diff_data file.entry.now (stated_view stated.entry)) }
{
    stated.with_one("file", Value::String(file))
}

/// A message to a user.
fn telling_value<'a>(
    stated: Stated<'a>,
    user: Owner<'a>,
    text: &'a str,
) -> Result<Value<'a>, AllocError>
    ensures { IfOk result (λ value. value_view value
        ≡ tell_data (owner_view user.entry) text.entry.now (stated_view stated.entry)) }
{
    let to = owner_value(stated.alloc, user)?;
    stated.with_two("text", Value::String(text), "to", to)
}

/// A user at a node.
fn owner_value<'a>(alloc: Global, owner: Owner<'a>) -> Result<Value<'a>, AllocError>
    ensures { IfOk result (λ value. value_view value ≡ owner_data (owner_view owner.entry)) }
{
    let mut members = Vec::with_capacity(alloc, 2)?;
    members.push_reserved(("node", Value::String(owner.node)));
    members.push_reserved(("user", Value::String(owner.user)));
    Ok(Value::Object(members))
}

/// A value as text.
fn text_of(alloc: Global, value: &Value<'_>) -> Result<Vec<u8>, AllocError>
    requires numbers { HasNumbers (value_view value.now) }
    requires shallow { depth (value_view value.now) ≤ max_depth }
    ensures { IfOk result (λ body. json_of_body body.items ≡ Some (value_view value.now)) }
{
    to_vec(alloc, value)
}
