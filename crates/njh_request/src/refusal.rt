//! Why a request is refused.

ghost use Rattle.std.specs.Prelude.{◌≡◌};
ghost use Rattle.njh_request.specs.Refusals.{allowed_by, rule_of, status_of};

use crate::member::Member;
use crate::methods::Methods;
use crate::order_key::OrderKey;
use crate::order_name::OrderName;
use crate::quote::Quote;
use njh_header::FileName;
use std::fmt;

/// Why nothing is done of what a request asks for. As it is shown it says what is wrong.
#[derive(Clone, Copy, Debug, PartialEq, Eq)]
pub enum RequestRefusal {
    /// The path names nothing.
    NoResource(Quote),
    /// No customer has this name.
    NoCustomer(Quote),
    /// No line has this name.
    NoLine(Quote),
    /// The resource is asked by these methods, and by no other.
    BadMethod(Methods),
    /// What stands behind the path is no place to go on from.
    BadPlace,
    /// Something stands behind a path from which there is no place to go on.
    NoPlace,
    /// The body isn't an object of JSON.
    NotJson,
    /// The body has a member that it isn't to have.
    UnknownMember(Quote),
    /// It has a member twice.
    RepeatedMember(Member),
    /// It lacks a member.
    MissingMember(Member),
    /// A member of it isn't what it has to be.
    BadMember(Member),
    /// The text is no command to files.
    NotACommand,
    /// LIST is for the files of an owner, and none is given.
    NoOwner,
    /// The customer has no file of this name.
    NoFile(FileName),
    /// No order of this number or name was given, or it was given too long ago.
    NoOrder(OrderKey),
    /// Another order is remembered under this name.
    NameTaken(OrderName),
    /// The order came, or was to be carried out, after the last second in which it might be.
    TooLate,
    /// Who gave the order had gone before it was carried out.
    GiverGone,
    /// No line leads to the node of whom the message is for.
    NoWay,
    /// The queue of the line that leads there is full.
    QueueFull,
    /// Files of this name have several owners, and none is given.
    SeveralOwners,
    /// A request is answered at a time.
    Busy,
    /// The order was carried out, and there was no memory to keep what it answered.
    NotKept,
    /// What would be answered is longer than an answer may be.
    TooLong,
}

impl RequestRefusal {
    /// The status of HTTP.
    pub fn status(&self) -> u16
        ensures { result ≡ status_of self.now }
    {
        match self {
            RequestRefusal::NoResource(_)
            | RequestRefusal::NoCustomer(_)
            | RequestRefusal::NoLine(_)
            | RequestRefusal::NoFile(_)
            | RequestRefusal::NoOrder(_)
            | RequestRefusal::NoWay => NOT_FOUND,
            RequestRefusal::BadMethod(_) => BAD_METHOD,
            RequestRefusal::SeveralOwners | RequestRefusal::NameTaken(_) => CONFLICT,
            RequestRefusal::TooLate | RequestRefusal::GiverGone => GONE,
            RequestRefusal::QueueFull | RequestRefusal::Busy => UNAVAILABLE,
            RequestRefusal::NotKept | RequestRefusal::TooLong => SERVER_FAULT,
            _ => BAD_REQUEST,
        }
    }

    /// By which methods the resource is asked, if the method was wrong.
    pub fn methods(&self) -> Option<Methods>
        ensures { result ≡ allowed_by self.now }
    {
        match self {
            RequestRefusal::BadMethod(methods) => Some(*methods),
            _ => None,
        }
    }
}

impl fmt::Display for RequestRefusal {
    ghost use Rattle.std.specs.Prelude.{Some};
    ghost use Rattle.njh_request.specs.Refusals.{sentence_of};

    ghost output = { λ refusal. Some (sentence_of refusal) };

    fn fmt<W: fmt::Write>(&self, f: &mut fmt::Formatter<W>) -> fmt::Result {
        match self {
            RequestRefusal::NoResource(path) => write!(f, "there is nothing at {path}"),
            RequestRefusal::NoCustomer(name) => write!(f, "no customer is called {name}"),
            RequestRefusal::NoLine(name) => write!(f, "no line is called {name}"),
            RequestRefusal::BadMethod(methods) => write!(f, "this is asked by {methods}"),
            RequestRefusal::BadPlace => f.write_str(
                "the place to go on from is written from=NUMBER",
            ),
            RequestRefusal::NoPlace => f.write_str("behind this path nothing is to stand"),
            RequestRefusal::NotJson => f.write_str("the body isn't an object of JSON"),
            RequestRefusal::UnknownMember(key) => {
                write!(f, "the body is to have no member {key}")
            }
            RequestRefusal::RepeatedMember(member) => {
                write!(f, "{member} stands in the body twice")
            }
            RequestRefusal::MissingMember(member) => write!(f, "{member} is missing"),
            RequestRefusal::BadMember(member) => {
                let rule = rule_of(*member);
                write!(f, "{member} is {rule}")
            }
            RequestRefusal::NotACommand => f.write_str(
                "command is HOLD, RELEASE or CANCEL and a file, REROUTE, a file and a node, or LIST",
            ),
            RequestRefusal::NoOwner => f.write_str(
                "owner is missing: LIST is for the files of an owner",
            ),
            RequestRefusal::NoFile(name) => {
                let (node, number) = (name.node, name.number);
                write!(f, "the customer has no file {node}.{number}")
            }
            RequestRefusal::NoOrder(key) => write!(f, "no order {key} is remembered"),
            RequestRefusal::NameTaken(name) => {
                write!(f, "another order is remembered as {name}")
            }
            RequestRefusal::TooLate => f.write_str(
                "the order isn't carried out: it was too late for that",
            ),
            RequestRefusal::GiverGone => f.write_str(
                "the order isn't carried out: who gave it had gone",
            ),
            RequestRefusal::NoWay => f.write_str("no line leads to this node"),
            RequestRefusal::QueueFull => f.write_str("64 messages wait on the line to this node"),
            RequestRefusal::SeveralOwners => f.write_str(
                "owner is missing: files of this name have several",
            ),
            RequestRefusal::Busy => f.write_str("a request is answered at a time: ask again"),
            RequestRefusal::NotKept => f.write_str(
                "the order was carried out, but there was no memory for its replies",
            ),
            RequestRefusal::TooLong => f.write_str("the answer has more than 65536 bytes"),
        }
    }
}

/// What a member has to be.
fn rule_of(member: Member) -> &'static str
    ensures { result.now ≡ rule_of member }
{
    match member {
        Member::Command | Member::Text => "1 to 148 characters that each have a byte in EBCDIC",
        Member::Owner | Member::To => "written {\"node\": NODE, \"user\": USER}",
        Member::State => "started or stopped",
        Member::WhenIdle => "true or false",
        Member::Node => "the name of a node",
        Member::Name => "a letter, and at most 31 letters, digits, -, . and _",
        Member::Until => "a second since the beginning of 1970",
        Member::By => "a text of 1 to 48 bytes",
        Member::File => "the name of a file from / on, of at most 1024 bytes",
        Member::User =>
            "at most 8 characters that each have a byte in EBCDIC, or X'..' with bytes in hex",
    }
}

const BAD_REQUEST: u16 = 400;

const NOT_FOUND: u16 = 404;

const BAD_METHOD: u16 = 405;

const CONFLICT: u16 = 409;

const GONE: u16 = 410;

const SERVER_FAULT: u16 = 500;

const UNAVAILABLE: u16 = 503;
