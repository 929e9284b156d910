//! The statement that is right of a colon.

ghost use Rattle.std.specs.Prelude.{◌≡◌, ◌≤◌, length};
ghost use Rattle.njh_encode.specs.Words.{behind, name_in, named};
ghost use Rattle.njh_encode.specs.Statements.{alone, command_ends, command_from, command_to, control_in};
ghost use Rattle.njh_encode.specs.Statements.{frame_statement, message_ends, message_to, nodal_statement};
ghost use Rattle.njh_encode.specs.Statements.{other_statement, password_in, request, sign_on_in, sign_on_statement};
ghost use Rattle.njh_encode.specs.Statements.{sign_statement, signal_statement, statement_in, with_block, with_size};

use crate::characters::bytes_of_text;
use crate::fault::Reason;
use crate::statement::{Ends, Message, Statement};
use crate::words::{name_of, next_word, number_of, parted, stream_of};
use arrayvec::ArrayVec;
use njh_bisync::Control;
use njh_block::ControlRcb;
use njh_ebcdic::{BLANK, FIELD, Name};
use njh_header::SignOn;
use njh_nmr::LONGEST_MESSAGE;

/// The SRCBs of the sign-ons: the initial one, and the response.
const INITIAL: u8 = 0xc9;

const RESPONSE: u8 = 0xd1;

/// The flags of a nodal message: its user field holds its receiver; it is a command, of the user
/// there.
const MESSAGE: u8 = 0x20;

const COMMAND: u8 = 0xa0;

/// The statement that a text is.
#[tactic(auto, unfolding(crate::specs::Statements::statement_in))]
pub(crate) fn statement_of(text: &str) -> Result<Statement, Reason>
    ensures { result ≡ statement_in text.now }
{
    let (verb, rest) = next_word(text);
    if rest.is_empty() {
        return alone(verb);
    }
    match control_of(verb) {
        Some(rcb) => request(rcb, rest),
        None => other_statement(verb, rest),
    }
}

/// That of one word.
#[tactic(auto, unfolding(crate::specs::Statements::alone))]
fn alone(verb: &str) -> Result<Statement, Reason>
    ensures { result ≡ alone verb.now }
{
    match frame_statement(verb) {
        Some(statement) => Ok(statement),
        None => signal_statement(verb).ok_or(Reason::NoSuchWords),
    }
}

/// A frame that is no text.
#[tactic(auto, unfolding(crate::specs::Statements::frame_statement))]
fn frame_statement(verb: &str) -> Option<Statement>
    ensures { result ≡ frame_statement verb.now }
{
    match verb {
        "contact" => Some(Statement::Control(Control::Enquiry)),
        "ENQ" => Some(Statement::Control(Control::Enquiry)),
        "ack" => Some(Statement::Control(Control::Ack0)),
        "ACK0" => Some(Statement::Control(Control::Ack0)),
        "nak" => Some(Statement::Control(Control::Nak)),
        "NAK" => Some(Statement::Control(Control::Nak)),
        "end" => Some(Statement::End),
        "EOT" => Some(Statement::End),
        _ => None,
    }
}

/// A signal, or a sign-off.
#[tactic(auto, unfolding(crate::specs::Statements::signal_statement))]
fn signal_statement(verb: &str) -> Option<Statement>
    ensures { result ≡ signal_statement verb.now }
{
    match verb {
        "tick" => Some(Statement::Tick),
        "garbled" => Some(Statement::Garbled),
        "lost" => Some(Statement::Lost),
        "sign-off" => Some(Statement::SignOff),
        _ => None,
    }
}

/// What a request or an answer to one begins with.
#[tactic(auto, unfolding(crate::specs::Statements::control_in))]
fn control_of(verb: &str) -> Option<ControlRcb>
    ensures { result ≡ control_in verb.now }
{
    match verb {
        "request" => Some(ControlRcb::Request),
        "permit" => Some(ControlRcb::Permission),
        "permission" => Some(ControlRcb::Permission),
        "refuse" => Some(ControlRcb::Refusal),
        "refusal" => Some(ControlRcb::Refusal),
        "complete" => Some(ControlRcb::Completion),
        _ => None,
    }
}

/// A request or an answer to one.
#[tactic(auto, unfolding(crate::specs::Statements::request))]
fn request(rcb: ControlRcb, text: &str) -> Result<Statement, Reason>
    ensures { result ≡ request rcb text.now }
{
    match stream_of(text) {
        Some(stream) => Ok(Statement::Request(rcb, stream)),
        None => Err(Reason::NoStream),
    }
}

/// A statement of more than one word that begins with none of these.
#[tactic(auto, unfolding(crate::specs::Statements::other_statement))]
fn other_statement(verb: &str, text: &str) -> Result<Statement, Reason>
    ensures { result ≡ other_statement verb.now text.now }
{
    let (ends, message) = parted(text, ':');
    match verb {
        "sign" => sign_statement(text),
        "answer" => sign_on_statement(RESPONSE, text),
        "message" => nodal_statement(MESSAGE, Reason::NoMessage, message_ends(ends), message),
        "command" => nodal_statement(COMMAND, Reason::NoCommand, command_ends(ends), message),
        _ => Err(Reason::NoSuchWords),
    }
}

/// A sign-off, or the initial sign-on.
#[tactic(auto, unfolding(crate::specs::Statements::sign_statement))]
fn sign_statement(text: &str) -> Result<Statement, Reason>
    ensures { result ≡ sign_statement text.now }
{
    if text == "off" {
        return Ok(Statement::SignOff);
    }
    let (word, rest) = next_word(text);
    if word == "on" {
        sign_on_statement(INITIAL, rest)
    } else {
        Err(Reason::NoSuchWords)
    }
}

/// A sign-on with this SRCB.
#[tactic(auto, unfolding(crate::specs::Statements::sign_on_statement))]
fn sign_on_statement(srcb: u8, text: &str) -> Result<Statement, Reason>
    ensures { result ≡ sign_on_statement srcb text.now }
{
    match sign_on_in(text) {
        Some(sign_on) => Ok(Statement::SignOn(srcb, sign_on)),
        None => Err(Reason::NoSignOn),
    }
}

/// The sign-on that a text is.
#[tactic(auto, unfolding(crate::specs::Statements::sign_on_in))]
fn sign_on_in(text: &str) -> Option<SignOn>
    ensures { result ≡ sign_on_in text.now }
{
    let node = named("as", text)?;
    with_block(node, behind_two(text))
}

/// The sign-on of a node, and of a block size that a text begins with.
#[tactic(auto, unfolding(crate::specs::Statements::with_block))]
fn with_block(node: Name, text: &str) -> Option<SignOn>
    ensures { result ≡ with_block node text.now }
{
    let (word, rest) = next_word(text);
    if word != "block" {
        return None;
    }
    with_size(node, rest)
}

#[tactic(auto, unfolding(crate::specs::Statements::with_size))]
fn with_size(node: Name, text: &str) -> Option<SignOn>
    ensures { result ≡ with_size node text.now }
{
    let (size, rest) = next_word(text);
    let block = number_of(size)?;
    let password = password_in(rest)?;
    Some(SignOn {
        node,
        block,
        password,
    })
}

/// The password that ends a sign-on, blanks if nothing does.
#[tactic(auto, unfolding(crate::specs::Statements::password_in))]
fn password_in(text: &str) -> Option<[u8; FIELD]>
    ensures { result ≡ password_in text.now }
{
    if text.is_empty() {
        return Some([BLANK; FIELD]);
    }
    let (word, rest) = next_word(text);
    if word != "password" {
        return None;
    }
    let name = name_of(rest)?;
    Some(name.bytes())
}

/// A nodal message with this flag between these ends, or that there are none.
#[tactic(auto, unfolding(crate::specs::Statements::nodal_statement))]
fn nodal_statement(
    flag: u8,
    absent: Reason,
    ends: Option<Ends>,
    text: &str,
) -> Result<Statement, Reason>
    ensures { result ≡ nodal_statement flag absent ends text.now }
{
    let Some(ends) = ends else {
        return Err(absent);
    };
    let (word, text) = next_word(text);
    if !word.is_empty() {
        return Err(absent);
    }
    match bytes_of_text(LONGEST_MESSAGE, text) {
        Ok(bytes) => Ok(Statement::Message(Message {
            flag,
            ends,
            text: message_of(&bytes),
        })),
        Err(reason) => Err(reason),
    }
}

/// A message in room of its own.
fn message_of(text: &[u8]) -> ArrayVec<u8, LONGEST_MESSAGE>
    requires { length text.now ≤ 148 }
    ensures { result.items ≡ text.now }
{
    let mut message = ArrayVec::new();
    message.try_extend_from_slice(text).unwrap();
    message
}

/// The ends of a message.
#[tactic(auto, unfolding(crate::specs::Statements::message_ends))]
fn message_ends(text: &str) -> Option<Ends>
    ensures { result ≡ message_ends text.now }
{
    let origin = named("from", text)?;
    message_to(origin, behind_two(text))
}

#[tactic(auto, unfolding(crate::specs::Statements::message_to))]
fn message_to(origin: Name, text: &str) -> Option<Ends>
    ensures { result ≡ message_to origin text.now }
{
    let to = named("to", text)?;
    let user = name_of(behind_two(text))?;
    Some(Ends { to, user, origin })
}

/// The ends of a command.
#[tactic(auto, unfolding(crate::specs::Statements::command_ends))]
fn command_ends(text: &str) -> Option<Ends>
    ensures { result ≡ command_ends text.now }
{
    let origin = named("from", text)?;
    command_from(origin, behind_two(text))
}

#[tactic(auto, unfolding(crate::specs::Statements::command_from))]
fn command_from(origin: Name, text: &str) -> Option<Ends>
    ensures { result ≡ command_from origin text.now }
{
    let (word, rest) = next_word(text);
    let user = name_of(word)?;
    command_to(origin, user, rest)
}

#[tactic(auto, unfolding(crate::specs::Statements::command_to))]
fn command_to(origin: Name, user: Name, text: &str) -> Option<Ends>
    ensures { result ≡ command_to origin user text.now }
{
    let (word, rest) = next_word(text);
    if word != "to" {
        return None;
    }
    let to = name_of(rest)?;
    Some(Ends { to, user, origin })
}

/// The name after a word of its own.
#[tactic(auto, unfolding(crate::specs::Words::named))]
pub(crate) fn named(label: &str, text: &str) -> Option<Name>
    ensures { result ≡ named label.now text.now }
{
    let (word, rest) = next_word(text);
    if word != label {
        return None;
    }
    let (name, _) = next_word(rest);
    name_of(name)
}

/// What comes after two words.
pub(crate) fn behind_two(text: &str) -> &str
    ensures { result.now ≡ behind (behind text.now) }
{
    let (_, rest) = next_word(text);
    let (_, rest) = next_word(rest);
    rest
}
