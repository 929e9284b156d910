//! Requests and answers of HTTP over a connection.

ghost use Rattle.std.specs.Prelude.{◌≡◌, ◌≢◌, ◌++◌, ◌⊎◌, Err, IfErr, IfOk, Ok, OnOk, string_bytes};
ghost use Rattle.std.specs.Io.KnownBytes.{Appends};
ghost use Rattle.std.specs.declared.io.ErrorKind.TheVariants.{Interrupted, TimedOut, WouldBlock};
ghost use Rattle.njh_ctl.specs.Exchanges.{Hears, IsFresh, Receives, Sends, bytes_of, client_after, no_reply};
ghost use Rattle.njh_ctl.specs.Exchanges.{TakesNext, after_rest, reply_view, request_view, rest_text, size_of};
ghost use Rattle.njh_ctl.specs.Exchanges.{target_of};
ghost use Rattle.njh_ctl.specs.Faults.{IsPlain};

use crate::fault::CtlFault;
use crate::request_text::RequestText;
use bytes::BytesMut;
use http1::{BodySize, Client, Event, Header, Limits, WriteError};
use httparse::spans::EMPTY_HEADER_SPAN;
use std::alloc::{AllocError, Global};
use std::io::{ErrorKind, Read, Write};
use std::marker::Model;

/// How many bytes of a body are taken at most; an answer of a console has 64 KB.
const MAX_BODY: usize = 1_048_576;

/// How many bytes are read at once.
const PIECE: usize = 4096;

/// How many fields a head has at most.
const FIELDS: usize = 64;

/// A connection to a console.
#[derive(Drop)]
pub(crate) struct Session<S: Read + Write + Drop> {
    stream: S,
    client: Client,
    /// What was read and isn't taken yet.
    unread: BytesMut,
}

impl<S: Read + Write + Drop> Model for Session<S> {
    ghost use Rattle.njh_ctl.specs.Exchanges.{Link};

    ghost Value = { Link };

    ghost view = { λ session. record {
      written = S.contents session.stream;
      remaining = S.remaining session.stream;
      client = session.client;
      unread = session.unread.items;
    } };
}

/// An answer: its status and its body.
#[derive(Drop)]
pub(crate) struct ReplyText {
    pub(crate) status: u16,
    pub(crate) body: Vec<u8>,
}

/// What comes next.
enum Next {
    /// More of the answer may be there.
    Look,
    /// More has to be read.
    Read,
    /// The answer is whole.
    Whole,
}

impl<S: Read + Write + Drop> Session<S> {
    /// Over a stream to a console.
    pub(crate) fn new(alloc: Global, stream: S) -> Session<S>
        ensures { IsFresh result }
    {
        Session {
            stream,
            client: Client::new(Limits::default()),
            unread: BytesMut::new(alloc),
        }
    }

    /// Sends a request.
    pub(crate) fn send(&mut self, alloc: Global, request: &RequestText) -> Result<(), CtlFault>
        ensures sent { OnOk result (Sends self.old self.new (request_view request.now)) }
        ensures fault { IfErr result IsPlain }
    {
        let mut output = Vec::new(alloc);
        put(alloc, &mut self.client, &mut output, request)?;
        write(&mut self.stream, output.as_slice())
    }

    /// The answer to the request that was sent.
    pub(crate) fn answer(&mut self, alloc: Global) -> Result<ReplyText, CtlFault>
        ensures heard { IfOk result (λ reply. Hears self.old self.new (reply_view reply)) }
        ensures fault { IfErr result IsPlain }
    {
        let mut reply = ReplyText {
            status: 0,
            body: Vec::new(alloc),
        };
        self.fill(&mut reply)?;
        Ok(reply)
    }

    /// Reads until the answer is whole.
    fn fill(&mut self, reply: &mut ReplyText) -> Result<(), CtlFault>
        requires { reply_view reply.old ≡ no_reply }
        ensures heard { OnOk result (Hears self.old self.new (reply_view reply.new)) }
        ensures fault { IfErr result IsPlain }
    {
        for _ in 0..u64::MAX {
            match self.take(reply)? {
                Next::Look => {}
                Next::Read => self.read()?,
                Next::Whole => return Ok(()),
            }
        }
        Err(CtlFault::NotUnderstood)
    }

    /// Takes what was read, up to the next event.
    fn take(&mut self, reply: &mut ReplyText) -> Result<Next, CtlFault>
        ensures taken { IfOk result (TakesNext self.old self.new (reply_view reply.old) (reply_view reply.new)) }
        ensures fault { IfErr result IsPlain }
    {
        let mut fields = [EMPTY_HEADER_SPAN; FIELDS];
        let Ok(progress) = self.client.read(self.unread.as_slice(), &mut fields) else {
            return Err(CtlFault::NotUnderstood);
        };
        let next = match progress.event {
            Event::NeedMore => Next::Read,
            Event::Informational(_) => Next::Look,
            Event::Head(head) => {
                reply.status = head.code;
                Next::Look
            }
            Event::Data(span) => {
                add(&mut reply.body, span.of(self.unread.as_slice()))?;
                Next::Look
            }
            Event::End(_) => Next::Whole,
            Event::Paused | Event::Upgraded | Event::Closed => {
                return Err(CtlFault::NotUnderstood);
            }
        };
        self.unread.advance(progress.consumed);
        Ok(next)
    }

    /// Reads once more from the stream.
    fn read(&mut self) -> Result<(), CtlFault>
        ensures received { OnOk result (Receives self.old self.new) }
        ensures fault { IfErr result IsPlain }
    {
        let mut piece = [0; PIECE];
        match self.stream.read(&mut piece) {
            Ok(0) => Err(CtlFault::Broken),
            Ok(count) => {
                self.unread.extend_from_slice(&piece[..count])?;
                Ok(())
            }
            Err(error) => on_error(error.kind()),
        }
    }
}

/// Puts a request behind the output.
fn put(
    alloc: Global,
    client: &mut Client,
    output: &mut Vec<u8>,
    request: &RequestText,
) -> Result<(), CtlFault>
    ensures bytes { OnOk result (output.new.items ≡ output.old.items
        ++ bytes_of client.old (request_view request.now)) }
    ensures client { OnOk result (client.new ≡ client_after client.old (request_view request.now)) }
    ensures fault { IfErr result IsPlain }
{
    let target = target_of(alloc, request)?;
    let host = [Header {
        name: b"host",
        value: b"njehub",
    }];
    let body = request.body.as_slice();
    let method = request.method.as_bytes();
    written(client.write_request(output, method, target.as_bytes(), &host, size_of(body)))?;
    put_body(client, output, body)
}

/// Puts the rest of a request behind the output.
fn put_body(client: &mut Client, output: &mut Vec<u8>, body: &[u8]) -> Result<(), CtlFault>
    ensures bytes { OnOk result (output.new.items ≡ output.old.items ++ rest_text client.old body.now) }
    ensures client { OnOk result (client.new ≡ after_rest client.old body.now) }
    ensures fault { IfErr result IsPlain }
{
    if !body.is_empty() {
        written(client.write_data(output, body))?;
    }
    written(client.write_end(output, &[]))
}

/// What is asked for, with what stands behind a question mark.
fn target_of(alloc: Global, request: &RequestText) -> Result<String, AllocError>
    ensures { IfOk result (λ target. string_bytes target ≡ target_of (request_view request.now)) }
{
    let path = request.path.as_str();
    match &request.query {
        Some(query) => {
            let query = query.as_str();
            format!(in alloc; "{path}?{query}")
        }
        None => String::from_str(alloc, path),
    }
}

/// Writes bytes to their end.
fn write<W: Write>(out: &mut W, bytes: &[u8]) -> Result<(), CtlFault>
    ensures written { OnOk result (Appends (W.contents out.old) (W.contents out.new) bytes.now) }
    ensures fault { IfErr result IsPlain }
{
    let mut rest = bytes;
    for _ in 0..u64::MAX {
        if rest.is_empty() {
            return Ok(());
        }
        match out.write(rest) {
            Ok(0) => return Err(CtlFault::Broken),
            Ok(count) => {
                let (_, after) = rest.split_at(count);
                rest = after;
            }
            Err(error) => on_error(error.kind())?,
        }
    }
    Err(CtlFault::Broken)
}

/// Adds a piece to a body.
fn add(body: &mut Vec<u8>, piece: &[u8]) -> Result<(), CtlFault>
    ensures added { OnOk result (body.new.items ≡ body.old.items ++ piece.now) }
    ensures fault { IfErr result IsPlain }
{
    if piece.len() > MAX_BODY || body.len() > MAX_BODY - piece.len() {
        return Err(CtlFault::NotUnderstood);
    }
    body.extend_from_slice(piece)?;
    Ok(())
}

/// How long a body is.
fn size_of(body: &[u8]) -> BodySize
    ensures { result ≡ size_of body.now }
{
    if body.is_empty() {
        BodySize::Empty
    } else {
        BodySize::Known(body.len() as u64)
    }
}

/// What an error of the connection is; nothing if it is only an interruption.
fn on_error(kind: ErrorKind) -> Result<(), CtlFault>
    ensures again { OnOk result (kind ≡ Interrupted) }
    ensures silent { result ≡ Err CtlFault.Silent → (kind ≡ WouldBlock) ⊎ (kind ≡ TimedOut) }
    ensures broken { result ≡ Err CtlFault.Broken → (kind ≢ WouldBlock) × (kind ≢ TimedOut) }
    ensures fault { IfErr result (λ fault. (fault ≡ CtlFault.Silent) ⊎ (fault ≡ CtlFault.Broken)) }
{
    match kind {
        ErrorKind::Interrupted => Ok(()),
        ErrorKind::WouldBlock => Err(CtlFault::Silent),
        ErrorKind::TimedOut => Err(CtlFault::Silent),
        _ => Err(CtlFault::Broken),
    }
}

/// Whether a part of a request was put behind the output. No request goes out behind an answer by
/// which the console ends the connection. Out of memory is the only other refusal of what has its
/// escapes.
fn written(put: Result<(), WriteError>) -> Result<(), CtlFault>
    ensures ok { OnOk result (put ≡ Ok tt) }
    ensures fault { IfErr result IsPlain }
{
    match put {
        Ok(()) => Ok(()),
        Err(WriteError::OutOfMemory) => Err(CtlFault::Memory),
        Err(WriteError::State) => Err(CtlFault::Broken),
        Err(_) => Err(CtlFault::BadName),
    }
}
