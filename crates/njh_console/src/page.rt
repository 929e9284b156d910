//! What is written of an answer.

ghost use Rattle.std.specs.Prelude.{◌≡◌, [], IfOk, OnOk};
ghost use Rattle.http.specs.StatusCode.{IsStatusCode};
ghost use Rattle.http_server.specs.Response.{IsBlank, IsResponse, fields_of};
ghost use Rattle.njh_request.specs.declared.refusal.RequestRefusal.TheVariants as refusal;
ghost use Rattle.njh_answer.specs.Answers.{refuses, told_of};
ghost use Rattle.njh_console.specs.Rounds.{allowed, fields_told};
ghost use Rattle.njh_console.specs.code.Pages.{IsPageFor, IsPageOf};

use bytes::BufMut;
use http::StatusCode;
use http::header::{ALLOW, CONTENT_TYPE, HeaderValue};
use http_server::Response;
use njh_answer::{Deed, RequestAnswer, refuses};
use njh_request::{Methods, RequestRefusal};
use std::alloc::{AllocError, Global};

/// An answer has at most so many bytes.
const LONGEST: usize = 65_536;

/// An answer as it is written, and what is ordered by it.
#[derive(Drop)]
pub(crate) struct Page {
    pub(crate) status: u16,
    /// JSON.
    pub(crate) text: String,
    pub(crate) deed: Deed,
}

/// An answer as it is written; one that would be too long is refused. Out of memory is the only
/// failure.
pub(crate) fn page_of(alloc: Global, since: u64, answer: RequestAnswer) -> Result<Page, AllocError>
    ensures { IfOk result (λ page. IsPageFor since (told_of answer) page) }
{
    let RequestAnswer {
        status,
        value,
        deed,
    } = answer;
    let text = value.to_string(alloc)?;
    if text.len() > LONGEST {
        return too_long(alloc, since);
    }
    Ok(Page { status, text, deed })
}

/// That an answer would be too long.
fn too_long(alloc: Global, since: u64) -> Result<Page, AllocError>
    ensures { IfOk result (λ page. IsPageOf (refuses since refusal.TooLong) page) }
{
    let RequestAnswer {
        status,
        value,
        deed,
    } = refuses(alloc, since, RequestRefusal::TooLong)?;
    let text = value.to_string(alloc)?;
    Ok(Page { status, text, deed })
}

/// By which methods a resource is asked, if a request was refused for its method.
pub(crate) fn allowed(deed: &Deed) -> Option<Methods>
    ensures { result ≡ allowed deed.now }
{
    match deed {
        Deed::Refused(why) => why.methods(),
        _ => None,
    }
}

/// Writes a status and JSON, and by which methods a resource is asked, if that is to be told.
pub(crate) fn write_text(
    status: u16,
    methods: Option<Methods>,
    text: &str,
    response: &mut Response,
) -> Result<(), AllocError>
    requires blank { IsBlank response.old }
    requires known { IsStatusCode status }
    ensures { OnOk result (IsResponse status (fields_told methods) text.now response.new) }
{
    add_fields(methods, response)?;
    response.body.put_slice(text.as_bytes())?;
    response.status = StatusCode::from_u16(status).unwrap_or(StatusCode::INTERNAL_SERVER_ERROR);
    Ok(())
}

/// Adds the fields of an answer's head.
fn add_fields(methods: Option<Methods>, response: &mut Response) -> Result<(), AllocError>
    requires { fields_of response.old ≡ [] }
    ensures fields { OnOk result (fields_of response.new ≡ fields_told methods) }
    ensures status { response.new.status ≡ response.old.status }
    ensures body { response.new.body ≡ response.old.body }
{
    response.add_header(CONTENT_TYPE, HeaderValue::from_static("application/json"))?;
    match methods {
        Some(methods) => response.add_header(ALLOW, HeaderValue::from_static(methods.allow())),
        None => Ok(()),
    }
}
