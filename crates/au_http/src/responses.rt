//! Responses (RFC 9112, section 4).
ghost use Rattle.std.specs.Prelude.{◌≡◌, ◌==◌, ◌++◌, false, IfOk, OnOk, string_bytes};
ghost use Rattle.au_http.specs.Replies.{said_text};
ghost use Rattle.au_http.specs.Responses.{IsRefusal, connection_line, content_lines, head_text, logon_status, phrase_of, refusal_text, response_text, status_line, status_of};

use crate::replies::said_json;
use au_base::{Ask, Code, Memory, Said};
use http::StatusCode;
use std::alloc::{AllocError, Global};
use std::fmt::Write;

// The most bytes of a response before its body.
const HEAD_BYTES: usize = 160;

/// The bytes of the response to an ask, with a field that says so where the connection closes.
pub fn response(alloc: Global, ask: &Ask, said: &Said, close: bool) -> Result<Vec<u8>, Memory>
    ensures { IfOk result (λ bytes. bytes.items ≡ response_text (status_of ask.now said.now) close (said_text said.now)) }
{
    let body = said_json(alloc, said)?;
    written(alloc, status_of(ask, said), close, body.as_str())
}

fn status_of(ask: &Ask, said: &Said) -> StatusCode
    ensures { result ≡ status_of ask.now said.now }
{
    match (ask, said) {
        (Ask::Logon { .. }, Said::Replied(reply)) => logon_status(reply.code),
        (_, Said::Replied(_)) => StatusCode::OK,
        (_, Said::Disk) => StatusCode::INTERNAL_SERVER_ERROR,
        (_, Said::Full { .. }) => StatusCode::INSUFFICIENT_STORAGE,
        (_, Said::Memory) => StatusCode::SERVICE_UNAVAILABLE,
    }
}

// A logon that is refused has a status of its own.
fn logon_status(code: Code) -> StatusCode
    ensures { result ≡ logon_status code.0 }
{
    if code == Code::BAD_LOGON || code == Code::NO_CREATE_SESSION {
        StatusCode::FORBIDDEN
    } else {
        StatusCode::OK
    }
}

fn written(alloc: Global, status: StatusCode, close: bool, body: &str) -> Result<Vec<u8>, Memory>
    requires { (status == 405) ≡ false }
    ensures { IfOk result (λ bytes. bytes.items ≡ response_text status close body.now) }
{
    let mut text = String::with_capacity(alloc, HEAD_BYTES.saturating_add(body.len()))?;
    write_head(&mut text, status, close, body.len())?;
    text.push_str(body)?;
    Ok(text.into_bytes())
}

fn write_head(
    text: &mut String,
    status: StatusCode,
    close: bool,
    count: usize,
) -> Result<(), AllocError>
    requires { (status == 405) ≡ false }
    ensures { OnOk result (string_bytes text.new ≡ string_bytes text.old ++ head_text status close count) }
{
    write_status(text, status)?;
    write_content(text, count)?;
    text.push_str(connection_line(close))?;
    text.push_str("\r\n")
}

fn write_status(text: &mut String, status: StatusCode) -> Result<(), AllocError>
    ensures { OnOk result (string_bytes text.new ≡ string_bytes text.old ++ status_line status) }
{
    write!(
        text,
        "HTTP/1.1 {} {}\r\n",
        status.as_u16(),
        phrase_of(status)
    )
}

fn write_content(text: &mut String, count: usize) -> Result<(), AllocError>
    ensures { OnOk result (string_bytes text.new ≡ string_bytes text.old ++ content_lines count) }
{
    write!(
        text,
        "Content-Type: application/json\r\nContent-Length: {count}\r\n"
    )
}

fn phrase_of(status: StatusCode) -> &'static str
    ensures { result.now ≡ phrase_of status }
{
    status.canonical_reason().unwrap_or("")
}

fn connection_line(close: bool) -> &'static str
    ensures { result.now ≡ connection_line close }
{
    if close { "Connection: close\r\n" } else { "" }
}

/// The response to a request that is refused, after which the connection closes.
pub fn bad_response(status: u16) -> &'static [u8]
    requires { IsRefusal status }
    ensures { result.now ≡ refusal_text status }
{
    match status {
        400 => BAD_REQUEST,
        404 => NOT_FOUND,
        405 => METHOD_NOT_ALLOWED,
        413 => PAYLOAD_TOO_LARGE,
        _ => unreachable!(),
    }
}

const BAD_REQUEST: &[u8] =
    b"HTTP/1.1 400 Bad Request\r\nContent-Type: application/json\r\nContent-Length: 13\r\nConnection: close\r\n\r\n{\"error\":400}";

const NOT_FOUND: &[u8] =
    b"HTTP/1.1 404 Not Found\r\nContent-Type: application/json\r\nContent-Length: 13\r\nConnection: close\r\n\r\n{\"error\":404}";

const METHOD_NOT_ALLOWED: &[u8] =
    b"HTTP/1.1 405 Method Not Allowed\r\nAllow: POST\r\nContent-Type: application/json\r\nContent-Length: 13\r\nConnection: close\r\n\r\n{\"error\":405}";

const PAYLOAD_TOO_LARGE: &[u8] =
    b"HTTP/1.1 413 Payload Too Large\r\nContent-Type: application/json\r\nContent-Length: 13\r\nConnection: close\r\n\r\n{\"error\":413}";
