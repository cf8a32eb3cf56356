//! What the head of a request is refused for.
ghost use Rattle.std.specs.Prelude.{◌≡◌, IfOk, codes, map};
ghost use Rattle.std.specs.List.{list_any};
ghost use Rattle.std.specs.Str.{str_eq_ignore_ascii_case};
ghost use Rattle.au_http.specs.Heads.{AreSpans, spanned};
ghost use Rattle.au_http.specs.Refusals.{Decides, closes, has_host, is_post, length_of, number_of, stated_length};

use crate::heads::{HeadSpans, count, is_named, values};
use crate::routes::{Route, route_of};
use au_base::Memory;
use au_base::limits::BODY_BYTES;
use http::{Method, StatusCode};
use std::alloc::Global;

/// What comes of a head.
#[derive(Clone, Copy, Debug)]
pub(crate) enum Verdict {
    /// The request is refused with this status.
    Refused(u16),
    /// A body of so many bytes follows, and after the answer the connection may close.
    Taken {
        route: Route,
        count: usize,
        close: bool,
    },
}

/// What comes of a head: the first refusal that holds, in their order (docs/FORMATS.md).
pub(crate) fn decide(alloc: Global, head: &[u8], spans: &HeadSpans) -> Result<Verdict, Memory>
    requires { AreSpans head.now spans.now }
    ensures { IfOk result (Decides (spanned head.now spans.now)) }
{
    if !has_host(alloc, head, spans)? {
        return Ok(refused(StatusCode::BAD_REQUEST));
    }
    let route = match route_of(alloc, spans.target.of(head))? {
        Some(route) => route,
        None => return Ok(refused(StatusCode::NOT_FOUND)),
    };
    if !is_post(head, spans) {
        return Ok(refused(StatusCode::METHOD_NOT_ALLOWED));
    }
    let count = match stated_length(alloc, head, spans)? {
        Some(count) => count,
        None => return Ok(refused(StatusCode::BAD_REQUEST)),
    };
    if count > BODY_BYTES {
        return Ok(refused(StatusCode::PAYLOAD_TOO_LARGE));
    }
    let close = closes(alloc, head, spans)?;
    Ok(Verdict::Taken {
        route,
        count,
        close,
    })
}

fn refused(status: StatusCode) -> Verdict
    ensures { result ≡ Verdict.Refused status }
{
    Verdict::Refused(status.as_u16())
}

// Whether there is the one Host field that HTTP/1.1 asks for (RFC 9112, section 3.2).
fn has_host(alloc: Global, head: &[u8], spans: &HeadSpans) -> Result<bool, Memory>
    requires { AreSpans head.now spans.now }
    ensures { IfOk result (λ found. found ≡ has_host (spanned head.now spans.now)) }
{
    let hosts = count(alloc, head, spans, b"host")?;
    Ok(spans.minor == 0 || hosts == 1)
}

fn is_post(head: &[u8], spans: &HeadSpans) -> bool
    requires { AreSpans head.now spans.now }
    ensures { result ≡ is_post (spanned head.now spans.now) }
{
    spans.method.of(head) == Method::POST.as_str().as_bytes()
}

// How long the body is (RFC 9112, section 6.3). `None` where that isn't told by Content-Length alone.
fn stated_length(alloc: Global, head: &[u8], spans: &HeadSpans) -> Result<Option<usize>, Memory>
    requires { AreSpans head.now spans.now }
    ensures { IfOk result (λ length. length ≡ stated_length (spanned head.now spans.now)) }
{
    let encodings = count(alloc, head, spans, b"transfer-encoding")?;
    if encodings != 0 {
        return Ok(None);
    }
    let lengths = values(alloc, head, spans, b"content-length")?;
    Ok(length_of(lengths.as_slice()))
}

fn length_of(values: &[&[u8]]) -> Option<usize>
    ensures { result ≡ length_of (map (λ v. v.now) values.now) }
{
    match values {
        [] => Some(0),
        [value] => number_of(value),
        _ => None,
    }
}

// The number that 1 to 10 digits are.
#[tactic(auto, using(std::proofs::lemmas::Int::Digits::digits_value_more, std::proofs::lemmas::List::Folds::list_all_more))]
fn number_of(value: &[u8]) -> Option<usize>
    ensures { result ≡ number_of value.now }
{
    if value.is_empty() || value.len() > 10 {
        return None;
    }
    let mut number = 0usize;
    for digit in value {
        if !digit.is_ascii_digit() {
            return None;
        }
        number = number * 10 + usize::from(*digit - b'0');
    }
    Some(number)
}

// Whether the connection closes after the answer (RFC 9112, section 9.6).
fn closes(alloc: Global, head: &[u8], spans: &HeadSpans) -> Result<bool, Memory>
    requires { AreSpans head.now spans.now }
    ensures { IfOk result (λ close. close ≡ closes (spanned head.now spans.now)) }
{
    let connections = values(alloc, head, spans, b"connection")?;
    let close = has_close(connections.as_slice());
    Ok(spans.minor == 0 || close)
}

#[tactic(auto, using(crate::proofs::Tests::any_map))]
fn has_close(values: &[&[u8]]) -> bool
    ensures { result ≡ list_any (λ v. str_eq_ignore_ascii_case v (codes "close")) (map (λ v. v.now) values.now) }
{
    any_close(values)
}

fn any_close(values: &[&[u8]]) -> bool
    ensures { result ≡ list_any (λ v. str_eq_ignore_ascii_case v.now (codes "close")) values.now }
{
    values.iter().any(|value| is_named(value, b"close"))
}
