//! What the bytes of a connection ask for.
ghost use Rattle.std.specs.Prelude.{◌≡◌, ◌≤◌, IfOk, length};
ghost use Rattle.au_http.specs.HeadEnds.{head_limit};
ghost use Rattle.au_http.specs.Requests.{FitsBytes, Needs, NeedsBehind, unended_need, verdict_need, whole_need};

use crate::bodies::ask_of;
use crate::head_end::head_length;
use crate::heads::read_head;
use crate::refusals::{Verdict, decide};
use au_base::limits::HEAD_BYTES;
use au_base::{Ask, Memory};
use http::StatusCode;
use std::alloc::Global;

/// What is to be done with the bytes that follow the last request of a connection.
#[derive(Debug, Drop, PartialEq, Eq)]
pub enum Need {
    /// No refusal is decided yet, and the request isn't whole.
    More,
    /// The request takes up the first `used` bytes. After its answer the connection may close.
    Got { used: usize, ask: Ask, close: bool },
    /// The request is refused with this status: 400, 404, 405 or 413.
    Bad(u16),
}

/// What the bytes need. It depends on them alone, and once it isn't `More` no byte that follows
/// changes it. Until a body is whole it isn't looked at, so that a slow sender costs a scan of the
/// head for each piece, and no more.
pub fn next_request(alloc: Global, bytes: &[u8]) -> Result<Need, Memory>
    ensures needs { IfOk result (Needs bytes.now) }
    ensures fits { IfOk result (FitsBytes (length bytes.now)) }
{
    need_of(alloc, bytes)
}

fn need_of(alloc: Global, bytes: &[u8]) -> Result<Need, Memory>
    ensures { IfOk result (Needs bytes.now) }
{
    match head_length(bytes) {
        Some(size) => {
            let (head, rest) = bytes.split_at(size);
            need_behind(alloc, head, rest)
        }
        None => Ok(unended_need(bytes.len())),
    }
}

fn unended_need(count: usize) -> Need
    ensures { result ≡ unended_need count }
{
    if count < HEAD_BYTES {
        Need::More
    } else {
        Need::Bad(StatusCode::PAYLOAD_TOO_LARGE.as_u16())
    }
}

fn need_behind(alloc: Global, head: &[u8], rest: &[u8]) -> Result<Need, Memory>
    requires { length head.now ≤ head_limit }
    ensures { IfOk result (NeedsBehind head.now rest.now) }
{
    match read_head(head) {
        Some(spans) => {
            let verdict = decide(alloc, head, &spans)?;
            verdict_need(alloc, verdict, head.len(), rest)
        }
        None => Ok(Need::Bad(StatusCode::BAD_REQUEST.as_u16())),
    }
}

fn verdict_need(alloc: Global, verdict: Verdict, size: usize, rest: &[u8]) -> Result<Need, Memory>
    requires { size ≤ head_limit }
    ensures { IfOk result (λ need. need ≡ verdict_need verdict size rest.now) }
{
    match verdict {
        Verdict::Refused(status) => Ok(Need::Bad(status)),
        Verdict::Taken { count, .. } if rest.len() < count => Ok(Need::More),
        Verdict::Taken {
            route,
            count,
            close,
        } => {
            let ask = ask_of(alloc, route, &rest[..count])?;
            Ok(whole_need(ask, size + count, close))
        }
    }
}

fn whole_need(ask: Option<Ask>, used: usize, close: bool) -> Need
    ensures { result ≡ whole_need ask used close }
{
    match ask {
        Some(ask) => Need::Got { used, ask, close },
        None => Need::Bad(StatusCode::BAD_REQUEST.as_u16()),
    }
}
