//! What the head of a request says.
ghost use Rattle.std.specs.Prelude.{◌≡◌, IfOk, MatchOption, length, map};
ghost use Rattle.std.specs.Str.{str_eq_ignore_ascii_case};
ghost use Rattle.au_http.specs.Heads.{AreSpans, IsNoHead, SpansHead, spanned};
ghost use Rattle.au_http.specs.Refusals.{values_of};

use au_base::Memory;
use au_base::limits::HEAD_FIELDS;
use httparse::Status;
use httparse::spans::{EMPTY_HEADER_SPAN, HeaderSpan, Span, parse_request};
use std::alloc::Global;

/// The parts of a head, as places in its bytes.
#[derive(Debug, Drop)]
pub(crate) struct HeadSpans {
    pub(crate) method: Span,
    pub(crate) target: Span,
    /// The minor number of the version, 0 or 1.
    pub(crate) minor: u8,
    pub(crate) fields: [HeaderSpan; HEAD_FIELDS],
    /// How many fields there are.
    pub(crate) count: usize,
}

/// What a head says. `None` where it has no reading, or too many fields.
pub(crate) fn read_head(head: &[u8]) -> Option<HeadSpans>
    ensures { MatchOption result (IsNoHead head.now) (SpansHead head.now) }
{
    let mut fields = [EMPTY_HEADER_SPAN; HEAD_FIELDS];
    match parse_request(head, &mut fields) {
        Ok(Status::Complete(found)) if found.len == head.len() => Some(HeadSpans {
            method: found.method,
            target: found.path,
            minor: found.version,
            fields,
            count: found.headers,
        }),
        _ => None,
    }
}

/// The values of the fields of that name, in any case.
pub(crate) fn values<'b>(
    alloc: Global,
    head: &'b [u8],
    spans: &HeadSpans,
    name: &[u8],
) -> Result<Vec<&'b [u8]>, Memory>
    requires { AreSpans head.now spans.now }
    ensures { IfOk result (λ found. map (λ s. s.now) found.items ≡ values_of name.now (spanned head.entry.now spans.now).fields) }
{
    let mut found = Vec::new(alloc);
    for field in &spans.fields[..spans.count] {
        if is_named(field.name.of(head), name) {
            found.push(field.value.of(head))?;
        }
    }
    Ok(found)
}

/// How many fields of that name there are, in any case.
pub(crate) fn count(
    alloc: Global,
    head: &[u8],
    spans: &HeadSpans,
    name: &[u8],
) -> Result<usize, Memory>
    requires { AreSpans head.now spans.now }
    ensures { IfOk result (λ n. n ≡ length (values_of name.now (spanned head.now spans.now).fields)) }
{
    Ok(values(alloc, head, spans, name)?.as_slice().len())
}

/// Whether two names are the same in any case.
pub(crate) fn is_named(a: &[u8], b: &[u8]) -> bool
    ensures { result ≡ str_eq_ignore_ascii_case a.now b.now }
{
    a.eq_ignore_ascii_case(b)
}
