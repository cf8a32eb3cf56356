//! Where the head of a request ends.
ghost use Rattle.std.specs.Prelude.{◌≡◌, ◌≤◌, IfSome, length, take, drop, MatchOption};
ghost use Rattle.au_http.specs.HeadEnds.{HasHead, HasNoHead, head_limit};
ghost use Rattle.au_http.specs.HeadWalk.{after, end_from};

use au_base::limits::HEAD_BYTES;

/// Where a walk over the lines of a head stands.
#[derive(Clone, Copy, Debug)]
enum Place {
    /// At the start of a line, with no line before that isn't empty.
    Start,
    /// The same behind a CR.
    StartReturn,
    /// In a line that isn't empty.
    Line,
    /// At the start of a line, behind a line that isn't empty.
    Fresh,
    /// The same behind a CR.
    FreshReturn,
}

/// How many of these bytes are the head, if it ends within the limit.
pub(crate) fn head_length(bytes: &[u8]) -> Option<usize>
    ensures found { MatchOption result (HasNoHead bytes.now) (λ n. HasHead bytes.now (take n bytes.now) (drop n bytes.now)) }
    ensures within { IfSome result (λ n. n ≤ length bytes.now) }
{
    walk(&bytes[..bytes.len().min(HEAD_BYTES)])
}

fn walk(bytes: &[u8]) -> Option<usize>
    ensures value { result ≡ end_from Place.Start bytes.now }
    ensures within { IfSome result (λ n. n ≤ length bytes.now) }
{
    let mut place = Place::Start;
    for i in 0..bytes.len() {
        place = match after(place, bytes[i]) {
            Some(next) => next,
            None => return Some(i + 1),
        };
    }
    None
}

// The place behind one more byte. `None` where the byte ends the head.
fn after(place: Place, byte: u8) -> Option<Place>
    ensures { result ≡ after place byte }
{
    match (place, byte) {
        (Place::Start | Place::StartReturn, b'\n') => Some(Place::Start),
        (Place::Start, b'\r') => Some(Place::StartReturn),
        (Place::Line, b'\n') => Some(Place::Fresh),
        (Place::Fresh | Place::FreshReturn, b'\n') => None,
        (Place::Fresh, b'\r') => Some(Place::FreshReturn),
        _ => Some(Place::Line),
    }
}
