//! What the lines of scripts say.
ghost use Rattle.std.specs.Prelude.{◌≡◌, IfOk, MatchOption, length};
ghost use Rattle.std.specs.List.{list_all};
ghost use Rattle.au_script.specs.Lines.{AsksLine, AsksNothing, IsAskLine, IsContent, Says, SaysNothing, SpellsNoAsk, is_blank, is_comment, is_label, is_label_byte, is_label_rest, is_letter, is_skipped};

use crate::asks::{ask_of, split_at_space};
use au_base::limits::LINE_BYTES;
use au_base::{Ask, Memory, Text};
use std::alloc::Global;
use std::str;

/// The most bytes of a label behind its first.
const LABEL_REST_BYTES: usize = 15;

/// What a line of a script says.
#[derive(Debug, Drop, PartialEq, Eq)]
pub enum ScriptLine {
    /// Nothing. The line is empty, has only spaces, or begins with `#`.
    Skip,
    /// The client with this label asks for this.
    Ask { label: Text, ask: Ask },
}

/// What a line says, given without its LF. `None` where it is no script line.
pub fn line(alloc: Global, bytes: &[u8]) -> Result<Option<ScriptLine>, Memory>
    ensures { IfOk result (λ said. MatchOption said (SaysNothing bytes.now) (Says bytes.now)) }
{
    let content = without_return(bytes);
    if content.len() > LINE_BYTES {
        return Ok(None);
    }
    if is_skipped(content) {
        return Ok(Some(ScriptLine::Skip));
    }
    match str::from_utf8(content) {
        Ok(text) => ask_line(alloc, text),
        Err(_) => Ok(None),
    }
}

fn without_return(bytes: &[u8]) -> &[u8]
    ensures { IsContent bytes.now result.now }
{
    match bytes.strip_suffix(b"\r") {
        Some(content) => content,
        None => bytes,
    }
}

fn is_skipped(content: &[u8]) -> bool
    ensures { result ≡ is_skipped content.now }
{
    is_comment(content) || is_blank(content)
}

fn is_comment(content: &[u8]) -> bool
    ensures { result ≡ is_comment content.now }
{
    matches!(content, [b'#', ..])
}

fn is_blank(content: &[u8]) -> bool
    ensures { result ≡ is_blank content.now }
{
    content.iter().all(|b| *b == b' ')
}

// What a content that isn't skipped says. `None` where it asks for nothing.
fn ask_line(alloc: Global, content: &str) -> Result<Option<ScriptLine>, Memory>
    ensures { IfOk result (λ said. MatchOption said (AsksNothing content.now) (AsksLine content.now)) }
{
    let (label, asked) = match split_at_space(content) {
        Some(parts) => parts,
        None => return Ok(None),
    };
    if !is_label(label.as_bytes()) {
        return Ok(None);
    }
    labelled(alloc, label, asked)
}

// What the client with this label asks for.
fn labelled(alloc: Global, label: &str, asked: &str) -> Result<Option<ScriptLine>, Memory>
    ensures { IfOk result (λ said. MatchOption said (SpellsNoAsk asked.now) (IsAskLine label.now asked.now)) }
{
    match ask_of(alloc, asked)? {
        Some(ask) => Ok(Some(ScriptLine::Ask {
            label: Text::from_str(alloc, label)?,
            ask,
        })),
        None => Ok(None),
    }
}

fn is_label(bytes: &[u8]) -> bool
    ensures { result ≡ is_label bytes.now }
{
    match bytes.split_first() {
        Some((first, rest)) => is_letter(*first) && is_label_rest(rest),
        None => false,
    }
}

fn is_label_rest(rest: &[u8]) -> bool
    ensures { result ≡ is_label_rest rest.now }
{
    rest.len() <= LABEL_REST_BYTES && are_label_bytes(rest)
}

fn are_label_bytes(bytes: &[u8]) -> bool
    ensures { result ≡ list_all is_label_byte bytes.now }
{
    bytes.iter().all(|b| is_label_byte(*b))
}

fn is_label_byte(byte: u8) -> bool
    ensures { result ≡ is_label_byte byte }
{
    is_letter(byte) || byte.is_ascii_digit()
}

fn is_letter(byte: u8) -> bool
    ensures { result ≡ is_letter byte }
{
    byte.is_ascii_lowercase()
}
