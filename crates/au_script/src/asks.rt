//! What clients ask for in scripts.
ghost use Rattle.std.specs.Prelude.{◌≡◌, ◌<◌, ◌≤◌, ◌↔◌, IfOk, IsTrue, MatchOption, length};
ghost use Rattle.au_base.specs.Found.{MakesExactly};
ghost use Rattle.au_script.specs.Lines.{HasNoSpace, IsSplit, LogsOn, NamesNoUser, SpellsAsk, SpellsNoAsk, password_limit};

use au_base::limits::PASSWORD_BYTES;
use au_base::{Ask, Memory, Text};
use std::alloc::Global;

/// What is asked behind a label and its space: `local`, `logon USER PASSWORD`, `sql TEXT` or
/// `logoff`. `None` where it is none of these.
pub(crate) fn ask_of(alloc: Global, asked: &str) -> Result<Option<Ask>, Memory>
    ensures { IfOk result (λ ask. MatchOption ask (SpellsNoAsk asked.now) (SpellsAsk asked.now)) }
{
    if asked == "local" {
        return Ok(Some(Ask::Local));
    }
    if asked == "logoff" {
        return Ok(Some(Ask::Logoff));
    }
    if let Some(text) = asked.strip_prefix("sql ") {
        return statement(alloc, text);
    }
    match asked.strip_prefix("logon ") {
        Some(names) => logon(alloc, names),
        None => Ok(None),
    }
}

fn statement(alloc: Global, text: &str) -> Result<Option<Ask>, Memory>
    ensures { IfOk result (MakesExactly (0 < length text.now) (Ask.Sql text.now)) }
{
    if text.is_empty() {
        return Ok(None);
    }
    Ok(Some(Ask::Sql(Text::from_str(alloc, text)?)))
}

// A logon as the user that is named before the first space, with the password that follows it.
fn logon(alloc: Global, names: &str) -> Result<Option<Ask>, Memory>
    ensures { IfOk result (λ ask. MatchOption ask (NamesNoUser names.now) (LogsOn names.now)) }
{
    let (user, password) = match split_at_space(names) {
        Some(parts) => parts,
        None => return Ok(None),
    };
    if user.is_empty() || !is_password(password) {
        return Ok(None);
    }
    Ok(Some(Ask::Logon {
        user: Text::from_str(alloc, user)?,
        password: Text::from_str(alloc, password)?,
    }))
}

fn is_password(bytes: &str) -> bool
    ensures { IsTrue result ↔ ((0 < length bytes.now) × (length bytes.now ≤ password_limit)) }
{
    !bytes.is_empty() && bytes.len() <= PASSWORD_BYTES
}

/// What stands before the first space, and what stands behind it.
pub(crate) fn split_at_space(text: &str) -> Option<(&str, &str)>
    ensures { MatchOption result (HasNoSpace text.now) (λ parts. IsSplit text.now parts.0.now parts.1.now) }
{
    text.split_once(' ')
}
