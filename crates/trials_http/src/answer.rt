//! The calls, and the words of asks.

use crate::escapes::{escaped, unescaped};
use crate::replies::{faults, reply, response, said_of};
use crate::requests::{fronts, refusal, request};
use crate::scripts::{labels, script_line};
use au_base::Ask;
use au_http::said_json;
use au_script::said_text;
use std::alloc::Global;
use trials_lines::{Fault, said};

/// What comes of a line.
pub fn answer(alloc: Global, line: &str) -> Result<String, Fault> {
    let (call, written) = line.split_once(' ').unwrap_or((line, ""));
    match call {
        "request" => request(alloc, &unescaped(alloc, written)?),
        "fronts" => fronts(alloc, &unescaped(alloc, written)?),
        "refusal" => refusal(alloc, written),
        "line" => script_line(alloc, &unescaped(alloc, written)?),
        "labels" => labels(alloc, written),
        "script" => said(alloc, said_text(alloc, &said_of(alloc, written)?)?.as_str()),
        "json" => said(alloc, said_json(alloc, &said_of(alloc, written)?)?.as_str()),
        "faults" => faults(alloc),
        "reply" => reply(alloc, &unescaped(alloc, written)?),
        "response" => response(alloc, written),
        _ => Err(Fault::NoCase),
    }
}

/// The ask in words, its texts in brackets.
pub fn said_ask(alloc: Global, ask: &Ask) -> Result<String, Fault> {
    match ask {
        Ask::Local => said(alloc, "local"),
        Ask::Logon { user, password } => {
            let user = escaped(alloc, user.as_str())?;
            let password = escaped(alloc, password.as_str())?;
            Ok(format!(in alloc; "logon [{user}] [{password}]")?)
        }
        Ask::Sql(text) => {
            let text = escaped(alloc, text.as_str())?;
            Ok(format!(in alloc; "sql [{text}]")?)
        }
        Ask::Logoff => said(alloc, "logoff"),
    }
}
