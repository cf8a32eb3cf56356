//! Changes, as lines have them.

use crate::{field, grants, parts, tables};
use au_base::Stamp;
use au_entries::Change;
use std::alloc::Global;
use trials_lines::{Fault, name, number};

/// The change of the line.
pub fn change(alloc: Global, line: &str) -> Result<Change, Fault> {
    match field(line, 0) {
        "user" => user(alloc, line),
        "user gone" | "role" | "role gone" | "policy gone" => named(alloc, line),
        "system grant" | "system revoke" => grants::system(alloc, line),
        "role grant" | "role revoke" => grants::role(alloc, line),
        "object grant" | "object revoke" => grants::object(alloc, line),
        "table" => tables::table(alloc, line),
        "put" => tables::put(alloc, line),
        "fga" => tables::fga(alloc, line),
        "table gone" | "gone" | "fga gone" => tables::gone(alloc, line),
        "policy" => policy(alloc, line),
        "enable" => enable(alloc, line),
        "archive" => archive(line),
        "start" => start(line),
        _ => Err(Fault::NoCase),
    }
}

// A change that has a name alone.
fn named(alloc: Global, line: &str) -> Result<Change, Fault> {
    let name = name(alloc, field(line, 1))?;
    match field(line, 0) {
        "user gone" => Ok(Change::UserGone(name)),
        "role" => Ok(Change::Role(name)),
        "role gone" => Ok(Change::RoleGone(name)),
        _ => Ok(Change::PolicyGone(name)),
    }
}

fn user(alloc: Global, line: &str) -> Result<Change, Fault> {
    let verifier = parts::byte(field(line, 2))?;
    Ok(Change::User(name(alloc, field(line, 1))?, [verifier; 32]))
}

fn policy(alloc: Global, line: &str) -> Result<Change, Fault> {
    let name = name(alloc, field(line, 1))?;
    let privileges = parts::privileges(alloc, field(line, 2))?;
    let actions = parts::actions(alloc, field(line, 3))?;
    let roles = parts::names(alloc, field(line, 4))?;
    let when = parts::when(alloc, field(line, 5))?;
    Ok(Change::Policy {
        name,
        privileges,
        actions,
        roles,
        when,
    })
}

fn enable(alloc: Global, line: &str) -> Result<Change, Fault> {
    let enabled = parts::enabled(alloc, field(line, 2))?;
    Ok(Change::Enable(name(alloc, field(line, 1))?, enabled))
}

fn archive(line: &str) -> Result<Change, Fault> {
    if field(line, 1).is_empty() {
        return Ok(Change::Archive(None));
    }
    Ok(Change::Archive(Some(Stamp(number(field(line, 1))?))))
}

fn start(line: &str) -> Result<Change, Fault> {
    Ok(Change::Start(parts::short(field(line, 1))?))
}
