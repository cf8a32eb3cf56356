//! Tables, columns, actions, system privileges and codes.

use crate::case::{Case, said, word_of};
use au_base::{
    Action, Code, Column, ColumnKind, Memory, Name, Privilege, TableName, TableReference,
    is_same_action, is_same_privilege, is_same_table,
};
use std::alloc::Global;

/// What a call on what a catalogue names gives, if the case is one.
pub fn tried(alloc: Global, case: &Case<'_>) -> Result<Option<String>, Memory> {
    match case.call {
        "table" => Ok(Some(table(alloc, case)?)),
        "column" => said(alloc, column(alloc, case.text(0))?),
        "actions" => Ok(Some(actions(alloc)?)),
        "action" => said(alloc, action(case.text(0))),
        "privileges" => Ok(Some(privileges(alloc)?)),
        "privilege" => said(alloc, privilege(case.text(0))),
        "same table" => said(alloc, same_table(alloc, case)?),
        "same privilege" => said(alloc, same_privilege(case.text(0), case.text(1))),
        "same privileges" => Ok(Some(same_privileges(alloc)?)),
        "same action" => said(alloc, same_action(case.text(0), case.text(1))),
        "same actions" => Ok(Some(same_actions(alloc)?)),
        "first code" => Ok(Some(first_code(alloc, case.given.as_slice())?)),
        _ => Ok(None),
    }
}

// The table that a user means by a name, after an owner or none.
fn table(alloc: Global, case: &Case<'_>) -> Result<String, Memory> {
    let user = Name::make(alloc, case.text(0).as_bytes())?;
    let owner = Name::make(alloc, case.text(1).as_bytes())?;
    let name = Name::make(alloc, case.text(2).as_bytes())?;
    let (Some(user), Some(name)) = (user, name) else {
        return Ok(String::from_str(alloc, "no name")?);
    };
    let reference = TableReference { owner, name };
    let table = reference.resolved(alloc, &user)?;
    let copied = table.clone()? == table && table.name == reference.name;
    let dual = word_of(table.is_dual(), ", dual", "");
    let trail = word_of(table.is_trail(), ", trail", "");
    let copied = word_of(copied, "", ", changed");
    let (owner, name) = (table.owner.as_str(), table.name.as_str());
    Ok(format!(in alloc; "{owner}.{name}{dual}{trail}{copied}")?)
}

fn column(alloc: Global, given: &str) -> Result<&'static str, Memory> {
    let Some(name) = Name::make(alloc, given.as_bytes())? else {
        return Ok("no name");
    };
    let column = Column {
        name,
        kind: ColumnKind::Number,
        size: 18,
        not_null: true,
    };
    Ok(word_of(column.clone()? == column, "copied", "changed"))
}

// The numbers up to 255 that are actions, each with its name.
fn actions(alloc: Global) -> Result<String, Memory> {
    let mut text = String::new(alloc);
    for code in 0..=255u8 {
        if let Some(action) = Action::from_code(code) {
            let (code, name) = (action.code(), action.name());
            let found = Action::from_name(name.as_bytes()) == Some(action);
            let found = word_of(found, "", " (not found)");
            text.push_str(format!(in alloc; "{code} {name}{found};")?.as_str())?;
        }
    }
    Ok(text)
}

fn action(name: &str) -> &'static str {
    match Action::from_name(name.as_bytes()) {
        Some(action) => action.name(),
        None => "no action",
    }
}

// The numbers up to 255 that are system privileges, each with its name.
fn privileges(alloc: Global) -> Result<String, Memory> {
    let mut text = String::new(alloc);
    for code in 0..=255u8 {
        if let Some(privilege) = Privilege::from_code(code) {
            let (code, name) = (privilege.code(), privilege.name());
            let found = Privilege::from_name(name.as_bytes()) == Some(privilege);
            let found = word_of(found, "", " (not found)");
            text.push_str(format!(in alloc; "{code} {name}{found};")?.as_str())?;
        }
    }
    Ok(text)
}

fn privilege(name: &str) -> &'static str {
    match Privilege::from_name(name.as_bytes()) {
        Some(privilege) => privilege.name(),
        None => "no privilege",
    }
}

// A table's name, of an owner and a name.
fn table_name(alloc: Global, owner: &str, name: &str) -> Result<Option<TableName>, Memory> {
    let owner = Name::make(alloc, owner.as_bytes())?;
    let name = Name::make(alloc, name.as_bytes())?;
    match (owner, name) {
        (Some(owner), Some(name)) => Ok(Some(TableName { owner, name })),
        _ => Ok(None),
    }
}

// Whether two owners and names are one table's.
fn same_table(alloc: Global, case: &Case<'_>) -> Result<&'static str, Memory> {
    let a = table_name(alloc, case.text(0), case.text(1))?;
    let b = table_name(alloc, case.text(2), case.text(3))?;
    match (a, b) {
        (Some(a), Some(b)) => Ok(word_of(is_same_table(&a, &b), "yes", "no")),
        _ => Ok("no name"),
    }
}

fn same_privilege(a: &str, b: &str) -> &'static str {
    match (
        Privilege::from_name(a.as_bytes()),
        Privilege::from_name(b.as_bytes()),
    ) {
        (Some(a), Some(b)) => word_of(is_same_privilege(a, b), "yes", "no"),
        _ => "no privilege",
    }
}

// How many pairs of privileges are one and the same.
fn same_privileges(alloc: Global) -> Result<String, Memory> {
    let mut same = 0u64;
    for a in Privilege::EACH {
        for b in Privilege::EACH {
            if is_same_privilege(a, b) {
                same = same.saturating_add(1);
            }
        }
    }
    Ok(format!(in alloc; "{same}")?)
}

fn same_action(a: &str, b: &str) -> &'static str {
    match (
        Action::from_name(a.as_bytes()),
        Action::from_name(b.as_bytes()),
    ) {
        (Some(a), Some(b)) => word_of(is_same_action(a, b), "yes", "no"),
        _ => "no action",
    }
}

// How many pairs of actions are one and the same.
fn same_actions(alloc: Global) -> Result<String, Memory> {
    let mut same = 0u64;
    for a in Action::EACH {
        for b in Action::EACH {
            if is_same_action(a, b) {
                same = same.saturating_add(1);
            }
        }
    }
    Ok(format!(in alloc; "{same}")?)
}

// The code of the first rule that is broken, of rules such as `942 broken` and `904 kept`.
fn first_code(alloc: Global, given: &[&str]) -> Result<String, Memory> {
    let mut rules = Vec::new(alloc);
    for rule in given {
        if let Some((number, state)) = rule.split_once(' ') {
            let code = Code(number.parse::<u32>().unwrap_or(0));
            rules.push((state == "broken", code))?;
        }
    }
    let Code(number) = Code::first(rules.as_slice());
    Ok(format!(in alloc; "{number}")?)
}
