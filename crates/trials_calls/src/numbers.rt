//! The numbers of the records of one event. A case `numbers|ENTRY` lists those of a statement whose
//! first record has the number ENTRY: it is demanded by the audit policy P and the fine-grained
//! policies F and G.

use au_audit::Place;
use au_base::{Action, Code, List, SessionNo, Stamp, TableName};
use au_entries::{Demanded, Facts, FgaName, Record};
use au_trail::records;
use std::alloc::Global;
use trials_lines::{Fault, name};

/// What comes of a case.
pub fn answers(alloc: Global, case: &str) -> Result<String, Fault> {
    let (_, entry) = case.split_once('|').ok_or(Fault::NoCase)?;
    let at = place(entry.parse().map_err(|_| Fault::NoCase)?);
    let mut names = List::new(alloc);
    names.push(name(alloc, "P")?)?;
    let demanded = Demanded {
        names,
        learnt: List::new(alloc),
    };
    let mut fired = List::new(alloc);
    fired.push(fine_grained(alloc, "F")?)?;
    fired.push(fine_grained(alloc, "G")?)?;
    let made = records(alloc, &facts(alloc)?, &demanded, fired.as_slice(), &at)?;
    listed(alloc, made.as_slice())
}

fn place(entry: u32) -> Place {
    Place {
        session: SessionNo(1),
        entry,
        statement: 1,
        stamp: Stamp(0),
        object: None,
        sql: None,
    }
}

fn facts(alloc: Global) -> Result<Facts, Fault> {
    Ok(Facts {
        user: name(alloc, "A")?,
        action: Action::Select,
        tables: List::new(alloc),
        used: List::new(alloc),
        code: Code(0),
    })
}

fn fine_grained(alloc: Global, policy: &str) -> Result<FgaName, Fault> {
    let table = TableName {
        owner: name(alloc, "A")?,
        name: name(alloc, "T")?,
    };
    Ok(FgaName {
        table,
        policy: name(alloc, policy)?,
    })
}

fn listed(alloc: Global, entries: &[Record]) -> Result<String, Fault> {
    let mut text = String::new(alloc);
    for entry in entries {
        text.push_str(format!(in alloc; "[{}]", entry.entry)?.as_str())?;
    }
    Ok(text)
}
