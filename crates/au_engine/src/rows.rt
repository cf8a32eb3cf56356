//! Rows that a statement commits or writes.
ghost use Rattle.std.specs.Prelude.{◌≡◌, ◌++◌, ◌∷◌, IfOk, OnOk, [], List as Sequence, Some, None, if◌then◌else◌, map};
ghost use Rattle.std.specs.List.{filter_map};
ghost use Rattle.au_base.specs.declared.numbers.ClientNo.{ClientNo};
ghost use Rattle.au_kept.specs.Staging.{final_change};
ghost use Rattle.au_ruling.specs.Kinds.{commits};
ghost use Rattle.au_step.specs.Step.{AreFinalsOf};
ghost use Rattle.au_txn.specs.declared.change.RowChange.{RowChange as AnyChange};
ghost use Rattle.au_engine.specs.Prepared.{commits_by, transaction_left};
ghost use Rattle.au_engine.specs.Inside.{AreWritten};

use crate::Engine;
use crate::outcome::RowsChange;
use au_base::{Cell, List, Memory};
use au_entries::Change;
use au_ruling::commits;
use au_step::Session;
use au_txn::{Final, RowChange};
use sql_ast::Statement;
use std::alloc::Global;

impl Engine {
    /// What becomes of the rows of the session's client, where the statement commits them.
    pub(crate) fn finals(
        &self,
        alloc: Global,
        session: &Session,
        statement: &Statement,
    ) -> Result<Vec<Final>, Memory>
        ensures { IfOk result (λ finals. AreFinalsOf (commits statement.now) self.now.state session.now.client finals.items) }
    {
        if !commits(statement) {
            return Ok(Vec::new(alloc));
        }
        self.holds_together();
        let finals = self.keeping.desk().finals(alloc, session.client)?;
        Ok(finals)
    }
}

/// What becomes of rows, as changes in front of these.
pub(crate) fn with_finals(
    alloc: Global,
    finals: Vec<Final>,
    changes: List<Change>,
) -> Result<List<Change>, Memory>
    ensures { IfOk result (λ all. all ≡ map final_change finals.items ++ changes) }
{
    let mut changes = changes;
    let mut all = changes_of(alloc, finals)?;
    all.append(&mut changes)?;
    Ok(all)
}

fn changes_of(alloc: Global, finals: Vec<Final>) -> Result<List<Change>, Memory>
    ensures { IfOk result (λ changes. changes ≡ map final_change finals.items) }
{
    let mut changes = List::new(alloc);
    let mut rest = finals.into_iter();
    while let Some(next) = rest.next() {
        changes.push(final_change(next))?;
    }
    Ok(changes)
}

fn final_change(last: Final) -> Change
    ensures { result ≡ final_change last }
{
    let Final {
        table,
        row,
        content,
    } = last;
    match content {
        None => Change::Gone(table, row),
        Some(cells) => Change::Put(table, row, cells),
    }
}

/// What becomes of the transaction by a statement that commits it, undoes it or goes it on by these
/// changes.
pub(crate) fn rows_change(
    alloc: Global,
    commits: bool,
    undoes: bool,
    changes: List<RowChange>,
) -> Result<RowsChange, Memory>
    ensures left { IfOk result (λ change. (transaction : Sequence AnyChange) → transaction_left change transaction ≡ (if commits then [] else (if undoes then [] else transaction ++ changes))) }
    ensures commits { IfOk result (λ change. (client : ClientNo) → commits_by client change ≡ (if commits then Some client else None)) }
    ensures written { IfOk result (AreWritten commits undoes changes) }
{
    if commits {
        return Ok(RowsChange::Commits);
    }
    if undoes {
        return Ok(RowsChange::Undoes);
    }
    if changes.is_empty() {
        return Ok(RowsChange::Nothing);
    }
    let contents = new_contents(alloc, changes.as_slice())?;
    Ok(RowsChange::Writes { changes, contents })
}

// A copy of the new contents of those changes that have one, in order.
fn new_contents(alloc: Global, changes: &[RowChange]) -> Result<Vec<Vec<Cell>>, Memory>
    ensures { IfOk result (λ contents. map (λ cells. cells.items) contents.items ≡ filter_map (λ change. change.new) changes.now) }
{
    let mut contents = Vec::new(alloc);
    for change in changes {
        add_content(&mut contents, change)?;
    }
    Ok(contents)
}

fn add_content(contents: &mut Vec<Vec<Cell>>, change: &RowChange) -> Result<(), Memory>
    ensures { OnOk result (map (λ cells. cells.items) contents.new.items ≡ map (λ cells. cells.items) contents.old.items ++ filter_map (λ change. change.new) (change.now ∷ [])) }
{
    match &change.new {
        None => Ok(()),
        Some(cells) => {
            let copy = copied(cells)?;
            contents.push(copy.into_vec())?;
            Ok(())
        }
    }
}

// The same cells.
fn copied(cells: &List<Cell>) -> Result<List<Cell>, Memory>
    ensures { IfOk result (λ copy. copy ≡ cells.now) }
{
    Ok(cells.clone()?)
}
