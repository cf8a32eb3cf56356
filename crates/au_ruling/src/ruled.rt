//! What statements come to that aren't on rows.
ghost use Rattle.std.specs.Prelude.{◌≡◌, IfOk, false};
ghost use Rattle.au_ruling.specs.declared.kind.StatementKind.TheVariants as kinds;
ghost use Rattle.au_ruling.specs.Cases.{IsLentBy, IsSorted};
ghost use Rattle.au_ruling.specs.Kinds.{is_on_rows, kind_of};
ghost use Rattle.au_ruling.specs.Rulings.{Comes, ComesAs, Ground};

use crate::deciding::{administered, defined};
use crate::kind::{StatementKind, kind_of};
use crate::ruling::Ruling;
use crate::ruling_case::RulingCase;
use au_base::Memory;
use sql_ast::Statement;
use std::alloc::Global;

/// What a statement comes to that isn't on rows. Nothing is changed by it; want of memory is the one
/// error.
pub fn rule(alloc: Global, case: RulingCase<'_>, statement: &Statement) -> Result<Ruling, Memory>
    requires order { IsSorted case }
    requires other { is_on_rows statement.now ≡ false }
    ensures { (basis : Ground) → IsLentBy basis case.entry → IfOk result (Comes basis statement.now) }
{
    match kind_of(statement) {
        StatementKind::Commit => Ok(Ruling::ended(alloc, false)),
        StatementKind::Rollback => Ok(Ruling::ended(alloc, true)),
        StatementKind::Definition => {
            let ruling = define(alloc, &case, statement)?;
            Ok(ruling)
        }
        StatementKind::Administration => {
            let ruling = administer(alloc, &case, statement)?;
            Ok(ruling)
        }
        StatementKind::OnRows => unreachable!(),
    }
}

fn define(alloc: Global, case: &RulingCase<'_>, statement: &Statement) -> Result<Ruling, Memory>
    requires order { IsSorted case.now }
    requires definition { kind_of statement.now ≡ kinds.Definition }
    ensures { (basis : Ground) → IsLentBy basis case.now → IfOk result (ComesAs kinds.Definition basis statement.now) }
{
    let decision = defined(alloc, case, statement)?;
    Ok(Ruling::of_decision(alloc, decision))
}

fn administer(alloc: Global, case: &RulingCase<'_>, statement: &Statement) -> Result<Ruling, Memory>
    requires order { IsSorted case.now }
    requires administration { kind_of statement.now ≡ kinds.Administration }
    ensures { (basis : Ground) → IsLentBy basis case.now → IfOk result (ComesAs kinds.Administration basis statement.now) }
{
    let decision = administered(alloc, case, statement)?;
    Ok(Ruling::of_decision(alloc, decision))
}
