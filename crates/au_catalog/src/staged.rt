//! Changes of the catalogue that are ready to be made.
ghost use Rattle.std.specs.Prelude.{◌≡◌, IfOk, length};
ghost use Rattle.std.specs.Vec.Iter.{into_iter_items};
ghost use Rattle.au_catalog.specs.Settling.{condition_texts};
ghost use Rattle.au_catalog.specs.Staging.{Fits, IsOrdered, edited_all, edits_with};
ghost use Rattle.au_catalog.specs.descent.Editing.{counts_in, staged_from};

use crate::catalog::Catalog;
use crate::counts::{Counts, counts_in};
use crate::edits::Edits;
use crate::room::if_done;
use au_base::Memory;
use au_entries::Change;
use sql_ast::Expr;
use std::alloc::Global;
use std::marker::Model;
use std::mem;
use std::vec::IntoIter;

/// Changes that `Catalog::settle` makes with no memory. Contracts see the edits that they are, and
/// how many entries each list of the catalogue had when they were staged.
#[derive(Debug, Drop)]
pub struct Staged {
    edits: Edits,
    counts: Counts,
    /// What stands in the place of the catalogue while it is changed.
    placeholder: Catalog,
}

impl Model for Staged {
    ghost use Rattle.std.specs.Coded.{codes as value_codes};
    ghost use Rattle.sql_ast.specs.contracts.expression.Expr as expression;
    ghost use Rattle.au_catalog.specs.Staging.{Staged as Ready};

    ghost Value = { Ready };

    ghost coded = { Prim.hlevel (value_codes, expression.the_row.coded) };

    ghost use Rattle.au_catalog.specs.descent.Editing.{AreEmpty, AreSpared, staged_from};

    ghost view = { λ s. staged_from s.edits.list.items s.counts };

    ghost invariant = { λ s. AreEmpty s.edits.room × AreSpared s.counts s.edits.list.items s.edits.room };
}

impl Staged {
    /// The changes, ready to be made on this catalogue. The trees, in their order, are those of
    /// their conditions.
    pub(crate) fn of(
        alloc: Global,
        catalog: &Catalog,
        changes: &[Change],
        trees: &mut IntoIter<Expr>,
    ) -> Result<Staged, Memory>
        requires trees { length (into_iter_items trees.old) ≡ length (condition_texts changes.now) }
        ensures { IfOk result (λ staged. staged ≡ staged_from (edits_with (into_iter_items trees.old) changes.now) (counts_in catalog.now)) }
    {
        let mut edits = Edits::new(alloc);
        let filled = edits.fill(catalog, changes, trees);
        let edits = if_done(filled, edits)?;
        Ok(Staged {
            edits,
            counts: counts_in(catalog),
            placeholder: Catalog::new(alloc),
        })
    }

    /// Makes the changes on the catalogue. It takes no memory.
    pub(crate) fn make_on(self, catalog: &mut Catalog)
        requires order { IsOrdered catalog.old }
        requires fits { Fits self catalog.old }
        ensures after { catalog.new ≡ edited_all self.edits catalog.old }
        ensures order { IsOrdered catalog.new }
    {
        let Staged {
            edits,
            counts: _,
            placeholder,
        } = self;
        let present = mem::replace(catalog, placeholder);
        *catalog = edits.made(present);
    }
}
