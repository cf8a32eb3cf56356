//! What the catalogue has.
ghost use Rattle.std.specs.Prelude.{◌≡◌, [], None, IfOk, List as Sequence, ℕ, length, map};
ghost use Rattle.au_catalog.specs.Settling.{catalog_after_all, condition_texts};
ghost use Rattle.au_catalog.specs.Staging.{Fits, IsOrdered, IsStaged, edited_all, edits_with};
ghost use Rattle.au_entries.specs.declared.change.Change.{Change as AnyChange};
ghost use Rattle.sql_ast.specs.declared.expression.Expr.{Expr as Tree};

use crate::staged::Staged;
use au_base::{List, Memory, Name, Stamp};
use au_entries::{AuditPolicy, Change, Enabled, FgaPolicy, Table};
use sql_ast::Expr;
use std::alloc::Global;

/// All that statements of definition change but grants. Each list is in the byte order of its
/// names.
#[derive(Debug, Drop, PartialEq, Eq)]
pub struct Catalog {
    /// Users, each with the verifier of its password.
    pub users: List<(Name, [u8; 32])>,
    pub roles: List<Name>,
    pub tables: List<Table>,
    pub policies: List<AuditPolicy>,
    /// The enablements that aren't `Off`, by the names of their policies.
    pub enabled: List<(Name, Enabled)>,
    pub fga: List<FgaPolicy>,
    /// The archive timestamp of the audit trail, where one is set.
    pub archive: Option<Stamp>,
}

impl Catalog {
    /// Nothing. It takes no memory.
    pub fn new(alloc: Global) -> Catalog
        ensures { result ≡ record { users = []; roles = []; tables = []; policies = []; enabled = []; fga = []; archive = None } }
    {
        Catalog {
            users: List::new(alloc),
            roles: List::new(alloc),
            tables: List::new(alloc),
            policies: List::new(alloc),
            enabled: List::new(alloc),
            fga: List::new(alloc),
            archive: None,
        }
    }

    /// Makes the changes ready to be made in their order. There are as many trees as the changes
    /// hold texts of conditions, and in their order they become the trees of these. The catalogue
    /// stays as it is until `settle`; no entry of it is copied, and no tree.
    pub fn stage(
        &mut self,
        alloc: Global,
        changes: &[Change],
        trees: Vec<Expr>,
    ) -> Result<Staged, Memory>
        requires trees { length trees.items ≡ length (condition_texts changes.now) }
        ensures edits { IfOk result (λ staged. staged.edits ≡ edits_with trees.items changes.now) }
        ensures staged { IfOk result (λ staged. (tree : Sequence ℕ → Tree) → map tree (condition_texts changes.now) ≡ trees.items → IsStaged tree changes.now staged) }
        ensures fits { IfOk result (λ staged. Fits staged self.new) }
        ensures unchanged { self.new ≡ self.old }
    {
        let mut trees = trees.into_iter();
        Staged::of(alloc, &*self, changes, &mut trees)
    }

    /// Makes the staged changes in their order. It takes no memory. Where each tree is what its text
    /// reads as, the clause `changes` says all; `edits` is for any trees. The lists of the catalogue
    /// stand in order, and have no more entries than when the changes were staged: `stage` says that
    /// what it gave fits them.
    pub fn settle(&mut self, staged: Staged)
        requires order { IsOrdered self.old }
        requires fits { Fits staged self.old }
        ensures edits { self.new ≡ edited_all staged.edits self.old }
        ensures changes { (tree : Sequence ℕ → Tree) (changes : Sequence AnyChange) → IsStaged tree changes staged → self.new ≡ catalog_after_all tree changes self.old }
        ensures order { IsOrdered self.new }
    {
        staged.make_on(self);
    }
}
