//! The index of a catalogue's audit policies.
ghost use Rattle.std.specs.Prelude.{◌≡◌, ◌≤◌, ◌+◌, [], ℕ, List as Sequence, IfOk, IfSome, IsSome, false, length, map};
ghost use Rattle.std.specs.List.{list_any};
ghost use Rattle.au_catalog.specs.declared.catalog.Catalog.{Catalog as AnyCatalog};
ghost use Rattle.au_catalog.specs.Settling.{catalog_after_all, condition_texts};
ghost use Rattle.au_pindex.specs.Changing.{changes_policies};
ghost use Rattle.au_pindex.specs.Indexing.{IsIndexOf};
ghost use Rattle.au_pindex.specs.Naming.{count_named};
ghost use Rattle.au_pindex.specs.Staging.{Fits, IsStaged};
ghost use Rattle.au_policy.specs.Asking.{AreInOrder, CanBeAsked, demanded_now};
ghost use Rattle.sql_ast.specs.declared.expression.Expr.{Expr as Tree};

use crate::bucketed::{Bucketed, buckets_of};
use crate::naming::named_places;
use crate::resolving::resolved;
use crate::settling::edit_index;
use crate::staged::StagedIndex;
use crate::staging::staged;
use crate::testing::{Case, test_all};
use au_base::{List, Memory, Steps};
use au_catalog::Catalog;
use au_entries::{Change, Demanded, Facts, KeptResults};
use au_expr::{Resolved, SessionFacts};
use au_grants::Grants;
use au_policy::{demanding_names_stand_in_order, is_unrecorded, place_mandatory};
use sql_ast::Expr;
use std::alloc::Global;
use std::sync::ledger::Ledger;

/// The index of one catalogue's audit policies: the places of those that are enabled, by what their
/// parts name, and the condition of each policy, resolved.
#[derive(Drop)]
pub struct Index {
    pub(crate) buckets: Bucketed,
    pub(crate) conditions: Vec<Option<Resolved>>,
}

impl Index {
    /// The index of every catalogue that has no policies. Where there are some and none is enabled, the
    /// index has their conditions, and `of` makes it. It takes no memory.
    pub fn new(alloc: Global) -> Index
        ensures { (catalog : AnyCatalog) → catalog.policies ≡ [] → IsIndexOf catalog result }
    {
        Index {
            buckets: Bucketed::new(alloc),
            conditions: Vec::new(alloc),
        }
    }

    /// The index of the catalogue. It goes over all policies twice: for what their parts name, and to
    /// resolve their conditions.
    pub fn of(alloc: Global, catalog: &Catalog) -> Result<Index, Memory>
        requires catalog { CanBeAsked catalog.now }
        ensures { IfOk result (IsIndexOf catalog.now) }
    {
        let enabled = catalog.enabled.as_slice();
        let buckets = buckets_of(alloc, enabled, catalog.policies.as_slice())?;
        let conditions = resolved(alloc, catalog.policies.as_slice())?;
        Ok(Index {
            buckets,
            conditions,
        })
    }

    /// Makes the changes of the catalogue ready to be made in their order. There are as many trees as
    /// the changes hold texts of conditions, and in their order these are the trees that the texts are
    /// read as; the catalogue after the changes can be asked too. The index stays that of the
    /// catalogue, whatever is answered.
    ///
    /// It takes memory for what the change names alone, and for the places that leave. `None` where there
    /// are several changes and some are of policies, which no statement makes today: an edit is of the
    /// index that stands, and `of` makes the index of the catalogue after them.
    pub fn stage(
        &mut self,
        alloc: Global,
        catalog: &Catalog,
        changes: &[Change],
        trees: &[Expr],
    ) -> Result<Option<StagedIndex>, Memory>
        requires index { IsIndexOf catalog.now self.old }
        requires catalog { CanBeAsked catalog.now }
        requires after { (tree : Sequence ℕ → Tree) × (map tree (condition_texts changes.now) ≡ trees.now) × CanBeAsked (catalog_after_all tree changes.now catalog.now) }
        ensures staged { IfOk result (λ found. IfSome found (λ staged. (tree : Sequence ℕ → Tree) → map tree (condition_texts changes.now) ≡ trees.now → IsStaged catalog.now (catalog_after_all tree changes.now catalog.now) staged)) }
        ensures fits { IfOk result (λ found. IfSome found (λ staged. Fits staged self.new)) }
        ensures one { length changes.now ≡ 1 → IfOk result IsSome }
        ensures others { list_any changes_policies changes.now ≡ false → IfOk result IsSome }
        ensures index { IsIndexOf catalog.now self.new }
    {
        staged(self, alloc, catalog, changes, trees)
    }

    /// Makes the staged changes: the index of the catalogue on which they were staged becomes that of
    /// the catalogue after them. It takes no memory. `stage` says that what it gave fits the index.
    pub fn settle(&mut self, staged: StagedIndex)
        requires fits { Fits staged self.old }
        ensures { (catalog after : AnyCatalog) → IsStaged catalog after staged → IsIndexOf catalog self.old → IsIndexOf after self.new }
    {
        let StagedIndex { edit } = staged;
        edit_index(self, edit);
    }

    /// What the policies of the catalogue demand of a statement: what `au_policy::demanded` answers.
    /// It tests only the enabled policies that name the statement, each once, and counts one step for
    /// each that it tests: fewer, where memory is short before the last. No condition is resolved.
    pub fn demanded<L: Ledger>(
        &self,
        alloc: Global,
        catalog: &Catalog,
        grants: &Grants,
        facts: &Facts,
        kept: &KeptResults,
        session: &SessionFacts,
        steps: &mut Steps<L>,
    ) -> Result<Demanded, Memory>
        requires index { IsIndexOf catalog.now self.now }
        requires catalog { CanBeAsked catalog.now }
        requires order { AreInOrder kept.now }
        ensures value { IfOk result (λ found. found ≡ demanded_now catalog.now grants.now kept.now session.now facts.now) }
        ensures counts { steps.old ≤ steps.new }
        ensures steps { steps.new ≤ steps.old + count_named grants.now catalog.now facts.now }
    {
        if is_unrecorded(facts.code) {
            return Ok(Demanded {
                names: List::new(alloc),
                learnt: List::new(alloc),
            });
        }
        demanding_names_stand_in_order();
        let case = Case {
            catalog,
            grants,
            facts,
            kept,
            session,
        };
        let places = named_places(alloc, &self.buckets, catalog, grants, facts)?;
        let conditions = self.conditions.as_slice();
        let mut found = test_all(alloc, case, conditions, places.as_slice(), steps)?;
        place_mandatory(alloc, &mut found.names, facts.action)?;
        Ok(found)
    }
}
