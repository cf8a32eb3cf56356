//! Changes of a catalogue, staged on its index.
ghost use Rattle.std.specs.Prelude.{◌≡◌, ℕ, List as Sequence, [], ◌∷◌, IfOk, IfSome, IsSome, None, Some, false, length, map, option_map};
ghost use Rattle.std.specs.List.{list_any};
ghost use Rattle.au_catalog.specs.declared.catalog.Catalog.{Catalog as AnyCatalog};
ghost use Rattle.au_catalog.specs.Settling.{catalog_after_all, condition_texts, when_texts};
ghost use Rattle.au_entries.specs.declared.policy.AuditPolicy.{AuditPolicy as AnyPolicy};
ghost use Rattle.au_entries.specs.declared.policy.Enabled.{Enabled};
ghost use Rattle.au_entries.specs.Changing.{enabled_after, policies_after, with_tree};
ghost use Rattle.au_expr.specs.Resolving.{IsCondition, placed};
ghost use Rattle.au_pindex.specs.Changing.{changes_policies};
ghost use Rattle.au_pindex.specs.declared.index.Index.{Index as AnyIndex};
ghost use Rattle.au_pindex.specs.Indexing.{IsIndexOf};
ghost use Rattle.au_pindex.specs.Staging.{Fits, IsStaged};
ghost use Rattle.au_pindex.specs.descent.Fitting.{FitsEdit};
ghost use Rattle.au_pindex.specs.descent.Leading.{Leads};
ghost use Rattle.au_pindex.specs.descent.Edits.{Keeps};
ghost use Rattle.au_policy.specs.Asking.{CanBeAsked, IsTruthOverNone};
ghost use Rattle.sql_ast.specs.declared.expression.Expr.{Expr as Tree};

use crate::changing::change_policies;
use crate::enabling::{drop_user, enable};
use crate::index::Index;
use crate::putting::{drop_policy, put_policy};
use crate::staged::{IndexEdit, StagedIndex, no_edit, policy_of};
use au_base::{Memory, Text};
use au_catalog::Catalog;
use au_entries::{Change, Evaluate};
use au_expr::{Resolved, resolve_condition};
use sql_ast::Expr;
use std::alloc::Global;

/// The changes, staged on the index of the catalogue: one change as its edit, and several as no edit,
/// where none of them is of policies.
pub(crate) fn staged(
    index: &mut Index,
    alloc: Global,
    catalog: &Catalog,
    changes: &[Change],
    trees: &[Expr],
) -> Result<Option<StagedIndex>, Memory>
    requires index { IsIndexOf catalog.now index.old }
    requires catalog { CanBeAsked catalog.now }
    requires after { (tree : Sequence ℕ → Tree) × (map tree (condition_texts changes.now) ≡ trees.now) × CanBeAsked (catalog_after_all tree changes.now catalog.now) }
    ensures staged { IfOk result (λ found. IfSome found (λ staged. (tree : Sequence ℕ → Tree) → map tree (condition_texts changes.now) ≡ trees.now → IsStaged catalog.now (catalog_after_all tree changes.now catalog.now) staged)) }
    ensures fits { IfOk result (λ found. IfSome found (λ staged. Fits staged index.new)) }
    ensures one { length changes.now ≡ 1 → IfOk result IsSome }
    ensures others { list_any changes_policies changes.now ≡ false → IfOk result IsSome }
    ensures keeps { Keeps index.old index.new }
{
    if changes.len() == 1 {
        let edit = edit_for(index, alloc, catalog, &changes[0], trees)?;
        return Ok(Some(StagedIndex { edit }));
    }
    Ok(staged_apart(changes))
}

// No edit, where none of the changes is of policies.
fn staged_apart(changes: &[Change]) -> Option<StagedIndex>
    ensures staged { IfSome result (λ staged. (tree : Sequence ℕ → Tree) (catalog : AnyCatalog) → IsStaged catalog (catalog_after_all tree changes.now catalog) staged) }
    ensures fits { IfSome result (λ staged. (index : AnyIndex) → Fits staged index) }
    ensures others { list_any changes_policies changes.now ≡ false → IsSome result }
{
    if change_policies(changes) {
        return None;
    }
    Some(StagedIndex { edit: no_edit() })
}

// The edit of an index of the catalogue where one change is made.
fn edit_for(
    index: &mut Index,
    alloc: Global,
    catalog: &Catalog,
    change: &Change,
    trees: &[Expr],
) -> Result<IndexEdit, Memory>
    requires index { IsIndexOf catalog.now index.old }
    requires catalog { CanBeAsked catalog.now }
    requires after { (tree : Sequence ℕ → Tree) × (map tree (condition_texts (change.now ∷ [])) ≡ trees.now) × CanBeAsked (catalog_after_all tree (change.now ∷ []) catalog.now) }
    ensures leads { IfOk result (λ edit. (tree : Sequence ℕ → Tree) → map tree (condition_texts (change.now ∷ [])) ≡ trees.now → Leads catalog.now.enabled catalog.now.policies (enabled_after change.now catalog.now.enabled) (policies_after tree change.now catalog.now.policies) edit) }
    ensures fits { IfOk result (λ edit. FitsEdit edit index.new) }
    ensures keeps { Keeps index.old index.new }
{
    match change {
        Change::Policy {
            name,
            privileges,
            actions,
            roles,
            when,
        } => {
            let policy = policy_of(name, privileges, actions, roles)?;
            let condition = resolved_when(alloc, when, trees)?;
            put_policy(index, alloc, catalog, policy, condition)
        }
        Change::PolicyGone(name) => Ok(drop_policy(&*index, catalog, name)),
        Change::Enable(policy, enabled) => enable(index, alloc, catalog, policy, enabled),
        Change::UserGone(user) => drop_user(alloc, catalog, user),
        _ => Ok(unaffected(change)),
    }
}

// No edit, where the change leaves policies and enablements as they are.
fn unaffected(_change: &Change) -> IndexEdit
    requires { changes_policies _change.now ≡ false }
    ensures leads { (tree : Sequence ℕ → Tree) (enabled : Sequence (Sequence ℕ × Enabled)) (policies : Sequence AnyPolicy) → Leads enabled policies (enabled_after _change.now enabled) (policies_after tree _change.now policies) result }
    ensures fits { (index : AnyIndex) → FitsEdit result index }
{
    no_edit()
}

// The condition of a policy, where it has one, resolved. Its tree is the only one.
fn resolved_when(
    alloc: Global,
    when: &Option<(Evaluate, Text)>,
    trees: &[Expr],
) -> Result<Option<Resolved>, Memory>
    requires { (tree : Sequence ℕ → Tree) × (map tree (when_texts when.now) ≡ trees.now) × IsTruthOverNone (with_tree tree when.now) }
    ensures { IfOk result (λ condition. (tree : Sequence ℕ → Tree) → map tree (when_texts when.now) ≡ trees.now → condition ≡ option_map (λ given. placed [] given.1.tree) (with_tree tree when.now)) }
{
    match when {
        None => Ok(None),
        Some(_) => resolved_first(alloc, trees),
    }
}

fn resolved_first(alloc: Global, trees: &[Expr]) -> Result<Option<Resolved>, Memory>
    requires { (tree : Tree) × (trees.now ≡ tree ∷ []) × IsCondition [] tree }
    ensures { IfOk result (λ condition. (tree : Tree) → trees.now ≡ tree ∷ [] → condition ≡ Some (placed [] tree)) }
{
    resolved_tree(alloc, &trees[0])
}

fn resolved_tree(alloc: Global, tree: &Expr) -> Result<Option<Resolved>, Memory>
    requires { IsCondition [] tree.now }
    ensures { IfOk result (λ condition. condition ≡ Some (placed [] tree.now)) }
{
    match resolve_condition(alloc, tree, &[])? {
        Ok(resolved) => Ok(Some(resolved)),
        Err(_) => unreachable!(),
    }
}
