//! Laws of the catalogue.
ghost use Rattle.std.specs.Prelude.{◌≡◌, ℕ, List};
ghost use Rattle.au_entries.specs.declared.change.Change.{Change};
ghost use Rattle.au_entries.specs.declared.kept.Kept.{Kept};
ghost use Rattle.au_entries.specs.Changing.{changed_all};
ghost use Rattle.au_catalog.specs.Settling.{catalog_after_all, catalog_of};
ghost use Rattle.au_catalog.specs.Staging.{edited_all, edits_of};
ghost use Rattle.au_catalog.specs.declared.catalog.Catalog.{Catalog};
ghost use Rattle.sql_ast.specs.declared.expression.Expr.{Expr};

/// What changes make of the catalogue of what is kept is the catalogue of what they make of all
/// that is kept. It does nothing, and states the law for its callers.
pub fn catalogues_change_by_their_parts()
    ensures { (tree : List ℕ → Expr) (changes : List Change) (kept : Kept) → catalog_of (changed_all tree changes kept) ≡ catalog_after_all tree changes (catalog_of kept) }
{}

/// The edits that changes are make of the catalogue what the changes make. It does nothing, and
/// states the law for its callers.
pub fn edits_make_what_changes_make()
    ensures { (tree : List ℕ → Expr) (changes : List Change) (catalog : Catalog) → edited_all (edits_of tree changes) catalog ≡ catalog_after_all tree changes catalog }
{}
