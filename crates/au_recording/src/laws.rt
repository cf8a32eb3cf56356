//! Laws of what auditing leaves.
ghost use Rattle.std.specs.Prelude.{◌≤◌, ◌+◌, ℕ, IsTrue, List, length};
ghost use Rattle.std.specs.List.{AllByRecursion};
ghost use Rattle.au_audit.specs.Conditions.{Result, forgetting, result_before};
ghost use Rattle.au_audit.specs.declared.place.Place.{Place};
ghost use Rattle.au_base.specs.Order.{is_in_order};
ghost use Rattle.au_catalog.specs.declared.catalog.Catalog.{Catalog};
ghost use Rattle.au_entries.specs.declared.facts.Facts.{Facts};
ghost use Rattle.au_entries.specs.declared.fine_grained.FgaName.{FgaName};
ghost use Rattle.au_entries.specs.declared.results.KeptResults.{KeptResults};
ghost use Rattle.au_expr.specs.Sessions.{Session};
ghost use Rattle.au_grants.specs.declared.grants.Grants.{Grants};
ghost use Rattle.au_policy.specs.Asking.{AreInOrder};
ghost use Rattle.au_recording.specs.Keeping.{ArePoliciesOrdered};
ghost use Rattle.au_recording.specs.Recording.{left_by};
ghost use Rattle.au_recording.specs.Writing.{CanBeRecorded};
ghost use Rattle.rec_codec.specs.Records.{trail_record};

use au_audit::kept_results_stay_in_order;
use au_entries::demanded_names_stand_in_order;

/// The records that an event leaves have spellings, where it is one that can be recorded, and there
/// is at most one more than fine-grained policies fired. It does nothing, and states the laws for
/// its callers.
pub fn records_can_be_written()
    ensures written { (catalog : Catalog) (grants : Grants) (kept : KeptResults) (session : Session) (facts : Facts) (place : Place) (fired : List FgaName) (forgets : List (List ℕ))
        → CanBeRecorded catalog facts place fired → AllByRecursion trail_record.IsSpellable (left_by catalog grants kept session facts place fired forgets).records }
    ensures few { (catalog : Catalog) (grants : Grants) (kept : KeptResults) (session : Session) (facts : Facts) (place : Place) (fired : List FgaName) (forgets : List (List ℕ))
        → length (left_by catalog grants kept session facts place fired forgets).records ≤ 1 + length fired }
{
    demanded_names_stand_in_order();
}

/// The results that are kept stand in the byte order of their policies after each event, where they
/// did before and the policies stand in order; and so they do where some are forgotten. It does
/// nothing, and states the laws for its callers.
pub fn results_stay_in_order()
    ensures left { (catalog : Catalog) (grants : Grants) (kept : KeptResults) (session : Session) (facts : Facts) (place : Place) (fired : List FgaName) (forgets : List (List ℕ))
        → ArePoliciesOrdered catalog.policies → AreInOrder kept → AreInOrder (left_by catalog grants kept session facts place fired forgets).results }
    ensures forgotten { (forgets : List (List ℕ)) (results : List Result) → IsTrue (is_in_order result_before results) → IsTrue (is_in_order result_before (forgetting forgets results)) }
{
    kept_results_stay_in_order();
}
