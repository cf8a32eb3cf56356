//! What policies demand.
ghost use Rattle.std.specs.Prelude.{◌≡◌, IfOk, IsTrue, OnOk, if◌then◌else◌};
ghost use Rattle.au_audit.specs.Conditions as conditions;
ghost use Rattle.au_base.specs.BuiltIn.{ora_mandatory};
ghost use Rattle.au_base.specs.Order.{is_in_order, name_before};
ghost use Rattle.au_entries.specs.Demand as demand;
ghost use Rattle.au_policy.specs.Asking.{AreInOrder, CanBeAsked, demanded_now};

use crate::asking::asked;
use au_base::built_in::ORA_MANDATORY;
use au_base::{Action, Code, List, Memory, Name};
use au_catalog::Catalog;
use au_entries::{Demanded, Facts, KeptResults};
use au_expr::SessionFacts;
use au_grants::Grants;
use std::alloc::Global;

/// What the policies of the catalogue demand of a statement: the names of those that demand a
/// record, in byte order and with ORA$MANDATORY where the action is audited whatever they say, and
/// the results of conditions that are kept from now on. Each policy is asked once. Its enablement
/// and the result that is kept of its condition are found by halving; a condition without one is
/// resolved and evaluated once, over no table.
pub fn demanded(
    alloc: Global,
    catalog: &Catalog,
    grants: &Grants,
    facts: &Facts,
    kept: &KeptResults,
    session: &SessionFacts,
) -> Result<Demanded, Memory>
    requires catalog { CanBeAsked catalog.now }
    requires order { AreInOrder kept.now }
    ensures { IfOk result (λ found. found ≡ demanded_now catalog.now grants.now kept.now session.now facts.now) }
{
    if is_unrecorded(facts.code) {
        return Ok(Demanded {
            names: List::new(alloc),
            learnt: List::new(alloc),
        });
    }
    let mut found = asked(alloc, catalog, grants, facts, kept, session)?;
    place_mandatory(alloc, &mut found.names, facts.action)?;
    Ok(found)
}

/// Whether a refusal with this code leaves no record.
pub fn is_unrecorded(code: Code) -> bool
    ensures { result ≡ conditions.is_unrecorded code }
{
    code.0 == Code::SESSION_PRESENT.0 || code.0 == Code::NOT_LOGGED_ON.0
}

// Whether the action is audited whatever the policies say.
fn is_mandatory(action: Action) -> bool
    ensures { result ≡ demand.is_mandatory action }
{
    let code = action.code();
    16 <= code && code <= 20
}

/// Places the name of what is mandatory among the names, where the action is audited whatever the
/// policies say.
pub fn place_mandatory(alloc: Global, names: &mut List<Name>, action: Action) -> Result<(), Memory>
    requires order { IsTrue (is_in_order name_before names.old) }
    ensures { OnOk result (names.new ≡ (if demand.is_mandatory action then demand.placed ora_mandatory names.old else names.old)) }
{
    if is_mandatory(action) {
        return names.insert_in_order(Name::from_str(alloc, ORA_MANDATORY)?);
    }
    Ok(())
}
