//! What rules make of a statement.
ghost use Rattle.std.specs.Prelude.{◌≡◌, ◌++◌, ◌∷◌, [], IfOk, IsTrue, List, if◌then◌else◌};
ghost use Rattle.au_entries.specs.declared.change.Change.{Change};
ghost use Rattle.au_base.specs.FirstCode.{first_code};
ghost use Rattle.au_define.specs.Rules.{decided, is_broken};

use au_base::{Code, List, Memory, Privilege};
use au_entries::{Change, Decision};
use std::alloc::Global;

/// What is decided by the rules up to the one on rights, and by the others behind them. Each rule is
/// whether it is broken, and its code. Unless the statement is refused by one of the first, the
/// privileges that are needed count as used; unless it is refused by any, it changes this.
pub fn decide_by(
    alloc: Global,
    rights: &[(bool, Code)],
    others: &[(bool, Code)],
    needed: List<Privilege>,
    changes: List<Change>,
) -> Decision
    ensures { result ≡ decided rights.now others.now needed changes }
{
    let barred = is_broken(rights);
    let refused = is_refused(rights, others);
    Decision {
        code: first_of(rights, others),
        used: if barred { List::new(alloc) } else { needed },
        changes: if refused { List::new(alloc) } else { changes },
        purge: None,
        forgets: List::new(alloc),
    }
}

/// What is decided of a statement that is refused by these rules, whatever it would change.
#[tactic(auto, using(crate::proofs::Broken::refused))]
pub fn refuse_by(
    alloc: Global,
    rights: &[(bool, Code)],
    others: &[(bool, Code)],
    needed: List<Privilege>,
) -> Decision
    requires broken { IsTrue (is_broken (rights.now ++ others.now)) }
    ensures { (changes : List Change) → result ≡ decided rights.now others.now needed changes }
{
    decide_by(alloc, rights, others, needed, List::new(alloc))
}

/// Whether some of both lists of rules is broken.
#[tactic(auto, using(crate::proofs::Broken::broken_of_both))]
pub fn is_refused(rights: &[(bool, Code)], others: &[(bool, Code)]) -> bool
    ensures { result ≡ is_broken (rights.now ++ others.now) }
{
    is_broken(rights) || is_broken(others)
}

/// Whether some of the rules is broken.
fn is_broken(rules: &[(bool, Code)]) -> bool
    ensures { result ≡ is_broken rules.now }
{
    rules.iter().any(|rule| rule.0)
}

#[tactic(auto, using(crate::proofs::Broken::first_of_rights, crate::proofs::Broken::first_of_others))]
fn first_of(rights: &[(bool, Code)], others: &[(bool, Code)]) -> Code
    ensures { result ≡ first_code (rights.now ++ others.now) }
{
    if is_broken(rights) {
        Code::first(rights)
    } else {
        Code::first(others)
    }
}

/// The privilege alone, or nothing where none is needed.
pub fn needed(alloc: Global, free: bool, privilege: Privilege) -> Result<List<Privilege>, Memory>
    ensures { IfOk result (λ needed. needed ≡ (if free then [] else privilege ∷ [])) }
{
    let mut needed = List::new(alloc);
    if !free {
        needed.push(privilege)?;
    }
    Ok(needed)
}

/// One change.
pub fn only(alloc: Global, change: Change) -> Result<List<Change>, Memory>
    ensures { IfOk result (λ changes. changes ≡ change ∷ []) }
{
    let mut changes = List::new(alloc);
    changes.push(change)?;
    Ok(changes)
}

/// The change alone, or nothing where what it makes stands already.
pub fn unless(alloc: Global, stands: bool, change: Change) -> Result<List<Change>, Memory>
    ensures { IfOk result (λ changes. changes ≡ (if stands then [] else change ∷ [])) }
{
    if stands {
        return Ok(List::new(alloc));
    }
    only(alloc, change)
}
