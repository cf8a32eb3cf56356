//! What rules make of a statement on auditing.
ghost use Rattle.std.specs.Prelude.{◌≡◌, ◌∷◌, IfOk};
ghost use Rattle.au_calls.specs.Rules.{changes_alone, decided};
ghost use Rattle.au_base.specs.Codes.{PRIVILEGE_MISSING};
ghost use Rattle.au_base.specs.FirstCode.{first_code};
ghost use Rattle.au_define.specs.Rules.{is_broken};

use au_base::{Code, List, Name, Privilege, Stamp};
use au_entries::{Change, Decision};
use std::alloc::Global;

/// What a statement on auditing makes where no rule refuses it.
#[derive(Debug, Drop, PartialEq, Eq)]
pub struct Effect {
    /// What it changes of what is kept, in the order in which it happens.
    pub changes: List<Change>,
    /// Of a purge: the records stamped before this moment go, or all of them where it names none.
    pub purge: Option<Option<Stamp>>,
    /// The audit policies whose kept results of conditions are forgotten.
    pub forgets: List<Name>,
}

/// Changes alone.
pub fn changes_alone(alloc: Global, changes: List<Change>) -> Effect
    ensures { result ≡ changes_alone changes }
{
    Effect {
        changes,
        purge: None,
        forgets: List::new(alloc),
    }
}

/// What is decided by the right that the statement needs, which may be missing, and by the rules
/// behind it. Each rule is whether it is broken, and its code. Unless the right is missing, the
/// privileges that are needed count as used; unless the statement is refused, it has this effect.
pub fn decide_by(
    alloc: Global,
    barred: bool,
    others: &[(bool, Code)],
    needed: List<Privilege>,
    effect: Effect,
) -> Decision
    ensures { result ≡ decided barred others.now needed effect }
{
    let refused = barred || is_broken(others);
    let Effect {
        changes,
        purge,
        forgets,
    } = effect;
    Decision {
        code: first_of(barred, others),
        used: if barred { List::new(alloc) } else { needed },
        changes: if refused { List::new(alloc) } else { changes },
        purge: if refused { None } else { purge },
        forgets: if refused { List::new(alloc) } else { forgets },
    }
}

fn first_of(barred: bool, others: &[(bool, Code)]) -> Code
    ensures { result ≡ first_code ((barred, PRIVILEGE_MISSING) ∷ others.now) }
{
    if barred {
        Code::PRIVILEGE_MISSING
    } else {
        Code::first(others)
    }
}

/// Whether some of the rules is broken.
fn is_broken(rules: &[(bool, Code)]) -> bool
    ensures { result ≡ is_broken rules.now }
{
    rules.iter().any(|rule| rule.0)
}
