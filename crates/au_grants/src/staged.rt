//! Changes of grants that are ready to be made.
ghost use Rattle.std.specs.Prelude.{◌≡◌, IfOk, length};
ghost use Rattle.au_grants.specs.Changing.{applied_all};
ghost use Rattle.au_grants.specs.Staging.{Fits};

use crate::change::GrantChange;
use crate::edits::Edits;
use crate::grants::Grants;
use au_base::Memory;
use std::alloc::Global;
use std::marker::Model;
use std::mem;

/// Changes that `Grants::settle` makes with no memory. Contracts see the changes, and how many
/// grants of each kind there were when they were staged.
#[derive(Debug, Drop)]
pub struct StagedGrants {
    edits: Edits,
    /// What stands in the place of the grants while they are changed.
    placeholder: Grants,
}

impl Model for StagedGrants {
    ghost use Rattle.au_grants.specs.Staging.{Staged};
    ghost use Rattle.au_grants.specs.descent.Editing.{AreSpared};

    ghost Value = { Staged };

    ghost view = { λ s. record { changes = s.edits.changes.items; system = s.edits.system.count; role = s.edits.role.count; object = s.edits.object.count } };

    ghost invariant = { λ s. AreSpared s.edits };
}

impl StagedGrants {
    /// The changes, ready to be made on these grants.
    pub(crate) fn of(
        alloc: Global,
        grants: &Grants,
        changes: &[GrantChange],
    ) -> Result<StagedGrants, Memory>
        ensures { IfOk result (λ staged. staged ≡ record { changes = changes.now; system = length grants.now.system; role = length grants.now.role; object = length grants.now.object }) }
    {
        Ok(StagedGrants {
            edits: Edits::of(alloc, grants, changes)?,
            placeholder: Grants::new(alloc),
        })
    }

    /// Makes the changes on the grants. It takes no memory.
    pub(crate) fn make_on(self, grants: &mut Grants)
        requires { Fits self grants.old }
        ensures { grants.new ≡ applied_all self.changes grants.old }
    {
        let StagedGrants { edits, placeholder } = self;
        let present = mem::replace(grants, placeholder);
        *grants = edits.made(present);
    }
}
