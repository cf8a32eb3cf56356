//! Laws of rights.
ghost use Rattle.std.specs.Prelude.{◌≡◌, ◌≤◌};
ghost use Rattle.au_base.specs.declared.action.Action.{Action};
ghost use Rattle.au_base.specs.declared.grant.GrantStatement.{GrantStatement};
ghost use Rattle.au_base.specs.declared.table.TableName.{TableName};
ghost use Rattle.au_base.specs.Limits.{GRANTS};
ghost use Rattle.au_priv.specs.declared.allowed.Allowed.{Allowed};
ghost use Rattle.au_priv.specs.declared.decided.Decided.{Decided};
ghost use Rattle.au_priv.specs.declared.decided.Known.{Known};
ghost use Rattle.au_grants.specs.declared.grants.Grants.{Grants};
ghost use Rattle.au_grants.specs.Changing.{applied_all};
ghost use Rattle.au_priv.specs.Allowing.{AllowedIs};
ghost use Rattle.au_priv.specs.Deciding.{Decides};
ghost use Rattle.au_grants.specs.Rights.{HasNoCircle, Name, grant_count};

use au_grants::{changes_add_one_grant_at_most, changes_keep_no_circle};

/// What a user may do with a table, and by what, has one answer. It does nothing, and states the law
/// for its callers.
pub fn rights_have_one_answer()
    ensures { (grants : Grants) (user : Name) (table : TableName) (action : Action) (one other : Allowed) → AllowedIs grants user table action one → AllowedIs grants user table action other → one ≡ other }
{}

/// What is decided of GRANT or REVOKE leaves no more grants than there may be, and closes no circle of
/// roles. It does nothing, and states the law for its callers.
pub fn decisions_keep_limits()
    ensures few { (grants : Grants) (known : Known) (user : Name) (statement : GrantStatement) (decided : Decided)
        → Decides grants known user statement decided → grant_count grants ≤ GRANTS → grant_count (applied_all decided.grants grants) ≤ GRANTS }
    ensures no_circle { (grants : Grants) (known : Known) (user : Name) (statement : GrantStatement) (decided : Decided)
        → Decides grants known user statement decided → HasNoCircle grants.role → HasNoCircle (applied_all decided.grants grants).role }
{
    changes_add_one_grant_at_most();
    changes_keep_no_circle();
}
