//! How GRANT and REVOKE are decided.
ghost use Rattle.std.specs.Prelude.{◌≡◌, ◌≢◌, ◌≤◌, ◌↔◌, ◌⊎◌, ◌++◌, ◌∷◌, [], IfOk, IsTrue, MatchOption, MatchResult, if◌then◌else◌};
ghost use Rattle.std.specs.List.{Contains};
ghost use Rattle.au_base.specs.declared.code.Code.{Code};
ghost use Rattle.au_base.specs.declared.privilege.Privilege.{Privilege};
ghost use Rattle.au_base.specs.Codes.{PRIVILEGE_MISSING};
ghost use Rattle.au_base.specs.Limits.{GRANTS};
ghost use Rattle.au_grants.specs.Changing.{applied_all};
ghost use Rattle.au_grants.specs.Holding.{Holds};
ghost use Rattle.au_priv.specs.descent.Asking.{AreNeeded, AreNeededHeld, AreNeededWith, IsNeededWith};
ghost use Rattle.au_priv.specs.Deciding.{Decides, DecidesOnTable, DecidesPairs, DecidesRights, FirstRefused, IsBuiltIn, IsNoRole, IsUsedOnTable, NoneRefused, RefusesGrantee, RefusesRight, RefusesTable};
ghost use Rattle.au_priv.specs.Pairs.{object_pair, pairs, right_pair};
ghost use Rattle.au_grants.specs.Rights.{HasNoCircle, HoldsPrivilege, grant_count};

use crate::decided::{Decided, Known};
use crate::judging::{judge_object_rights, judge_rights};
use crate::pair::Way;
use au_base::{Code, GrantStatement, List, Memory, Name, ObjectRight, Privilege, Right, TableName};
use au_grants::{
    GrantChange, Grants, Sought, changes_add_one_grant_at_most, changes_keep_no_circle,
};
use std::alloc::Global;

/// What a statement is decided by: the grants before it, what is there, and who asks.
#[derive(Clone, Copy)]
struct Case<'a> {
    grants: &'a Grants,
    known: &'a Known,
    user: &'a Name,
}

/// Which of the system privileges by which every right of a kind may be granted and revoked a
/// statement needs.
#[derive(Clone, Copy)]
struct Needed {
    /// GRANT ANY PRIVILEGE.
    privilege: bool,
    /// GRANT ANY ROLE.
    role: bool,
}

/// What is decided of a statement GRANT or REVOKE of the user, by these grants and what is there.
pub fn decide(
    alloc: Global,
    grants: &Grants,
    user: &Name,
    statement: &GrantStatement,
    known: &Known,
) -> Result<Decided, Memory>
    ensures decided { IfOk result (Decides grants.now known.now user.now statement.now) }
    ensures few { IfOk result (λ decided. grant_count (applied_all decided.grants grants.now) ≤ GRANTS) }
    ensures no_circle { IfOk result (λ decided. HasNoCircle grants.now.role → HasNoCircle (applied_all decided.grants grants.now).role) }
{
    changes_add_one_grant_at_most();
    changes_keep_no_circle();
    // says that there are 100,000 grants at most
    let _ = grants.count();
    let case = Case {
        grants,
        known,
        user,
    };
    decide_statement(alloc, case, statement)
}

fn decide_statement(
    alloc: Global,
    case: Case<'_>,
    statement: &GrantStatement,
) -> Result<Decided, Memory>
    ensures { IfOk result (Decides case.entry.grants.now case.entry.known.now case.entry.user.now statement.now) }
{
    match statement {
        GrantStatement::Grant {
            rights,
            grantees,
            with_admin_option,
        } => decide_rights(
            alloc,
            case,
            Way::Grant(*with_admin_option),
            rights.as_slice(),
            grantees.as_slice(),
        ),
        GrantStatement::Revoke { rights, grantees } => {
            decide_rights(
                alloc,
                case,
                Way::Revoke,
                rights.as_slice(),
                grantees.as_slice(),
            )
        }
        GrantStatement::GrantObject {
            rights,
            table,
            grantees,
        } => {
            let table = table.resolved(alloc, case.user)?;
            decide_on_table(
                alloc,
                case,
                Way::Grant(false),
                &table,
                rights.as_slice(),
                grantees.as_slice(),
            )
        }
        GrantStatement::RevokeObject {
            rights,
            table,
            grantees,
        } => {
            let table = table.resolved(alloc, case.user)?;
            decide_on_table(
                alloc,
                case,
                Way::Revoke,
                &table,
                rights.as_slice(),
                grantees.as_slice(),
            )
        }
    }
}

fn decide_rights(
    alloc: Global,
    case: Case<'_>,
    way: Way,
    rights: &[Right],
    grantees: &[Name],
) -> Result<Decided, Memory>
    ensures { IfOk result (DecidesRights case.entry.grants.now case.entry.known.now case.entry.user.now way rights.now grantees.now) }
{
    match needed_for(case, rights) {
        Ok(needed) => {
            let used = used_of(alloc, needed)?;
            let (code, grants) = decide_right_pairs(alloc, case, way, rights, grantees)?;
            Ok(Decided { code, used, grants })
        }
        Err(code) => Ok(refused(alloc, code)),
    }
}

fn decide_right_pairs(
    alloc: Global,
    case: Case<'_>,
    way: Way,
    rights: &[Right],
    grantees: &[Name],
) -> Result<(Code, List<GrantChange>), Memory>
    ensures { IfOk result (λ decided. DecidesPairs case.entry.grants.now case.entry.known.now grantees.now (pairs (right_pair way) rights.now grantees.now) decided.0 decided.1) }
{
    if let Some(code) = grantees_refusal(case.known, grantees) {
        return Ok((code, List::new(alloc)));
    }
    match judge_rights(alloc, case.grants, way, rights, grantees)? {
        Ok(changes) => Ok((Code::DONE, changes)),
        Err(code) => Ok((code, List::new(alloc))),
    }
}

fn decide_on_table(
    alloc: Global,
    case: Case<'_>,
    way: Way,
    table: &TableName,
    rights: &[ObjectRight],
    grantees: &[Name],
) -> Result<Decided, Memory>
    ensures { IfOk result (DecidesOnTable case.entry.grants.now case.entry.known.now case.entry.user.now way table.now rights.now grantees.now) }
{
    if let Some(code) = table_refusal(case, table) {
        return Ok(refused(alloc, code));
    }
    let used = used_on_table(alloc, case.user, table)?;
    let (code, grants) = decide_object_pairs(alloc, case, way, table, rights, grantees)?;
    Ok(Decided { code, used, grants })
}

fn decide_object_pairs(
    alloc: Global,
    case: Case<'_>,
    way: Way,
    table: &TableName,
    rights: &[ObjectRight],
    grantees: &[Name],
) -> Result<(Code, List<GrantChange>), Memory>
    ensures { IfOk result (λ decided. DecidesPairs case.entry.grants.now case.entry.known.now grantees.now (pairs (object_pair way table.now) rights.now grantees.now) decided.0 decided.1) }
{
    if let Some(code) = grantees_refusal(case.known, grantees) {
        return Ok((code, List::new(alloc)));
    }
    match judge_object_rights(alloc, case.grants, way, table, rights, grantees)? {
        Ok(changes) => Ok((Code::DONE, changes)),
        Err(code) => Ok((code, List::new(alloc))),
    }
}

fn refused(alloc: Global, code: Code) -> Decided
    ensures { result ≡ record { code = code; used = []; grants = [] } }
{
    Decided {
        code,
        used: List::new(alloc),
        grants: List::new(alloc),
    }
}

// The refusal of the first right that is refused, or what the rights need.
fn needed_for(case: Case<'_>, rights: &[Right]) -> Result<Needed, Code>
    ensures { let Refuses = RefusesRight case.entry.grants.now case.entry.known.now case.entry.user.now in MatchResult result (λ needed. NoneRefused Refuses rights.now × AreNeeded case.entry.grants.now case.entry.user.now rights.now needed.privilege needed.role) (FirstRefused Refuses rights.now) }
{
    let mut needed = Needed {
        privilege: false,
        role: false,
    };
    for right in rights {
        needed = with_right(case, needed, right)?;
    }
    Ok(needed)
}

// What is needed with one right more, or its refusal.
fn with_right(case: Case<'_>, needed: Needed, right: &Right) -> Result<Needed, Code>
    requires { AreNeededHeld case.grants.now case.user.now needed.privilege needed.role }
    ensures { let Refuses = RefusesRight case.entry.grants.now case.entry.known.now case.entry.user.now right.now in MatchResult result (λ next. ((code : Code) → ¬ Refuses code) × AreNeededWith case.entry.grants.now case.entry.user.now right.now needed.privilege needed.role next.privilege next.role) Refuses }
{
    if is_no_role(case.known, right) {
        return Err(Code::NO_SUCH_ROLE);
    }
    match right {
        Right::Privilege(privilege) => {
            let right = Sought::PrivilegeWithAdmin(*privilege);
            let any = Privilege::GrantAnyPrivilege;
            Ok(Needed {
                privilege: is_needed(case, needed.privilege, right, any)?,
                role: needed.role,
            })
        }
        Right::Role(role) => {
            let right = Sought::RoleWithAdmin(role.as_str());
            let any = Privilege::GrantAnyRole;
            Ok(Needed {
                privilege: needed.privilege,
                role: is_needed(case, needed.role, right, any)?,
            })
        }
    }
}

// Whether the system privilege for every right of a kind is needed, for a right of the kind or
// already, or the refusal of the right. Who needs it already isn't asked for the right.
fn is_needed(case: Case<'_>, needed: bool, right: Sought<'_>, any: Privilege) -> Result<bool, Code>
    requires { IsTrue needed → HoldsPrivilege case.grants.now case.user.now any }
    ensures { MatchResult result (λ next. IsNeededWith case.entry.grants.now case.entry.user.now needed right.entry any next) (λ code. (¬ Holds case.entry.grants.now case.entry.user.now right.entry) × (¬ HoldsPrivilege case.entry.grants.now case.entry.user.now any) × (code ≡ PRIVILEGE_MISSING)) }
{
    if needed {
        return Ok(true);
    }
    match case
        .grants
        .first_right(case.user, &[right, Sought::Privilege(any)])
    {
        Some(0) => Ok(false),
        Some(_) => Ok(true),
        None => Err(Code::PRIVILEGE_MISSING),
    }
}

fn is_no_role(known: &Known, right: &Right) -> bool
    ensures { IsTrue result ↔ IsNoRole known.now right.now }
{
    match right {
        Right::Privilege(_) => false,
        Right::Role(role) => !is_among(known.roles.as_slice(), role),
    }
}

fn grantees_refusal(known: &Known, grantees: &[Name]) -> Option<Code>
    ensures { MatchOption result (NoneRefused (RefusesGrantee known.now) grantees.now) (FirstRefused (RefusesGrantee known.now) grantees.now) }
{
    for grantee in grantees {
        if !is_grantee(known, grantee) {
            return Some(Code::NO_SUCH_GRANTEE);
        }
    }
    None
}

fn is_grantee(known: &Known, name: &Name) -> bool
    ensures { IsTrue result ↔ (Contains known.now.users name.now ⊎ Contains known.now.roles name.now) }
{
    is_among(known.users.as_slice(), name) || is_among(known.roles.as_slice(), name)
}

fn is_among(names: &[Name], name: &Name) -> bool
    ensures { IsTrue result ↔ Contains names.now name.now }
{
    names.contains(name)
}

fn is_table_among(tables: &[TableName], table: &TableName) -> bool
    ensures { IsTrue result ↔ Contains tables.now table.now }
{
    tables.contains(table)
}

fn used_of(alloc: Global, needed: Needed) -> Result<List<Privilege>, Memory>
    ensures { IfOk result (λ used. used ≡ (if needed.privilege then Privilege.GrantAnyPrivilege ∷ [] else []) ++ (if needed.role then Privilege.GrantAnyRole ∷ [] else [])) }
{
    let mut used = List::new(alloc);
    if needed.privilege {
        used.push(Privilege::GrantAnyPrivilege)?;
    }
    if needed.role {
        used.push(Privilege::GrantAnyRole)?;
    }
    Ok(used)
}

fn table_refusal(case: Case<'_>, table: &TableName) -> Option<Code>
    ensures { let Refuses = RefusesTable case.entry.grants.now case.entry.known.now case.entry.user.now table.now in MatchOption result ((code : Code) → ¬ Refuses code) Refuses }
{
    if is_built_in(table) {
        return Some(Code::PRIVILEGE_MISSING);
    }
    if !is_table_among(case.known.tables.as_slice(), table) {
        return Some(Code::NO_SUCH_TABLE);
    }
    if *case.user == table.owner {
        return None;
    }
    privilege_refusal(case, table)
}

// The refusal on a table that is there, of a user who doesn't own it.
fn privilege_refusal(case: Case<'_>, table: &TableName) -> Option<Code>
    requires not_built_in { ¬ IsBuiltIn table.now }
    requires there { Contains case.known.now.tables table.now }
    requires other { case.user.now ≢ table.now.owner }
    ensures { let Refuses = RefusesTable case.entry.grants.now case.entry.known.now case.entry.user.now table.now in MatchOption result ((code : Code) → ¬ Refuses code) Refuses }
{
    let rights = [
        Sought::Privilege(Privilege::GrantAnyObjectPrivilege),
        Sought::SomeObject(&*table),
        Sought::AnyTable,
    ];
    match case.grants.first_right(case.user, &rights) {
        Some(0) => None,
        Some(_) => Some(Code::PRIVILEGE_MISSING),
        None => Some(Code::NO_SUCH_TABLE),
    }
}

fn is_built_in(table: &TableName) -> bool
    ensures { IsTrue result ↔ IsBuiltIn table.now }
{
    table.is_dual() || table.is_trail()
}

fn used_on_table(alloc: Global, user: &Name, table: &TableName) -> Result<List<Privilege>, Memory>
    ensures { IfOk result (IsUsedOnTable user.now table.now) }
{
    let mut used = List::new(alloc);
    if *user != table.owner {
        used.push(Privilege::GrantAnyObjectPrivilege)?;
    }
    Ok(used)
}
