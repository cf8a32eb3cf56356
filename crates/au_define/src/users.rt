//! How CREATE USER, ALTER USER and DROP USER are decided.
ghost use Rattle.std.specs.Prelude.{◌≡◌, ◌&&◌, ◌∷◌, [], IfOk, if◌then◌else◌};
ghost use Rattle.std.specs.List.{list_any};
ghost use Rattle.std.specs.Str.{bytes_eq};
ghost use Rattle.au_entries.specs.declared.change.Change.{Change};
ghost use Rattle.au_define.specs.Settings.{IsSorted, lent};
ghost use Rattle.au_define.specs.Users.{DecidesAlterUser, DecidesCreateUser, DecidesDropUser, alter_user, create_user, drop_user, new_verifier, verifier};

use crate::case::Case;
use crate::looking::{has_user, is_connected, is_full, is_taken, owns_table};
use crate::rules::{decide_by, needed, only, unless};
use au_base::built_in::SYS;
use au_base::{Code, List, Memory, Name, Privilege, Text};
use au_entries::{Change, Decision};
use sha2::{Digest, Sha256};
use sql_ast::Password;
use std::alloc::Global;

/// What is decided of CREATE USER with this name and password.
pub fn create_user(
    alloc: Global,
    case: &Case<'_>,
    name: &Name,
    password: &Password,
) -> Result<Decision, Memory>
    requires order { IsSorted case.now }
    ensures { IfOk result (DecidesCreateUser (lent case.now) name.now password.now) }
{
    let held = case
        .grants
        .holds_privilege(case.user, Privilege::CreateUser);
    create_user_by(alloc, case, held, name, &password.text)
}

fn create_user_by(
    alloc: Global,
    case: &Case<'_>,
    held: bool,
    name: &Name,
    password: &Text,
) -> Result<Decision, Memory>
    requires order { IsSorted case.now }
    ensures { IfOk result (λ decision. decision ≡ create_user held (lent case.now) name.now password.now) }
{
    let rights = [(!held, Code::PRIVILEGE_MISSING)];
    let others = [
        (is_taken(case, name), Code::USER_NAME_USED),
        (is_full(case.users.len()), Code::TOO_MANY_OBJECTS),
    ];
    let used = needed(alloc, false, Privilege::CreateUser)?;
    let changes = only(alloc, with_password(name, password)?)?;
    Ok(decide_by(alloc, &rights, &others, used, changes))
}

fn with_password(name: &Name, password: &Text) -> Result<Change, Memory>
    ensures { IfOk result (λ change. change ≡ Change.User name.now (verifier name.now password.now)) }
{
    let verifier = verifier(name.as_str(), password.as_bytes());
    Ok(Change::User(name.clone()?, verifier))
}

/// The verifier of a user's password: SHA-256 of the name, a byte 0 and the password (FIPS 180-4,
/// section 6.2).
pub fn verifier(user: &str, password: &[u8]) -> [u8; 32]
    ensures { result ≡ verifier user.now password.now }
{
    let mut hasher = Sha256::new();
    hasher.update(user.as_bytes());
    hasher.update(b"\0".as_slice());
    hasher.update(password);
    hasher.finalize()
}

/// What is decided of ALTER USER with this name and password.
pub fn alter_user(
    alloc: Global,
    case: &Case<'_>,
    name: &Name,
    password: &Password,
) -> Result<Decision, Memory>
    requires order { IsSorted case.now }
    ensures { IfOk result (DecidesAlterUser (lent case.now) name.now password.now) }
{
    let held = case.grants.holds_privilege(case.user, Privilege::AlterUser);
    alter_user_by(alloc, case, held, name, &password.text)
}

fn alter_user_by(
    alloc: Global,
    case: &Case<'_>,
    held: bool,
    name: &Name,
    password: &Text,
) -> Result<Decision, Memory>
    requires order { IsSorted case.now }
    ensures { IfOk result (λ decision. decision ≡ alter_user held (lent case.now) name.now password.now) }
{
    let own = *name == *case.user;
    let rights = [(!own && !held, Code::PRIVILEGE_MISSING)];
    let others = [(!has_user(case, name), Code::NO_SUCH_USER)];
    let used = needed(alloc, own, Privilege::AlterUser)?;
    let changes = new_password(alloc, case, name, password)?;
    Ok(decide_by(alloc, &rights, &others, used, changes))
}

// A password that the user has already changes nothing.
fn new_password(
    alloc: Global,
    case: &Case<'_>,
    name: &Name,
    password: &Text,
) -> Result<List<Change>, Memory>
    ensures { IfOk result (λ changes. changes ≡ new_verifier (lent case.now) name.now (verifier name.now password.now)) }
{
    let verifier = verifier(name.as_str(), password.as_bytes());
    new_verifier(alloc, case.users, name, verifier)
}

fn new_verifier(
    alloc: Global,
    users: &[(Name, [u8; 32])],
    name: &Name,
    verifier: [u8; 32],
) -> Result<List<Change>, Memory>
    ensures { IfOk result (λ changes. changes ≡ (if list_any (λ user. bytes_eq user.0 name.now && bytes_eq user.1 verifier) users.now then [] else Change.User name.now verifier ∷ [])) }
{
    let same = has_verifier(users, name, &verifier);
    let change = Change::User(name.clone()?, verifier);
    unless(alloc, same, change)
}

fn has_verifier(users: &[(Name, [u8; 32])], name: &Name, verifier: &[u8; 32]) -> bool
    ensures { result ≡ list_any (λ user. bytes_eq user.0 name.now && bytes_eq user.1 verifier.now) users.now }
{
    users
        .iter()
        .any(|user| user.0 == *name && user.1 == *verifier)
}

/// What is decided of DROP USER with this name.
pub fn drop_user(alloc: Global, case: &Case<'_>, name: &Name) -> Result<Decision, Memory>
    requires order { IsSorted case.now }
    ensures { IfOk result (DecidesDropUser (lent case.now) name.now) }
{
    let held = case.grants.holds_privilege(case.user, Privilege::DropUser);
    drop_user_by(alloc, case, held, name)
}

fn drop_user_by(alloc: Global, case: &Case<'_>, held: bool, name: &Name) -> Result<Decision, Memory>
    requires order { IsSorted case.now }
    ensures { IfOk result (λ decision. decision ≡ drop_user held (lent case.now) name.now) }
{
    let rights = [(!held, Code::PRIVILEGE_MISSING)];
    let others = [
        (name.as_str() == SYS, Code::PRIVILEGE_MISSING),
        (!has_user(case, name), Code::NO_SUCH_USER),
        (is_connected(case, name), Code::USER_CONNECTED),
        (owns_table(case, name), Code::USER_OWNS_TABLES),
    ];
    let used = needed(alloc, false, Privilege::DropUser)?;
    let changes = only(alloc, Change::UserGone(name.clone()?))?;
    Ok(decide_by(alloc, &rights, &others, used, changes))
}
