//! How logons are decided.
ghost use Rattle.std.specs.Prelude.{◌≡◌, ◌&&◌, ◌∷◌, [], IfOk, IsTrue, if◌then◌else◌, map, not};
ghost use Rattle.au_base.specs.Order.{is_in_order, name_before};
ghost use Rattle.au_base.specs.declared.privilege.Privilege.{Privilege};
ghost use Rattle.au_define.specs.Users.{verifier};
ghost use Rattle.au_logon.specs.Admitting.{Admits, AdmitsUser, IsLocal, admission_of, has_password, has_verifier, is_password};

use crate::admission::Admission;
use crate::finding::has_verifier;
use crate::naming::user_of;
use au_base::built_in::SYS;
use au_base::limits::PASSWORD_BYTES;
use au_base::{Code, List, Memory, Name, Privilege, Text};
use au_define::verifier;
use au_grants::Grants;
use std::alloc::Global;

/// What is decided of a logon with these texts of a user and of a password. The users, each with the
/// verifier of its password, stand in byte order, and are halved until the one is found; `crowded`
/// says that no more sessions can be open.
pub fn admit(
    alloc: Global,
    users: &[(Name, [u8; 32])],
    grants: &Grants,
    crowded: bool,
    user: &Text,
    password: &Text,
) -> Result<Admission, Memory>
    requires order { IsTrue (is_in_order name_before (map (λ user. user.0) users.now)) }
    ensures { IfOk result (Admits users.now grants.now crowded user.now password.now) }
{
    let (nobody, name) = user_of(alloc, user)?;
    admit_user(alloc, users, grants, crowded, nobody, name, password)
}

// The same where the name is read, or nobody is named.
fn admit_user(
    alloc: Global,
    users: &[(Name, [u8; 32])],
    grants: &Grants,
    crowded: bool,
    nobody: bool,
    name: Name,
    password: &Text,
) -> Result<Admission, Memory>
    requires order { IsTrue (is_in_order name_before (map (λ user. user.0) users.now)) }
    ensures { IfOk result (AdmitsUser users.now grants.now crowded nobody name password.now) }
{
    let known = is_known(users, nobody, &name, password);
    let held = grants.holds_privilege(&name, Privilege::CreateSession);
    let admission = admission_of(alloc, known, held, crowded, name)?;
    Ok(admission)
}

// Whether the user is known by name and password.
fn is_known(users: &[(Name, [u8; 32])], nobody: bool, name: &Name, password: &Text) -> bool
    requires order { IsTrue (is_in_order name_before (map (λ user. user.0) users.now)) }
    ensures { result ≡ (not nobody && has_password users.now name.now password.now) }
{
    !nobody && has_password(users, name, password)
}

// Whether the text may be a password, and is that of the user of this name.
fn has_password(users: &[(Name, [u8; 32])], name: &Name, password: &Text) -> bool
    requires order { IsTrue (is_in_order name_before (map (λ user. user.0) users.now)) }
    ensures { result ≡ has_password users.now name.now password.now }
{
    is_password(password) && is_verified(users, name, password)
}

fn is_password(password: &Text) -> bool
    ensures { result ≡ is_password password.now }
{
    let bytes = password.as_bytes().len();
    1 <= bytes && bytes <= PASSWORD_BYTES
}

fn is_verified(users: &[(Name, [u8; 32])], name: &Name, password: &Text) -> bool
    requires order { IsTrue (is_in_order name_before (map (λ user. user.0) users.now)) }
    ensures { result ≡ has_verifier users.now name.now (verifier name.now password.now) }
{
    let verifier = verifier(name.as_str(), password.as_bytes());
    has_verifier(users, name, &verifier)
}

// What is decided by whether the user is known by name and password, holds CREATE SESSION, and no
// more sessions can be open.
fn admission_of(
    alloc: Global,
    known: bool,
    held: bool,
    crowded: bool,
    user: Name,
) -> Result<Admission, Memory>
    ensures { IfOk result (λ admission. admission ≡ admission_of known held crowded user) }
{
    let code = Code::first(&[
        (!known, Code::BAD_LOGON),
        (!held, Code::NO_CREATE_SESSION),
        (crowded, Code::TOO_MANY_SESSIONS),
    ]);
    let used = used_where(alloc, known && held)?;
    Ok(Admission { code, used, user })
}

fn used_where(alloc: Global, uses: bool) -> Result<List<Privilege>, Memory>
    ensures { IfOk result (λ used. used ≡ (if uses then Privilege.CreateSession ∷ [] else [])) }
{
    let mut used = List::new(alloc);
    if uses {
        used.push(Privilege::CreateSession)?;
    }
    Ok(used)
}

/// What is decided of LOCAL, which logs on as SYS; `crowded` says that no more sessions can be open.
pub fn admit_local(alloc: Global, crowded: bool) -> Result<Admission, Memory>
    ensures { IfOk result (IsLocal crowded) }
{
    Ok(Admission {
        code: Code::first(&[(crowded, Code::TOO_MANY_SESSIONS)]),
        used: List::new(alloc),
        user: Name::from_str(alloc, SYS)?,
    })
}
