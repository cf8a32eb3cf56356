//! System privileges.
ghost use Rattle.std.specs.Prelude.{◌≡◌, ◌==◌, ◌↔◌, Some};
ghost use Rattle.std.specs.List.{find};
ghost use Rattle.std.specs.Str.{bytes_eq};
ghost use Rattle.au_base.specs.declared.privilege.Privilege.{Privilege};
ghost use Rattle.au_base.specs.Privileges.{code_of, name_of};

/// A system privilege (SQL Language Reference, "GRANT"). The numbers are this project's, and stand
/// in the journal; lists of privileges are in their order.
#[derive(Clone, Copy, Debug, PartialEq, Eq, PartialOrd, Ord, Hash)]
pub enum Privilege {
    AlterUser = 1,
    AuditSystem = 2,
    CreateAnyTable = 3,
    CreateRole = 4,
    CreateSession = 5,
    CreateTable = 6,
    CreateUser = 7,
    DeleteAnyTable = 8,
    DropAnyRole = 9,
    DropAnyTable = 10,
    DropUser = 11,
    GrantAnyObjectPrivilege = 12,
    GrantAnyPrivilege = 13,
    GrantAnyRole = 14,
    InsertAnyTable = 15,
    SelectAnyTable = 16,
    UpdateAnyTable = 17,
}

impl Privilege {
    /// All privileges, in the order of their numbers.
    pub const EACH: [Privilege; 17] = [
        Privilege::AlterUser,
        Privilege::AuditSystem,
        Privilege::CreateAnyTable,
        Privilege::CreateRole,
        Privilege::CreateSession,
        Privilege::CreateTable,
        Privilege::CreateUser,
        Privilege::DeleteAnyTable,
        Privilege::DropAnyRole,
        Privilege::DropAnyTable,
        Privilege::DropUser,
        Privilege::GrantAnyObjectPrivilege,
        Privilege::GrantAnyPrivilege,
        Privilege::GrantAnyRole,
        Privilege::InsertAnyTable,
        Privilege::SelectAnyTable,
        Privilege::UpdateAnyTable,
    ];

    /// Its number.
    pub fn code(self) -> u8
        ensures { result ≡ code_of self }
    {
        self as u8
    }

    /// The privilege with that number.
    pub fn from_code(code: u8) -> Option<Privilege>
        ensures { (privilege : Privilege) → (result ≡ Some privilege) ↔ (code_of privilege ≡ code) }
    {
        first_with_code(&Privilege::EACH, code)
    }

    /// Its name in SYSTEM_PRIVILEGE_USED, in upper case.
    pub fn name(self) -> &'static str
        ensures { result.now ≡ name_of self }
    {
        match self {
            Privilege::AlterUser => "ALTER USER",
            Privilege::AuditSystem => "AUDIT SYSTEM",
            Privilege::CreateAnyTable => "CREATE ANY TABLE",
            Privilege::CreateRole => "CREATE ROLE",
            Privilege::CreateSession => "CREATE SESSION",
            Privilege::CreateTable => "CREATE TABLE",
            Privilege::CreateUser => "CREATE USER",
            Privilege::DeleteAnyTable => "DELETE ANY TABLE",
            Privilege::DropAnyRole => "DROP ANY ROLE",
            Privilege::DropAnyTable => "DROP ANY TABLE",
            Privilege::DropUser => "DROP USER",
            Privilege::GrantAnyObjectPrivilege => "GRANT ANY OBJECT PRIVILEGE",
            Privilege::GrantAnyPrivilege => "GRANT ANY PRIVILEGE",
            Privilege::GrantAnyRole => "GRANT ANY ROLE",
            Privilege::InsertAnyTable => "INSERT ANY TABLE",
            Privilege::SelectAnyTable => "SELECT ANY TABLE",
            Privilege::UpdateAnyTable => "UPDATE ANY TABLE",
        }
    }

    /// The privilege with that name.
    pub fn from_name(name: &[u8]) -> Option<Privilege>
        ensures { (privilege : Privilege) → (result ≡ Some privilege) ↔ (name_of privilege ≡ name.now) }
    {
        first_with_name(&Privilege::EACH, name)
    }
}

fn first_with_code(each: &[Privilege], code: u8) -> Option<Privilege>
    ensures { result ≡ find (λ privilege. code_of privilege == code) each.now }
{
    each.iter()
        .copied()
        .find(|privilege| privilege.code() == code)
}

fn first_with_name(each: &[Privilege], name: &[u8]) -> Option<Privilege>
    ensures { result ≡ find (λ privilege. bytes_eq (name_of privilege) name.now) each.now }
{
    each.iter()
        .copied()
        .find(|privilege| privilege.name().as_bytes() == name)
}
