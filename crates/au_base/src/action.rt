//! Actions that are audited.
ghost use Rattle.std.specs.Prelude.{◌≡◌, ◌==◌, ◌↔◌, Some};
ghost use Rattle.std.specs.List.{find};
ghost use Rattle.std.specs.Str.{bytes_eq};
ghost use Rattle.au_base.specs.declared.action.Action.{Action};
ghost use Rattle.au_base.specs.Actions.{code_of, name_of};

/// What a statement does, as the audit trail names it (Database Security Guide, "Auditing
/// Commonly Used SQL Statements"). The numbers are this project's, and stand in the journal.
#[derive(Clone, Copy, Debug, PartialEq, Eq, PartialOrd, Ord, Hash)]
pub enum Action {
    /// Any action. It stands only in the parts of audit policies.
    All = 0,
    Select = 1,
    Insert = 2,
    Update = 3,
    Delete = 4,
    Commit = 5,
    Rollback = 6,
    CreateTable = 7,
    DropTable = 8,
    CreateUser = 9,
    AlterUser = 10,
    DropUser = 11,
    CreateRole = 12,
    DropRole = 13,
    Grant = 14,
    Revoke = 15,
    CreateAuditPolicy = 16,
    DropAuditPolicy = 17,
    Audit = 18,
    Noaudit = 19,
    /// A call of a package's procedure.
    Execute = 20,
    Logon = 21,
    Logoff = 22,
}

impl Action {
    /// All actions, in the order of their numbers.
    pub const EACH: [Action; 23] = [
        Action::All,
        Action::Select,
        Action::Insert,
        Action::Update,
        Action::Delete,
        Action::Commit,
        Action::Rollback,
        Action::CreateTable,
        Action::DropTable,
        Action::CreateUser,
        Action::AlterUser,
        Action::DropUser,
        Action::CreateRole,
        Action::DropRole,
        Action::Grant,
        Action::Revoke,
        Action::CreateAuditPolicy,
        Action::DropAuditPolicy,
        Action::Audit,
        Action::Noaudit,
        Action::Execute,
        Action::Logon,
        Action::Logoff,
    ];

    /// Its number.
    pub fn code(self) -> u8
        ensures { result ≡ code_of self }
    {
        self as u8
    }

    /// The action with that number.
    pub fn from_code(code: u8) -> Option<Action>
        ensures { (action : Action) → (result ≡ Some action) ↔ (code_of action ≡ code) }
    {
        first_with_code(&Action::EACH, code)
    }

    /// Its name in ACTION_NAME, in upper case.
    pub fn name(self) -> &'static str
        ensures { result.now ≡ name_of self }
    {
        match self {
            Action::All => "ALL",
            Action::Select => "SELECT",
            Action::Insert => "INSERT",
            Action::Update => "UPDATE",
            Action::Delete => "DELETE",
            Action::Commit => "COMMIT",
            Action::Rollback => "ROLLBACK",
            Action::CreateTable => "CREATE TABLE",
            Action::DropTable => "DROP TABLE",
            Action::CreateUser => "CREATE USER",
            Action::AlterUser => "ALTER USER",
            Action::DropUser => "DROP USER",
            Action::CreateRole => "CREATE ROLE",
            Action::DropRole => "DROP ROLE",
            Action::Grant => "GRANT",
            Action::Revoke => "REVOKE",
            Action::CreateAuditPolicy => "CREATE AUDIT POLICY",
            Action::DropAuditPolicy => "DROP AUDIT POLICY",
            Action::Audit => "AUDIT",
            Action::Noaudit => "NOAUDIT",
            Action::Execute => "EXECUTE",
            Action::Logon => "LOGON",
            Action::Logoff => "LOGOFF",
        }
    }

    /// The action with that name.
    pub fn from_name(name: &[u8]) -> Option<Action>
        ensures { (action : Action) → (result ≡ Some action) ↔ (name_of action ≡ name.now) }
    {
        first_with_name(&Action::EACH, name)
    }
}

fn first_with_code(each: &[Action], code: u8) -> Option<Action>
    ensures { result ≡ find (λ action. code_of action == code) each.now }
{
    each.iter().copied().find(|action| action.code() == code)
}

fn first_with_name(each: &[Action], name: &[u8]) -> Option<Action>
    ensures { result ≡ find (λ action. bytes_eq (name_of action) name.now) each.now }
{
    each.iter()
        .copied()
        .find(|action| action.name().as_bytes() == name)
}
