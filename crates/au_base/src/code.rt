//! Return codes.
ghost use Rattle.std.specs.Prelude.{◌≡◌, Bool};
ghost use Rattle.std.specs.List.{find};
ghost use Rattle.au_base.specs.declared.code.Code.{Code};
ghost use Rattle.au_base.specs.FirstCode.{first_code};

/// The return code of a statement: 0, or the number of the first rule that it breaks.
///
/// The numbers are this project's own table, chosen near Oracle's; docs/CODES.md says when each
/// comes.
#[derive(Clone, Copy, Debug, PartialEq, Eq, PartialOrd, Ord, Hash)]
pub struct Code(pub u32);

impl Code {
    /// The statement was done.
    pub const DONE: Code = Code(0);
    /// A row with this key is present.
    pub const KEY_PRESENT: Code = Code(1);
    /// Too many sessions are open, or were.
    pub const TOO_MANY_SESSIONS: Code = Code(18);
    /// The row, the key or the table is locked by another session.
    pub const LOCKED: Code = Code(54);
    /// The text has no reading.
    pub const NOT_READ: Code = Code(900);
    /// No such column.
    pub const UNKNOWN_COLUMN: Code = Code(904);
    /// More values than columns.
    pub const TOO_MANY_VALUES: Code = Code(913);
    /// The column is in more than one table.
    pub const AMBIGUOUS_COLUMN: Code = Code(918);
    /// An expression of the wrong kind.
    pub const WRONG_KIND: Code = Code(932);
    /// No such table for this user.
    pub const NO_SUCH_TABLE: Code = Code(942);
    /// Fewer values than columns.
    pub const TOO_FEW_VALUES: Code = Code(947);
    /// The name is used already.
    pub const NAME_USED: Code = Code(955);
    /// A column is named twice.
    pub const COLUMN_TWICE: Code = Code(957);
    /// The client has no session.
    pub const NOT_LOGGED_ON: Code = Code(1012);
    /// The user or the password is wrong.
    pub const BAD_LOGON: Code = Code(1017);
    /// A privilege is missing.
    pub const PRIVILEGE_MISSING: Code = Code(1031);
    /// The user may not log on: CREATE SESSION is missing.
    pub const NO_CREATE_SESSION: Code = Code(1045);
    /// NULL is inserted into a column that is NOT NULL.
    pub const NULL_INSERTED: Code = Code(1400);
    /// A column that is NOT NULL is set to NULL.
    pub const NULL_SET: Code = Code(1407);
    /// A number has over 18 digits.
    pub const OVERFLOW: Code = Code(1426);
    /// A number is too wide for its column.
    pub const NUMBER_TOO_WIDE: Code = Code(1438);
    /// No such user or role to grant to.
    pub const NO_SUCH_GRANTEE: Code = Code(1917);
    /// No such user.
    pub const NO_SUCH_USER: Code = Code(1918);
    /// No such role.
    pub const NO_SUCH_ROLE: Code = Code(1919);
    /// The name of a new user is used already.
    pub const USER_NAME_USED: Code = Code(1920);
    /// The name of a new role is used already.
    pub const ROLE_NAME_USED: Code = Code(1921);
    /// The user owns tables.
    pub const USER_OWNS_TABLES: Code = Code(1922);
    /// An object privilege was not granted.
    pub const OBJECT_PRIVILEGE_NOT_GRANTED: Code = Code(1927);
    /// The grant would close a circle of roles.
    pub const CIRCULAR_ROLE_GRANT: Code = Code(1934);
    /// The user is connected.
    pub const USER_CONNECTED: Code = Code(1940);
    /// A role was not granted.
    pub const ROLE_NOT_GRANTED: Code = Code(1951);
    /// A system privilege was not granted.
    pub const PRIVILEGE_NOT_GRANTED: Code = Code(1952);
    /// A second primary key.
    pub const SECOND_PRIMARY_KEY: Code = Code(2260);
    /// A text is too long for its column.
    pub const TEXT_TOO_LONG: Code = Code(12899);
    /// The fine-grained policy is there already.
    pub const FINE_GRAINED_POLICY_PRESENT: Code = Code(28101);
    /// No such fine-grained policy.
    pub const NO_SUCH_FINE_GRAINED_POLICY: Code = Code(28102);
    /// A bad argument of a package call.
    pub const BAD_ARGUMENT: Code = Code(28104);
    /// A bad argument of DBMS_AUDIT_MGMT.
    pub const BAD_MANAGEMENT_ARGUMENT: Code = Code(46250);
    /// The audit policy is enabled in the other mode.
    pub const OTHER_MODE: Code = Code(46350);
    /// The audit policy is not enabled in this way.
    pub const NOT_ENABLED_SO: Code = Code(46351);
    /// No such audit policy.
    pub const NO_SUCH_POLICY: Code = Code(46357);
    /// The audit policy is there already.
    pub const POLICY_PRESENT: Code = Code(46358);
    /// The audit policy is enabled.
    pub const POLICY_ENABLED: Code = Code(46361);
    /// The audit trail can't be written.
    pub const TRAIL_READ_ONLY: Code = Code(46385);
    /// Too many tables in FROM, or too many combinations of rows.
    pub const TOO_MANY_COMBINATIONS: Code = Code(99001);
    /// Too many rows in a reply.
    pub const TOO_MANY_ROWS: Code = Code(99002);
    /// Too many objects of a kind.
    pub const TOO_MANY_OBJECTS: Code = Code(99003);
    /// Too many row numbers in a table.
    pub const TOO_MANY_ROW_NUMBERS: Code = Code(99004);
    /// The condition of an audit policy is not read, or is not allowed.
    pub const BAD_CONDITION: Code = Code(99005);
    /// Too many parentheses are open.
    pub const TOO_DEEP: Code = Code(99006);
    /// The text of a statement is too long.
    pub const STATEMENT_TOO_LONG: Code = Code(99007);
    /// The client has a session.
    pub const SESSION_PRESENT: Code = Code(99008);
    /// Too many changes in a transaction.
    pub const TOO_MANY_CHANGES: Code = Code(99009);
    /// The audit policy would have no part. It comes with ALTER AUDIT POLICY, which isn't built
    /// yet.
    pub const NO_PART_LEFT: Code = Code(99010);
    /// The purge job is there already. It comes with DBMS_AUDIT_MGMT.CREATE_PURGE_JOB, which isn't
    /// built yet.
    pub const JOB_PRESENT: Code = Code(99011);
    /// No such purge job. It comes with the other procedures of DBMS_AUDIT_MGMT that name a job,
    /// which aren't built yet.
    pub const NO_SUCH_JOB: Code = Code(99012);

    /// The code of the first rule that is broken, where each rule is whether it is broken and its
    /// code; `DONE` where none is.
    #[tactic(auto, using(crate::proofs::FirstRule::found, crate::proofs::FirstRule::missed))]
    pub fn first(rules: &[(bool, Code)]) -> Code
        ensures { result ≡ first_code rules.now }
    {
        match first_broken(rules) {
            Some((_, code)) => code,
            None => Code::DONE,
        }
    }
}

fn first_broken(rules: &[(bool, Code)]) -> Option<(bool, Code)>
    ensures { result ≡ find (λ (rule : Bool × Code). rule.0) rules.now }
{
    rules.iter().copied().find(|rule| rule.0)
}
