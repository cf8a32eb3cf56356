//! The limits of the product. docs/CODES.md says what comes beyond each.

/// The most bytes of a name.
pub const NAME_BYTES: usize = 128;

/// The most bytes of a password.
pub const PASSWORD_BYTES: usize = 128;

/// The most bytes of a statement's text.
pub const STATEMENT_BYTES: usize = 32_767;

/// The most parentheses that are open at one place.
pub const OPEN_PARENTHESES: usize = 100;

/// The most tables in one FROM.
pub const FROM_TABLES: usize = 8;

/// The most combinations of rows that one query goes over.
pub const COMBINATIONS: u64 = 10_000_000;

/// The most rows of a reply.
pub const REPLY_ROWS: usize = 100_000;

/// The most users, and as many roles, tables, audit policies and fine-grained policies.
pub const CATALOG_OBJECTS: usize = 10_000;

/// The most grants of all kinds together.
pub const GRANTS: usize = 100_000;

/// The most columns of a table.
pub const TABLE_COLUMNS: usize = 64;

/// The most digits of a number, and the widest NUMBER column.
pub const NUMBER_DIGITS: u16 = 18;

/// The widest VARCHAR2 column, in bytes.
pub const TEXT_COLUMN_BYTES: u16 = 4_000;

/// The digits behind the point of a second, and the size of a TIMESTAMP column.
pub const MOMENT_DIGITS: u16 = 6;

/// The most row numbers of a table that committed rows and open transactions name.
pub const TABLE_ROW_NUMBERS: u32 = 1_000_000;

/// The last row number of a table.
pub const LAST_ROW_NUMBER: u32 = 4_294_967_295;

/// The most changes in one transaction.
pub const TRANSACTION_CHANGES: usize = 100_000;

/// The most sessions that are open at once.
pub const OPEN_SESSIONS: usize = 256;

/// The most sessions of an instance, and the number of its last one.
pub const INSTANCE_SESSIONS: u32 = 999_999_999;

/// The last number of an instance.
pub const INSTANCES: u32 = 999_999_999;

/// Where ENTRY_ID and STATEMENT_ID of a session stop rising.
pub const SESSION_COUNT: u32 = 999_999_999;

/// The most audit policies that one record names: all of the catalogue, and ORA$MANDATORY.
pub const RECORD_POLICIES: usize = 10_001;

/// The least limit of a journal area, in bytes.
pub const JOURNAL_LIMIT_MIN: u32 = 400;

/// The greatest limit of a journal area, in bytes.
pub const JOURNAL_LIMIT_MAX: u32 = 2_147_483_647;

/// The limit of a journal area that names none, in bytes.
pub const JOURNAL_LIMIT_DEFAULT: u32 = 1_073_741_824;

/// The most bytes of a script.
pub const SCRIPT_BYTES: u64 = 4_294_967_295;

/// The most bytes of a script's line, without its end.
pub const LINE_BYTES: usize = 65_536;

/// The most bytes of a request's head.
pub const HEAD_BYTES: usize = 8_192;

/// The most fields of a request's head.
pub const HEAD_FIELDS: usize = 64;

/// The most bytes of a request's body.
pub const BODY_BYTES: usize = 262_144;

/// The deepest nesting of a request's JSON body.
pub const BODY_DEPTH: usize = 127;

/// The most connections that one `serve` hands out, and the number of its last client. After the
/// last it ends.
pub const CONNECTIONS: u32 = 4_294_967_295;

/// The most workers of `serve`. Beyond it the words are no command.
pub const WORKERS: u32 = 64;

/// The most rows of `sample`. Beyond it the words are no command.
pub const SAMPLE_ROWS: u32 = 100_000;

/// The most action parts of an audit policy. Beyond it 99003; it comes with ALTER AUDIT POLICY,
/// which isn't built yet.
pub const ACTION_PARTS: usize = 10_000;

/// The most role parts of an audit policy. Beyond it 99003; it comes with ALTER AUDIT POLICY, which
/// isn't built yet.
pub const ROLE_PARTS: usize = 10_000;

/// The most bytes of a session's client identifier. Beyond it 28104; it comes with
/// DBMS_SESSION.SET_IDENTIFIER, which isn't built yet.
pub const IDENTIFIER_BYTES: usize = 64;

/// The most purge jobs. Beyond it 99003; it comes with DBMS_AUDIT_MGMT.CREATE_PURGE_JOB, which
/// isn't built yet.
pub const PURGE_JOBS: usize = 100;

/// The longest interval of a purge job, in hours. Beyond it 46250; it comes with
/// DBMS_AUDIT_MGMT.CREATE_PURGE_JOB, which isn't built yet.
pub const PURGE_HOURS: u16 = 999;

/// The most bytes of one record in an archive. A longer one is no archive; it comes with the
/// commands `archive` and `verify`, which aren't built yet.
pub const ARCHIVED_RECORD_BYTES: u32 = 2_097_152;

/// The most bytes of what a message to a standby carries. A longer one is no message; it comes with
/// the commands `feed` and `standby`, which aren't built yet.
pub const MESSAGE_BYTES: u64 = 1_073_741_824;

/// The most bytes that wait for a standby's acknowledgement. Beyond it shipping ends; it comes with
/// the command `feed`, which isn't built yet.
pub const SHIPPED_BYTES: u64 = 1_073_741_824;

/// The most bytes that a standby takes. Beyond it the source is too long; it comes with the command
/// `standby`, which isn't built yet.
pub const STANDBY_BYTES: u64 = 1_099_511_627_776;
