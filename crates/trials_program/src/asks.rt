//! What a case asks in one word, and how it is answered in one.

use crate::fault::Fault;
use crate::texts::push_between;
use std::alloc::Global;

// How the answer begins to what is done and gives no rows.
const OK: &str = "{\"code\":0,\"columns\":[],";

const NO_TABLE: &str = "{\"code\":942,\"columns\":[],\"count\":0,\"rows\":[]}";

const BAD_ARGUMENT: &str = "{\"code\":46250,\"columns\":[],\"count\":0,\"rows\":[]}";

const COUNT: &str = "{\"code\":0,\"columns\":[\"COUNT(*)\"],\"count\":1,\"rows\":[[";

const PURGE: &str =
    "s1 sql BEGIN DBMS_AUDIT_MGMT.CLEAN_AUDIT_TRAIL(AUDIT_TRAIL_TYPE => DBMS_AUDIT_MGMT.AUDIT_TRAIL_UNIFIED, USE_LAST_ARCH_TIMESTAMP => FALSE); END;\n";

const CLEAN: &str =
    "s1 sql BEGIN DBMS_AUDIT_MGMT.CLEAN_AUDIT_TRAIL(AUDIT_TRAIL_TYPE => DBMS_AUDIT_MGMT.AUDIT_TRAIL_UNIFIED); END;\n";

const WRONG: &str = "s1 sql BEGIN DBMS_AUDIT_MGMT.CLEAN_AUDIT_TRAIL(AUDIT_TRAIL_TYPE => 1); END;\n";

const ARCHIVE: &str =
    "s1 sql BEGIN DBMS_AUDIT_MGMT.SET_LAST_ARCHIVE_TIMESTAMP(AUDIT_TRAIL_TYPE => DBMS_AUDIT_MGMT.AUDIT_TRAIL_UNIFIED, LAST_ARCHIVE_TIME => SYSTIMESTAMP); END;\n";

/// A script of these asks, with spaces between them.
pub fn script_of(alloc: Global, asks: &str) -> Result<String, Fault> {
    let mut script = String::new(alloc);
    for ask in asks.split(' ') {
        script.push_str(line_of(ask)?)?;
    }
    Ok(script)
}

fn line_of(ask: &str) -> Result<&'static str, Fault> {
    match ask {
        "local" => Ok("s1 local\n"),
        "logoff" => Ok("s1 logoff\n"),
        "audit" => Ok("s1 sql AUDIT POLICY P_ALL\n"),
        "noaudit" => Ok("s1 sql NOAUDIT POLICY P_ALL\n"),
        "policy" => Ok("s1 sql CREATE AUDIT POLICY P ACTIONS COMMIT\n"),
        "enable" => Ok("s1 sql AUDIT POLICY P\n"),
        "create" => Ok("s1 sql CREATE TABLE T (K NUMBER PRIMARY KEY)\n"),
        "insert1" => Ok("s1 sql INSERT INTO T (K) VALUES (1)\n"),
        "insert2" => Ok("s1 sql INSERT INTO T (K) VALUES (2)\n"),
        "commit" => Ok("s1 sql COMMIT\n"),
        "rollback" => Ok("s1 sql ROLLBACK\n"),
        "purge" => Ok(PURGE),
        "clean" => Ok(CLEAN),
        "wrong" => Ok(WRONG),
        "archive" => Ok(ARCHIVE),
        "count" => Ok("s1 sql SELECT COUNT(*) FROM UNIFIED_AUDIT_TRAIL\n"),
        "rows" => Ok("s1 sql SELECT COUNT(*) FROM T\n"),
        _ => Err(Fault::NoCase),
    }
}

/// Adds the answers in short, with spaces between them.
pub fn push_answers(said: &mut String, given: &str) -> Result<(), Fault> {
    let mut is_first = true;
    for line in given.lines() {
        push_between(said, is_first, " ")?;
        said.push_str(short(line))?;
        is_first = false;
    }
    Ok(())
}

/// Adds what the answers to `local count rows` count: the records, and behind a comma the rows of T,
/// where it stands.
pub fn push_counts(said: &mut String, given: &str) -> Result<(), Fault> {
    let mut answers = given.lines();
    let _local = answers.next();
    said.push_str(short(answers.next().unwrap_or("")))?;
    let rows = answers.next().unwrap_or("");
    if rows != NO_TABLE {
        said.push(',')?;
        said.push_str(short(rows))?;
    }
    Ok(())
}

// An answer in short: `ok`, the code of a bad argument, a count, a fault, or the text itself.
fn short(line: &str) -> &str {
    if line.starts_with(OK) {
        return "ok";
    }
    if line == BAD_ARGUMENT {
        return "46250";
    }
    if line == "{\"fault\":\"disk\"}" {
        return "disk";
    }
    if line == "{\"fault\":\"full\"}" {
        return "full";
    }
    match line.strip_prefix(COUNT) {
        Some(rest) => rest.split_once(']').unwrap_or((rest, "")).0,
        None => line,
    }
}
