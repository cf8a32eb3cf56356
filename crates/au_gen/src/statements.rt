//! The statements of the sample.
ghost use Rattle.std.specs.Prelude.{◌≡◌, ◌≤◌, IfOk};
ghost use Rattle.au_base.specs.declared.ask.Ask.TheVariants.{Sql};
ghost use Rattle.au_gen.specs.Sample.{count_text, commit_text, enabling_text, ending_text, high_text, insert_text, inserting, policy_text, table_text};

use au_base::{Ask, Memory, Text};
use std::alloc::Global;

/// The table that is filled.
#[tactic(auto, unfolding(crate::specs::Sample::table_text))]
pub fn table(alloc: Global) -> Result<Ask, Memory>
    ensures { IfOk result (λ ask. ask ≡ Sql table_text) }
{
    statement(
        alloc,
        "CREATE TABLE PAY (ID NUMBER PRIMARY KEY, SAL NUMBER)",
    )
}

/// The audit policy of its inserts.
#[tactic(auto, unfolding(crate::specs::Sample::policy_text))]
pub fn policy(alloc: Global) -> Result<Ask, Memory>
    ensures { IfOk result (λ ask. ask ≡ Sql policy_text) }
{
    statement(alloc, "CREATE AUDIT POLICY PINS ACTIONS INSERT ON PAY")
}

/// That it is enabled.
#[tactic(auto, unfolding(crate::specs::Sample::enabling_text))]
pub fn enabling(alloc: Global) -> Result<Ask, Memory>
    ensures { IfOk result (λ ask. ask ≡ Sql enabling_text) }
{
    statement(alloc, "AUDIT POLICY PINS")
}

/// The fine-grained policy of its high salaries.
#[tactic(auto, unfolding(crate::specs::Sample::high_text))]
pub fn high(alloc: Global) -> Result<Ask, Memory>
    ensures { IfOk result (λ ask. ask ≡ Sql high_text) }
{
    statement(
        alloc,
        "BEGIN DBMS_FGA.ADD_POLICY(object_name => 'PAY', policy_name => 'HIGH', audit_condition => 'SAL >= 900', audit_column => 'SAL', statement_types => 'SELECT,INSERT'); END;",
    )
}

/// The question after the high salaries.
#[tactic(auto, unfolding(crate::specs::Sample::count_text))]
pub fn count(alloc: Global) -> Result<Ask, Memory>
    ensures { IfOk result (λ ask. ask ≡ Sql count_text) }
{
    statement(alloc, "SELECT COUNT(*) FROM PAY WHERE SAL >= 900")
}

#[tactic(auto, unfolding(crate::specs::Sample::commit_text))]
pub fn commit(alloc: Global) -> Result<Ask, Memory>
    ensures { IfOk result (λ ask. ask ≡ Sql commit_text) }
{
    statement(alloc, "COMMIT")
}

/// How the hundred rows up to this one end.
#[tactic(auto, unfolding(crate::specs::Sample::rollback_text))]
pub fn ending(alloc: Global, row: u64) -> Result<Ask, Memory>
    ensures { IfOk result (λ ask. ask ≡ Sql (ending_text row)) }
{
    if row % 1000 == 0 {
        return statement(alloc, "ROLLBACK");
    }
    commit(alloc)
}

/// The row with this number is put in, whose salary the seed moves.
pub fn insert(alloc: Global, seed: u32, row: u64) -> Result<Ask, Memory>
    requires { row ≤ 4_294_967_295 }
    ensures { IfOk result (λ ask. ask ≡ Sql (insert_text seed row)) }
{
    let salary = (37 * row + u64::from(seed)) % 1000;
    let text = inserting(alloc, row, salary)?;
    Ok(Ask::Sql(text))
}

#[tactic(auto, unfolding(crate::specs::Sample::inserting))]
fn inserting(alloc: Global, row: u64, salary: u64) -> Result<Text, Memory>
    ensures { IfOk result (λ text. text ≡ inserting row salary) }
{
    Ok(Text::from_string(format!(in alloc; "INSERT INTO PAY VALUES ({row}, {salary})")?))
}

fn statement(alloc: Global, text: &str) -> Result<Ask, Memory>
    ensures { IfOk result (λ ask. ask ≡ Sql text.now) }
{
    Ok(Ask::Sql(Text::from_str(alloc, text)?))
}
