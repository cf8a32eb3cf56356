//! AUDIT, NOAUDIT and DROP AUDIT POLICY.
ghost use Rattle.std.specs.Option.{option_map};
ghost use Rattle.std.specs.Prelude.{◌≡◌, List, true};
ghost use Rattle.sql_lex.specs.declared.token.Kind.{Kind};
ghost use Rattle.sql_ast.specs.declared.statement.Statement.{Statement as Tree};
ghost use Rattle.sql_parse.specs.Conditions.{opens_few};
ghost use Rattle.sql_parse.specs.Symbols.{kinds};
ghost use Rattle.sql_parse.specs.Whole.{Finds};
ghost use Rattle.sql_parse.specs.descent.Reading.{Gives};
ghost use Rattle.sql_parse.specs.AuditStatements.{IsAuditStatement};
ghost use Rattle.sql_parse_admin.specs.descent.ReadAudits as spec;

use au_base::{List, Memory, Name};
use sql_ast::{Audit, AuditedUsers, Statement, Whenever};
use sql_lex::Token;
use sql_parse::Stop;
use sql_parse::cursor::{behind, expect_word, sees_word};
use sql_parse::endings::whole;
use sql_parse::names::name;
use sql_parse::tables::names;
use std::alloc::Global;

/// The AUDIT, NOAUDIT or DROP AUDIT POLICY that the tokens are, with `;` behind it or without.
/// `None` where they are none. Nothing is said of tokens that open over 100 parentheses at once.
pub fn audit_statement(alloc: Global, tokens: &[Token]) -> Result<Option<Statement>, Memory>
    ensures { opens_few 0 (kinds tokens.now) ≡ true → Finds (IsAuditStatement (kinds tokens.now)) result }
{
    whole(statement(alloc, tokens))
}

/// Tokens are one such statement at most.
pub fn one_audit_statement()
    ensures { (ts : List Kind) (x y : Tree) → IsAuditStatement ts x → IsAuditStatement ts y → x ≡ y }
{}

#[tactic(auto, unfolding(crate::specs::descent::ReadAudits::audit_statement))]
fn statement(alloc: Global, tokens: &[Token]) -> Result<(Statement, &[Token]), Stop>
    ensures { Gives (λ x. (x.0, kinds x.1.now)) result (spec.audit_statement (kinds tokens.now)) }
{
    if sees_word(tokens, b"AUDIT") {
        return audit(alloc, behind(tokens));
    }
    if sees_word(tokens, b"NOAUDIT") {
        return noaudit(alloc, behind(tokens));
    }
    let rest = expect_word(tokens, b"DROP").ok_or(Stop::Unread)?;
    let rest = expect_word(rest, b"AUDIT").ok_or(Stop::Unread)?;
    let (policy, rest) = policy(alloc, rest)?;
    Ok((Statement::DropPolicy { policy }, rest))
}

// An AUDIT whose first word came before.
#[tactic(auto, unfolding(crate::specs::descent::ReadAudits::audit))]
fn audit(alloc: Global, tokens: &[Token]) -> Result<(Statement, &[Token]), Stop>
    ensures { Gives (λ x. (x.0, kinds x.1.now)) result (spec.audit (kinds tokens.now)) }
{
    let (policy, rest) = policy(alloc, tokens)?;
    let (users, rest) = users(alloc, rest)?;
    let (whenever, rest) = outcomes(rest).ok_or(Stop::Unread)?;
    let found = Audit {
        policy,
        users,
        whenever,
    };
    Ok((Statement::Audit(found), rest))
}

// A NOAUDIT whose first word came before.
#[tactic(auto, unfolding(crate::specs::descent::ReadAudits::noaudit))]
fn noaudit(alloc: Global, tokens: &[Token]) -> Result<(Statement, &[Token]), Stop>
    ensures { Gives (λ x. (x.0, kinds x.1.now)) result (spec.noaudit (kinds tokens.now)) }
{
    let (policy, rest) = policy(alloc, tokens)?;
    let (users, rest) = by(alloc, rest)?;
    Ok((Statement::Noaudit { policy, users }, rest))
}

// POLICY and its name.
#[tactic(auto, unfolding(crate::specs::descent::ReadAudits::policy))]
fn policy(alloc: Global, tokens: &[Token]) -> Result<(Name, &[Token]), Stop>
    ensures { Gives (λ x. (x.0, kinds x.1.now)) result (spec.policy (kinds tokens.now)) }
{
    let rest = expect_word(tokens, b"POLICY").ok_or(Stop::Unread)?;
    name(alloc, rest)
}

// The users, if they are named.
#[tactic(auto, unfolding(crate::specs::descent::ReadAudits::users))]
fn users(alloc: Global, tokens: &[Token]) -> Result<(Option<AuditedUsers>, &[Token]), Stop>
    ensures { Gives (λ x. (x.0, kinds x.1.now)) result (spec.users (kinds tokens.now)) }
{
    if sees_word(tokens, b"BY") {
        let (found, rest) = names(alloc, behind(tokens))?;
        return Ok((Some(AuditedUsers::By(found)), rest));
    }
    if sees_word(tokens, b"EXCEPT") {
        let (found, rest) = names(alloc, behind(tokens))?;
        return Ok((Some(AuditedUsers::Except(found)), rest));
    }
    Ok((None, tokens))
}

// [BY name {, name}]
fn by(alloc: Global, tokens: &[Token]) -> Result<(Option<List<Name>>, &[Token]), Stop>
    ensures { Gives (λ x. (x.0, kinds x.1.now)) result (spec.noaudit_users (kinds tokens.now)) }
{
    if !sees_word(tokens, b"BY") {
        return Ok((None, tokens));
    }
    let (found, rest) = names(alloc, behind(tokens))?;
    Ok((Some(found), rest))
}

// [WHENEVER [NOT] SUCCESSFUL]
fn outcomes(tokens: &[Token]) -> Option<(Option<Whenever>, &[Token])>
    ensures { option_map (λ x. (x.0, kinds x.1.now)) result ≡ spec.outcomes (kinds tokens.now) }
{
    if !sees_word(tokens, b"WHENEVER") {
        return Some((None, tokens));
    }
    let (found, rest) = outcome(behind(tokens))?;
    Some((Some(found), rest))
}

// What follows WHENEVER.
#[tactic(auto, unfolding(crate::specs::descent::ReadAudits::outcome))]
fn outcome(tokens: &[Token]) -> Option<(Whenever, &[Token])>
    ensures { option_map (λ x. (x.0, kinds x.1.now)) result ≡ spec.outcome (kinds tokens.now) }
{
    if sees_word(tokens, b"NOT") {
        let rest = expect_word(behind(tokens), b"SUCCESSFUL")?;
        return Some((Whenever::NotSuccessful, rest));
    }
    let rest = expect_word(tokens, b"SUCCESSFUL")?;
    Some((Whenever::Successful, rest))
}
