//! The clauses of CREATE AUDIT POLICY.
ghost use Rattle.sql_parse.specs.Symbols.{kinds};
ghost use Rattle.sql_parse.specs.descent.Reading.{Gives};
ghost use Rattle.sql_parse_admin.specs.descent.ReadPolicies as spec;

use crate::actions::parts;
use crate::policy_conditions::condition;
use crate::privileges::privileges;
use au_base::{List, Name, Privilege};
use sql_ast::{ActionPart, CreatePolicy, PolicyCondition};
use sql_lex::Token;
use sql_parse::Stop;
use sql_parse::cursor::{behind, sees_word};
use sql_parse::tables::names;
use std::alloc::Global;

/// The policy of that name, whose clauses come next.
#[tactic(auto, unfolding(crate::specs::descent::ReadPolicies::clauses))]
pub fn clauses(
    alloc: Global,
    policy: Name,
    tokens: &[Token],
) -> Result<(CreatePolicy, &[Token]), Stop>
    ensures { Gives (λ x. (x.0, kinds x.1.now)) result (spec.clauses policy (kinds tokens.now)) }
{
    let (privileges, rest) = privileges_clause(alloc, tokens)?;
    let (actions, rest) = actions_clause(alloc, rest)?;
    let (roles, rest) = roles_clause(alloc, rest)?;
    let (condition, rest) = condition_clause(rest)?;
    let found = CreatePolicy {
        policy,
        privileges,
        actions,
        roles,
        condition,
    };
    Ok((found, rest))
}

// [PRIVILEGES privilege {, privilege}]
fn privileges_clause(
    alloc: Global,
    tokens: &[Token],
) -> Result<(Option<List<Privilege>>, &[Token]), Stop>
    ensures { Gives (λ x. (x.0, kinds x.1.now)) result (spec.privileges_clause (kinds tokens.now)) }
{
    if !sees_word(tokens, b"PRIVILEGES") {
        return Ok((None, tokens));
    }
    let (found, rest) = privileges(alloc, behind(tokens))?;
    Ok((Some(found), rest))
}

// [ACTIONS part {, part}]
fn actions_clause(
    alloc: Global,
    tokens: &[Token],
) -> Result<(Option<List<ActionPart>>, &[Token]), Stop>
    ensures { Gives (λ x. (x.0, kinds x.1.now)) result (spec.actions_clause (kinds tokens.now)) }
{
    if !sees_word(tokens, b"ACTIONS") {
        return Ok((None, tokens));
    }
    let (found, rest) = parts(alloc, behind(tokens))?;
    Ok((Some(found), rest))
}

// [ROLES name {, name}]
fn roles_clause(alloc: Global, tokens: &[Token]) -> Result<(Option<List<Name>>, &[Token]), Stop>
    ensures { Gives (λ x. (x.0, kinds x.1.now)) result (spec.roles_clause (kinds tokens.now)) }
{
    if !sees_word(tokens, b"ROLES") {
        return Ok((None, tokens));
    }
    let (found, rest) = names(alloc, behind(tokens))?;
    Ok((Some(found), rest))
}

// [WHEN literal EVALUATE PER (STATEMENT | SESSION | INSTANCE)]
fn condition_clause(tokens: &[Token]) -> Result<(Option<PolicyCondition>, &[Token]), Stop>
    ensures { Gives (λ x. (x.0, kinds x.1.now)) result (spec.condition_clause (kinds tokens.now)) }
{
    if !sees_word(tokens, b"WHEN") {
        return Ok((None, tokens));
    }
    let (found, rest) = condition(behind(tokens))?;
    Ok((Some(found), rest))
}
