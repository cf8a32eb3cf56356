//! CREATE AUDIT POLICY.
ghost use Rattle.std.specs.Prelude.{◌≡◌, true, List};
ghost use Rattle.sql_lex.specs.declared.token.Kind.{Kind as Lexeme};
ghost use Rattle.sql_ast.specs.declared.statement.Statement.{Statement as Tree};
ghost use Rattle.sql_parse.specs.Symbols.{kinds};
ghost use Rattle.sql_parse.specs.descent.Reading.{Gives};
ghost use Rattle.sql_parse.specs.PolicyStatements.{IsPolicyStatement};
ghost use Rattle.sql_parse.specs.Conditions.{opens_few};
ghost use Rattle.sql_parse.specs.Whole.{Finds};
ghost use Rattle.sql_parse_admin.specs.descent.ReadPolicies as spec;

use crate::policy_clauses::clauses;
use au_base::{Memory, Name};
use sql_ast::{CreatePolicy, Statement};
use sql_lex::Token;
use sql_parse::Stop;
use sql_parse::cursor::expect_word;
use sql_parse::endings::whole;
use sql_parse::names::name;
use std::alloc::Global;

/// The CREATE AUDIT POLICY that the tokens are, with `;` behind it or without. `None` where they are
/// none. Nothing is said of tokens that open over 100 parentheses at once.
pub fn policy_statement(alloc: Global, tokens: &[Token]) -> Result<Option<Statement>, Memory>
    ensures { opens_few 0 (kinds tokens.now) ≡ true → Finds (IsPolicyStatement (kinds tokens.now)) result }
{
    whole(policy(alloc, tokens))
}

/// Tokens are one such statement at most.
pub fn one_policy_statement()
    ensures { (ts : List Lexeme) (x y : Tree) → IsPolicyStatement ts x → IsPolicyStatement ts y → x ≡ y }
{}

#[tactic(auto, unfolding(crate::specs::descent::ReadPolicies::policy))]
fn policy(alloc: Global, tokens: &[Token]) -> Result<(Statement, &[Token]), Stop>
    ensures { Gives (λ x. (x.0, kinds x.1.now)) result (spec.policy (kinds tokens.now)) }
{
    let (name, rest) = heading(alloc, tokens)?;
    let (found, rest) = clauses(alloc, name, rest)?;
    if !audits_some(&found) {
        return Err(Stop::Unread);
    }
    Ok((Statement::CreatePolicy(found), rest))
}

// CREATE AUDIT POLICY and its name.
#[tactic(auto, unfolding(crate::specs::descent::ReadPolicies::heading))]
fn heading(alloc: Global, tokens: &[Token]) -> Result<(Name, &[Token]), Stop>
    ensures { Gives (λ x. (x.0, kinds x.1.now)) result (spec.heading (kinds tokens.now)) }
{
    let rest = expect_word(tokens, b"CREATE").ok_or(Stop::Unread)?;
    let rest = expect_word(rest, b"AUDIT").ok_or(Stop::Unread)?;
    let rest = expect_word(rest, b"POLICY").ok_or(Stop::Unread)?;
    name(alloc, rest)
}

// Whether the policy has one of the first three clauses.
fn audits_some(policy: &CreatePolicy) -> bool
    ensures { result ≡ spec.audits_some policy.now }
{
    policy.privileges.is_some() || policy.actions.is_some() || policy.roles.is_some()
}
