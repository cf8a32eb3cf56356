//! When an audit policy audits.
ghost use Rattle.std.specs.Option.{option_map};
ghost use Rattle.std.specs.Prelude.{◌≡◌};
ghost use Rattle.sql_parse.specs.Symbols.{kinds};
ghost use Rattle.sql_parse.specs.descent.Reading.{Gives};
ghost use Rattle.sql_parse_admin.specs.descent.ReadPolicies as spec;

use sql_ast::{Evaluation, PolicyCondition};
use sql_lex::Token;
use sql_parse::Stop;
use sql_parse::cursor::{behind, expect_word, sees_word};
use sql_parse::literals::literal;

/// `literal EVALUATE PER (STATEMENT | SESSION | INSTANCE)`
#[tactic(auto, unfolding(crate::specs::descent::ReadPolicies::condition))]
pub fn condition(tokens: &[Token]) -> Result<(PolicyCondition, &[Token]), Stop>
    ensures { Gives (λ x. (x.0, kinds x.1.now)) result (spec.condition (kinds tokens.now)) }
{
    let (text, rest) = literal(tokens).ok_or(Stop::Unread)?;
    let rest = expect_word(rest, b"EVALUATE").ok_or(Stop::Unread)?;
    let rest = expect_word(rest, b"PER").ok_or(Stop::Unread)?;
    let (evaluation, rest) = evaluated_per(rest).ok_or(Stop::Unread)?;
    let text = text.clone()?;
    Ok((PolicyCondition { text, evaluation }, rest))
}

// STATEMENT | SESSION | INSTANCE
#[tactic(auto, unfolding(crate::specs::descent::ReadPolicies::evaluated_per))]
fn evaluated_per(tokens: &[Token]) -> Option<(Evaluation, &[Token])>
    ensures { option_map (λ x. (x.0, kinds x.1.now)) result ≡ spec.evaluated_per (kinds tokens.now) }
{
    let rest = behind(tokens);
    if sees_word(tokens, b"STATEMENT") {
        Some((Evaluation::Statement, rest))
    } else if sees_word(tokens, b"SESSION") {
        Some((Evaluation::Session, rest))
    } else if sees_word(tokens, b"INSTANCE") {
        Some((Evaluation::Instance, rest))
    } else {
        None
    }
}
