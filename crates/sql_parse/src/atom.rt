//! What a word begins in an expression.
ghost use Rattle.std.specs.List.{list_any};
ghost use Rattle.std.specs.Option.{option_map};
ghost use Rattle.std.specs.Prelude.{◌≡◌, Some};
ghost use Rattle.sql_parse.specs.Expressions.{upper};
ghost use Rattle.sql_parse.specs.Symbols.{kinds};
ghost use Rattle.sql_parse.specs.descent.Reading.{Gives};
ghost use Rattle.sql_parse.specs.descent.Reading as spec;

use crate::cursor::{behind, expect_mark, sees_mark, sees_word};
use crate::literals::{literal, moment_of};
use crate::names::column;
use crate::stop::Stop;
use au_base::Text;
use sql_ast::{Attribute, Expr};
use sql_lex::{Mark, Token};
use std::alloc::Global;

/// An atom that begins with a word.
#[tactic(auto, unfolding(crate::specs::descent::Reading::worded_atom))]
pub fn worded_atom(alloc: Global, tokens: &[Token]) -> Result<(Expr, &[Token]), Stop>
    ensures { Gives (λ x. (x.0, kinds x.1.now)) result (spec.worded_atom (kinds tokens.now)) }
{
    let rest = behind(tokens);
    if sees_word(tokens, b"NULL") {
        Ok((Expr::Null, rest))
    } else if sees_word(tokens, b"USER") {
        Ok((Expr::User, rest))
    } else if sees_word(tokens, b"SYSTIMESTAMP") {
        Ok((Expr::Now, rest))
    } else if sees_word(tokens, b"TIMESTAMP") {
        moment(rest).ok_or(Stop::Unread)
    } else if sees_word(tokens, b"SYS_CONTEXT") && sees_mark(rest, Mark::OpenParenthesis) {
        context(behind(rest))
    } else {
        column(alloc, tokens)
    }
}

// A moment whose TIMESTAMP came before.
#[tactic(auto, unfolding(crate::specs::descent::Reading::moment))]
fn moment(tokens: &[Token]) -> Option<(Expr, &[Token])>
    ensures { option_map (λ x. (x.0, kinds x.1.now)) result ≡ spec.moment (kinds tokens.now) }
{
    let (text, rest) = literal(tokens)?;
    Some((Expr::Moment(moment_of(text)?), rest))
}

// A call of SYS_CONTEXT whose opening parenthesis came before.
#[tactic(auto, unfolding(crate::specs::descent::Reading::context))]
fn context(tokens: &[Token]) -> Result<(Expr, &[Token]), Stop>
    ensures { Gives (λ x. (x.0, kinds x.1.now)) result (spec.context (kinds tokens.now)) }
{
    let (namespace, rest) = literal(tokens).ok_or(Stop::Unread)?;
    let rest = expect_mark(rest, Mark::Comma).ok_or(Stop::Unread)?;
    let (parameter, rest) = literal(rest).ok_or(Stop::Unread)?;
    let rest = expect_mark(rest, Mark::CloseParenthesis).ok_or(Stop::Unread)?;
    attribute_of(namespace, parameter, rest)
}

fn attribute_of<'t>(
    namespace: &Text,
    parameter: &Text,
    rest: &'t [Token],
) -> Result<(Expr, &'t [Token]), Stop>
    ensures { Gives (λ x. (x.0, kinds x.1.now)) result (spec.attribute_of namespace.now parameter.now (kinds rest.now)) }
{
    let namespace = upper(namespace)?;
    let parameter = upper(parameter)?;
    if namespace.as_str() == Attribute::NAMESPACE && is_attribute(parameter.as_str()) {
        Ok((Expr::Context(parameter), rest))
    } else {
        Err(Stop::Unread)
    }
}

fn upper(text: &Text) -> Result<Text, Stop>
    ensures { Gives (λ x. x) result (Some (upper text.now)) }
{
    let mut copy = text.clone()?;
    copy.make_ascii_uppercase();
    Ok(copy)
}

// Whether an attribute has this name.
#[tactic(auto, unfolding(crate::specs::descent::Reading::is_attribute))]
fn is_attribute(name: &str) -> bool
    ensures { result ≡ spec.is_attribute name.now }
{
    is_name_of_any(&Attribute::EACH, name)
}

fn is_name_of_any(attributes: &[Attribute], name: &str) -> bool
    ensures { result ≡ list_any (spec.is_named name.now) attributes.now }
{
    attributes
        .iter()
        .any(|attribute| is_named(*attribute, name))
}

#[tactic(auto, unfolding(crate::specs::descent::Reading::is_named))]
fn is_named(attribute: Attribute, name: &str) -> bool
    ensures { result ≡ spec.is_named name.now attribute }
{
    name == attribute.name()
}
