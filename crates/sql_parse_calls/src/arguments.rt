//! The arguments of a call.
ghost use Rattle.std.specs.Option.{option_map};
ghost use Rattle.std.specs.Prelude.{◌≡◌};
ghost use Rattle.sql_parse.specs.Symbols.{kinds};
ghost use Rattle.sql_parse.specs.descent.Reading.{Gives};
ghost use Rattle.sql_parse_calls.specs.descent.ReadCalls as spec;

use crate::procedures::{dotted, parameter};
use au_base::List;
use sql_ast::{Argument, Value};
use sql_lex::{Kind, Mark, Token};
use sql_parse::Stop;
use sql_parse::cursor::{behind, expect_mark, sees_word};
use sql_parse::lists::{Part, parted};
use sql_parse::literals::{literal, moment_of};
use std::alloc::Global;

/// `argument {, argument}`
#[tactic(auto, unfolding(crate::specs::descent::ReadCalls::arguments))]
pub fn arguments(alloc: Global, tokens: &[Token]) -> Result<(List<Argument>, &[Token]), Stop>
    ensures { Gives (λ x. (x.0, kinds x.1.now)) result (spec.arguments (kinds tokens.now)) }
{
    parted(alloc, &ArgumentPart, tokens)
}

struct ArgumentPart;

impl Part for ArgumentPart {
    type Tree = Argument;

    ghost reading = { λ _. spec.argument };

    fn read<'t>(
        &self,
        alloc: Global,
        tokens: &'t [Token],
    ) -> Result<(Argument, &'t [Token]), Stop> {
        argument(alloc, tokens)
    }
}

// `name => value`
#[tactic(auto, unfolding(crate::specs::descent::ReadCalls::argument))]
fn argument(alloc: Global, tokens: &[Token]) -> Result<(Argument, &[Token]), Stop>
    ensures { Gives (λ x. (x.0, kinds x.1.now)) result (spec.argument (kinds tokens.now)) }
{
    let (parameter, rest) = parameter(tokens).ok_or(Stop::Unread)?;
    let rest = expect_mark(rest, Mark::Arrow).ok_or(Stop::Unread)?;
    let (value, rest) = value(alloc, rest)?;
    Ok((Argument { parameter, value }, rest))
}

#[tactic(auto, unfolding(crate::specs::descent::ReadCalls::value))]
fn value(alloc: Global, tokens: &[Token]) -> Result<(Value, &[Token]), Stop>
    ensures { Gives (λ x. (x.0, kinds x.1.now)) result (spec.value (kinds tokens.now)) }
{
    let [first, rest @ ..] = tokens else {
        return Err(Stop::Unread);
    };
    match &first.kind {
        Kind::Number(number) => Ok((Value::Number(*number), rest)),
        Kind::Text(text) => Ok((Value::Literal(text.clone()?), rest)),
        _ => worded_value(alloc, tokens),
    }
}

// A value that begins with a word or a quoted name.
#[tactic(auto, unfolding(crate::specs::descent::ReadCalls::worded_value))]
fn worded_value(alloc: Global, tokens: &[Token]) -> Result<(Value, &[Token]), Stop>
    ensures { Gives (λ x. (x.0, kinds x.1.now)) result (spec.worded_value (kinds tokens.now)) }
{
    let rest = behind(tokens);
    if sees_word(tokens, b"NULL") {
        Ok((Value::Null, rest))
    } else if sees_word(tokens, b"TRUE") {
        Ok((Value::True, rest))
    } else if sees_word(tokens, b"FALSE") {
        Ok((Value::False, rest))
    } else if sees_word(tokens, b"SYSTIMESTAMP") {
        Ok((Value::Now, rest))
    } else if sees_word(tokens, b"TIMESTAMP") {
        moment(rest).ok_or(Stop::Unread)
    } else {
        constant(alloc, tokens)
    }
}

// A package's constant.
#[tactic(auto, unfolding(crate::specs::descent::ReadCalls::constant))]
fn constant(alloc: Global, tokens: &[Token]) -> Result<(Value, &[Token]), Stop>
    ensures { Gives (λ x. (x.0, kinds x.1.now)) result (spec.constant (kinds tokens.now)) }
{
    let ((qualifier, name), rest) = dotted(alloc, tokens)?;
    Ok((Value::Constant(qualifier, name), rest))
}

// A moment whose TIMESTAMP came before.
#[tactic(auto, unfolding(crate::specs::descent::ReadCalls::moment))]
fn moment(tokens: &[Token]) -> Option<(Value, &[Token])>
    ensures { option_map (λ x. (x.0, kinds x.1.now)) result ≡ spec.moment (kinds tokens.now) }
{
    let (text, rest) = literal(tokens)?;
    Some((Value::Moment(moment_of(text)?), rest))
}
