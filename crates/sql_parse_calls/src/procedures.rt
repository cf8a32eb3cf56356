//! The procedures of packages: their names, and what they can be given.
ghost use Rattle.std.specs.Prelude.{◌≡◌, ◌==◌, ◌++◌, map, find};
ghost use Rattle.std.specs.List.{list_all};
ghost use Rattle.std.specs.Option.{option_map};
ghost use Rattle.sql_parse.specs.Symbols.{kinds};
ghost use Rattle.sql_parse.specs.descent.Reading.{Gives};
ghost use Rattle.sql_parse.specs.CallStatements as call;
ghost use Rattle.sql_parse_calls.specs.descent.ReadCalls as spec;

use au_base::Name;
use sql_ast::{Argument, Parameter, Procedure};
use sql_lex::{Kind, Mark, Token};
use sql_parse::Stop;
use sql_parse::cursor::{behind, expect_mark, sees_mark, sees_word};
use sql_parse::names::name;
use std::alloc::Global;

/// `[SYS .] name . name`, the names of a package and its procedure. It takes no memory.
#[tactic(auto, unfolding(crate::specs::descent::ReadCalls::procedure))]
pub fn procedure(tokens: &[Token]) -> Option<(Procedure, &[Token])>
    ensures { option_map (λ x. (x.0, kinds x.1.now)) result ≡ spec.procedure (kinds tokens.now) }
{
    let (qualifier, rest) = spelled(past_owner(tokens))?;
    let rest = expect_mark(rest, Mark::Period)?;
    let (name, rest) = spelled(rest)?;
    Some((procedure_of(qualifier, name)?, rest))
}

/// The name of a parameter. It takes no memory.
#[tactic(auto, unfolding(crate::specs::descent::ReadCalls::parameter))]
pub fn parameter(tokens: &[Token]) -> Option<(Parameter, &[Token])>
    ensures { option_map (λ x. (x.0, kinds x.1.now)) result ≡ spec.parameter (kinds tokens.now) }
{
    let (name, rest) = spelled(tokens)?;
    Some((parameter_of(name)?, rest))
}

/// `name . name`
#[tactic(auto, unfolding(crate::specs::descent::ReadCalls::dotted))]
pub fn dotted(alloc: Global, tokens: &[Token]) -> Result<((Name, Name), &[Token]), Stop>
    ensures { Gives (λ x. (x.0, kinds x.1.now)) result (spec.dotted (kinds tokens.now)) }
{
    let (first, rest) = name(alloc, tokens)?;
    let rest = expect_mark(rest, Mark::Period).ok_or(Stop::Unread)?;
    let (second, rest) = name(alloc, rest)?;
    Ok(((first, second), rest))
}

/// Whether the procedure can be given these: each parameter at most once and each one of its own,
/// and all that it needs among them.
pub fn are_taken(procedure: Procedure, arguments: &[Argument]) -> bool
    ensures { result ≡ call.are_taken procedure (map (λ a. a.parameter) arguments.now) }
{
    are_different(arguments)
        && (are_own(procedure, arguments) && are_given(procedure.needed(), arguments))
}

// The bytes of the word or quoted name that comes next. A reserved word is none of the names that
// they are compared with.
#[tactic(auto, unfolding(crate::specs::descent::ReadCalls::spelled))]
fn spelled(tokens: &[Token]) -> Option<(&[u8], &[Token])>
    ensures { option_map (λ x. (x.0.now, kinds x.1.now)) result ≡ spec.spelled (kinds tokens.now) }
{
    let [first, rest @ ..] = tokens else {
        return None;
    };
    match &first.kind {
        Kind::Word(word) => Some((word.as_bytes(), rest)),
        Kind::Quoted(name) => Some((name.as_bytes(), rest)),
        _ => None,
    }
}

// The tokens behind SYS and its dot, if they come next.
fn past_owner(tokens: &[Token]) -> &[Token]
    ensures { kinds result.now ≡ spec.past_owner (kinds tokens.now) }
{
    let rest = behind(tokens);
    if sees_word(tokens, b"SYS") && sees_mark(rest, Mark::Period) {
        behind(rest)
    } else {
        tokens
    }
}

#[tactic(auto, unfolding(crate::specs::descent::ReadCalls::procedure_of))]
fn procedure_of(qualifier: &[u8], name: &[u8]) -> Option<Procedure>
    ensures { result ≡ spec.procedure_of qualifier.now name.now }
{
    first_called(&Procedure::EACH, qualifier, name)
}

fn first_called(each: &[Procedure], qualifier: &[u8], name: &[u8]) -> Option<Procedure>
    ensures { result ≡ find (spec.is_called qualifier.now name.now) each.now }
{
    each.iter()
        .copied()
        .find(|procedure| is_called(*procedure, qualifier, name))
}

fn is_called(procedure: Procedure, qualifier: &[u8], name: &[u8]) -> bool
    ensures { result ≡ spec.is_called qualifier.now name.now procedure }
{
    qualifier == procedure.package().as_bytes() && name == procedure.name().as_bytes()
}

#[tactic(auto, unfolding(crate::specs::descent::ReadCalls::parameter_of))]
fn parameter_of(name: &[u8]) -> Option<Parameter>
    ensures { result ≡ spec.parameter_of name.now }
{
    first_named(&Parameter::EACH, name)
}

fn first_named(each: &[Parameter], name: &[u8]) -> Option<Parameter>
    ensures { result ≡ find (spec.is_named name.now) each.now }
{
    each.iter()
        .copied()
        .find(|parameter| is_named(*parameter, name))
}

#[tactic(auto, unfolding(crate::specs::descent::ReadCalls::is_named))]
fn is_named(parameter: Parameter, name: &[u8]) -> bool
    ensures { result ≡ spec.is_named name.now parameter }
{
    name == parameter.name().as_bytes()
}

// Whether no parameter comes again. There are 13, so a long list has one that does among its first
// 14 arguments, and no more of them are compared with those behind.
fn are_different(mut arguments: &[Argument]) -> bool
    ensures { result ≡ call.are_different (map (λ a. a.parameter) arguments.entry.now) }
{
    while let [first, rest @ ..] = arguments {
        if is_given(rest, first.parameter) {
            return false;
        }
        arguments = rest;
    }
    true
}

// Whether an argument is for this parameter.
fn is_given(mut arguments: &[Argument], parameter: Parameter) -> bool
    ensures { result ≡ call.is_given (map (λ a. a.parameter) arguments.entry.now) parameter }
{
    while let [argument, rest @ ..] = arguments {
        if is_same(argument.parameter, parameter) {
            return true;
        }
        arguments = rest;
    }
    false
}

// Whether each argument is for one of the procedure's own parameters.
fn are_own(procedure: Procedure, mut arguments: &[Argument]) -> bool
    ensures { result ≡ list_all (call.is_given (call.needed_by procedure ++ call.optional_of procedure)) (map (λ a. a.parameter) arguments.entry.now) }
{
    while let [argument, rest @ ..] = arguments {
        if !is_own(procedure, argument.parameter) {
            return false;
        }
        arguments = rest;
    }
    true
}

fn is_own(procedure: Procedure, parameter: Parameter) -> bool
    ensures { result ≡ call.is_given (call.needed_by procedure ++ call.optional_of procedure) parameter }
{
    is_among(procedure.needed(), parameter) || is_among(procedure.optional(), parameter)
}

fn is_among(mut parameters: &[Parameter], parameter: Parameter) -> bool
    ensures { result ≡ call.is_given parameters.entry.now parameter }
{
    while let [known, rest @ ..] = parameters {
        if is_same(*known, parameter) {
            return true;
        }
        parameters = rest;
    }
    false
}

// Whether each of the parameters is given.
fn are_given(mut parameters: &[Parameter], arguments: &[Argument]) -> bool
    ensures { result ≡ list_all (call.is_given (map (λ a. a.parameter) arguments.now)) parameters.entry.now }
{
    while let [parameter, rest @ ..] = parameters {
        if !is_given(arguments, *parameter) {
            return false;
        }
        parameters = rest;
    }
    true
}

fn is_same(left: Parameter, right: Parameter) -> bool
    ensures { result ≡ (call.parameter_number left == call.parameter_number right) }
{
    left == right
}
