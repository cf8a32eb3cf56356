//! What a call of DBMS_FGA asks.
ghost use Rattle.std.specs.Prelude.{◌≡◌, IfOk, not, ◌||◌};
ghost use Rattle.au_calls.specs.Arguments.{given, truth_in};
ghost use Rattle.au_calls.specs.FineGrained.{flags_by, flags_of, has_handler, parts_by, parts_of, target_by, target_of};
ghost use Rattle.au_calls.specs.Literals.{columns_by, text_in};

use crate::arguments::{given, truth_in};
use crate::literals::{is_null, name_in, option_in, owner_by, text_in};
use crate::pieces::{columns_by, kinds_by};
use au_base::{List, Memory, Name, TableName, Text};
use au_entries::FgaName;
use sql_ast::{Argument, Parameter};
use std::alloc::Global;

/// What a new fine-grained policy is asked to be beside its condition and its columns.
#[derive(Clone, Copy, Debug, PartialEq, Eq)]
pub struct FgaFlags {
    /// Whether all relevant columns have to be named, and not only one of them.
    pub all: bool,
    /// The kinds of statements: 1 for SELECT, 2 for INSERT, 4 for UPDATE and 8 for DELETE, summed.
    pub types: u8,
    pub enabled: bool,
}

/// What a new fine-grained policy is asked to be.
#[derive(Debug, Drop, PartialEq, Eq)]
pub struct FgaParts {
    /// The text of its condition.
    pub condition: Option<Text>,
    /// The relevant columns.
    pub columns: List<Name>,
    pub flags: FgaFlags,
}

/// The policy that a call of the user names. `None` where a name can't be read.
pub fn target_of(
    alloc: Global,
    user: &Name,
    arguments: &[Argument],
) -> Result<Option<FgaName>, Memory>
    ensures { IfOk result (λ target. target ≡ target_of user.now arguments.now) }
{
    let schema = text_in(given(arguments, Parameter::ObjectSchema))?;
    let owner = owner_by(alloc, user, &schema)?;
    let name = name_in(alloc, given(arguments, Parameter::ObjectName))?;
    let policy = name_in(alloc, given(arguments, Parameter::PolicyName))?;
    Ok(target_by(owner, name, policy))
}

fn target_by(owner: Option<Name>, name: Option<Name>, policy: Option<Name>) -> Option<FgaName>
    ensures { result ≡ target_by owner name policy }
{
    match (owner, name, policy) {
        (Some(owner), Some(name), Some(policy)) => {
            let table = TableName { owner, name };
            Some(FgaName { table, policy })
        }
        _ => None,
    }
}

/// The parts of a new policy that a call names. `None` where they can't be read, or a handler is
/// given.
pub fn parts_of(alloc: Global, arguments: &[Argument]) -> Result<Option<FgaParts>, Memory>
    ensures { IfOk result (λ parts. parts ≡ parts_of arguments.now) }
{
    if has_handler(arguments) {
        return Ok(None);
    }
    parts_read(alloc, arguments)
}

fn parts_read(alloc: Global, arguments: &[Argument]) -> Result<Option<FgaParts>, Memory>
    ensures { IfOk result (λ parts. parts ≡ parts_by (text_in (given arguments.now Parameter.AuditCondition)) (columns_by (text_in (given arguments.now Parameter.AuditColumn))) (flags_of arguments.now)) }
{
    let condition = text_in(given(arguments, Parameter::AuditCondition))?;
    let named = text_in(given(arguments, Parameter::AuditColumn))?;
    let columns = columns_by(alloc, &named)?;
    let flags = flags_of(alloc, arguments)?;
    Ok(parts_by(condition, columns, flags))
}

fn parts_by(
    condition: Option<Option<Text>>,
    columns: Option<List<Name>>,
    flags: Option<FgaFlags>,
) -> Option<FgaParts>
    ensures { result ≡ parts_by condition columns flags }
{
    match (condition, columns, flags) {
        (Some(condition), Some(columns), Some(flags)) => Some(FgaParts {
            condition,
            columns,
            flags,
        }),
        _ => None,
    }
}

fn flags_of(alloc: Global, arguments: &[Argument]) -> Result<Option<FgaFlags>, Memory>
    ensures { IfOk result (λ flags. flags ≡ flags_of arguments.now) }
{
    let kinds = text_in(given(arguments, Parameter::StatementTypes))?;
    let types = kinds_by(alloc, &kinds)?;
    let all = option_in(given(arguments, Parameter::AuditColumnOpts));
    let enabled = truth_in(given(arguments, Parameter::Enable));
    Ok(flags_by(all, types, enabled))
}

fn flags_by(all: Option<bool>, types: Option<u8>, enabled: Option<bool>) -> Option<FgaFlags>
    ensures { result ≡ flags_by all types enabled }
{
    match (all, types, enabled) {
        (Some(all), Some(types), Some(enabled)) => Some(FgaFlags {
            all,
            types,
            enabled,
        }),
        _ => None,
    }
}

fn has_handler(arguments: &[Argument]) -> bool
    ensures { result ≡ has_handler arguments.now }
{
    !is_null(given(arguments, Parameter::HandlerSchema))
        || !is_null(given(arguments, Parameter::HandlerModule))
}
