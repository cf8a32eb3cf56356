//! What the values of a package call mean.
ghost use Rattle.std.specs.Prelude.{◌≡◌, Some, IfOk, if◌then◌else◌, codes, None};
ghost use Rattle.std.specs.Option.{option_copied};
ghost use Rattle.std.specs.Str.{bytes_eq};
ghost use Rattle.au_calls.specs.Literals.{is_null, name_in, name_of, option_in, option_named, owner_by, text_in};

use au_base::{Memory, Name, Text};
use sql_ast::Value;
use std::alloc::Global;

/// The name that a text is read as: upper-cased in ASCII, or what stands between two `"`. `None`
/// where it is none.
pub fn name_of(alloc: Global, bytes: &[u8]) -> Result<Option<Name>, Memory>
    ensures { IfOk result (λ name. name ≡ name_of bytes.now) }
{
    match Text::make(alloc, bytes)? {
        Some(text) => name_read(alloc, &text),
        None => Ok(None),
    }
}

fn name_read(alloc: Global, text: &Text) -> Result<Option<Name>, Memory>
    ensures { IfOk result (λ name. name ≡ name_of text.now) }
{
    let _bytes = text.as_bytes();
    Name::identifier(alloc, text)
}

/// A name that must be there. `None` for a value of a wrong kind, or one that is no name.
pub fn name_in(alloc: Global, value: Option<&Value>) -> Result<Option<Name>, Memory>
    ensures { IfOk result (λ name. name ≡ name_in (option_copied value.entry)) }
{
    match value {
        Some(Value::Literal(text)) => name_read(alloc, text),
        _ => Ok(None),
    }
}

/// A text, where there is one: NULL is none. `None` for a value of a wrong kind.
pub fn text_in(value: Option<&Value>) -> Result<Option<Option<Text>>, Memory>
    ensures { IfOk result (λ text. text ≡ text_in (option_copied value.entry)) }
{
    match value {
        None => Ok(Some(None)),
        Some(value) => text_of(value),
    }
}

fn text_of(value: &Value) -> Result<Option<Option<Text>>, Memory>
    ensures { IfOk result (λ text. text ≡ text_in (Some value.now)) }
{
    match value {
        Value::Null => Ok(Some(None)),
        Value::Literal(text) => Ok(Some(some_text(text)?)),
        Value::Number(_)
        | Value::True
        | Value::False
        | Value::Constant(_, _)
        | Value::Now
        | Value::Moment(_) => Ok(None),
    }
}

// The empty text is NULL.
fn some_text(text: &Text) -> Result<Option<Text>, Memory>
    ensures { IfOk result (λ some. Some some ≡ text_in (Some (Value.Literal text.now))) }
{
    if text.as_bytes().is_empty() {
        return Ok(None);
    }
    Ok(Some(text.clone()?))
}

/// Whether the value is NULL, or the parameter isn't given.
pub fn is_null(value: Option<&Value>) -> bool
    ensures { result ≡ is_null (option_copied value.entry) }
{
    match value {
        None => true,
        Some(value) => is_null_value(value),
    }
}

fn is_null_value(value: &Value) -> bool
    ensures { result ≡ is_null (Some value.now) }
{
    match value {
        Value::Null => true,
        Value::Literal(text) => is_empty(text),
        Value::Number(_)
        | Value::True
        | Value::False
        | Value::Constant(_, _)
        | Value::Now
        | Value::Moment(_) => false,
    }
}

fn is_empty(text: &Text) -> bool
    ensures { result ≡ is_null (Some (Value.Literal text.now)) }
{
    text.as_bytes().is_empty()
}

/// The owner of the table by what the schema is given: the user where that is NULL. `None` where it
/// can't be read.
pub fn owner_by(
    alloc: Global,
    user: &Name,
    schema: &Option<Option<Text>>,
) -> Result<Option<Name>, Memory>
    ensures { IfOk result (λ owner. owner ≡ owner_by user.now schema.now) }
{
    match schema {
        None => Ok(None),
        Some(None) => Ok(Some(user.clone()?)),
        Some(Some(text)) => name_read(alloc, text),
    }
}

/// Whether all columns are asked for, and not one of them. `None` where the option is none.
pub fn option_in(value: Option<&Value>) -> Option<bool>
    ensures { result ≡ option_in (option_copied value.entry) }
{
    match value {
        None => Some(false),
        Some(value) => option_of(value),
    }
}

fn option_of(value: &Value) -> Option<bool>
    ensures { result ≡ option_in (Some value.now) }
{
    match value {
        Value::Constant(home, name) => option_at(home, name),
        Value::Literal(_)
        | Value::Number(_)
        | Value::Null
        | Value::True
        | Value::False
        | Value::Now
        | Value::Moment(_) => None,
    }
}

fn option_at(home: &Name, name: &Name) -> Option<bool>
    ensures { result ≡ (if bytes_eq home.now (codes "DBMS_FGA") then option_named name.now else None) }
{
    if home.as_str() == "DBMS_FGA" {
        option_named(name)
    } else {
        None
    }
}

fn option_named(name: &Name) -> Option<bool>
    ensures { result ≡ option_named name.now }
{
    if name.as_str() == "ANY_COLUMNS" {
        return Some(false);
    }
    if name.as_str() == "ALL_COLUMNS" {
        return Some(true);
    }
    None
}
