//! What the parameters of a package call are given.
ghost use Rattle.std.specs.Prelude.{◌≡◌, Some};
ghost use Rattle.std.specs.List.{find};
ghost use Rattle.std.specs.Option.{option_copied};
ghost use Rattle.au_calls.specs.Arguments.{given, number_of, same_parameter, truth_in};

use sql_ast::{Argument, Parameter, Value};

/// What the parameter is given, where it is.
pub fn given<'a>(arguments: &'a [Argument], name: Parameter) -> Option<&'a Value>
    ensures { option_copied result ≡ given arguments.now name }
{
    match argument_of(arguments, name) {
        Some(argument) => Some(&argument.value),
        None => None,
    }
}

fn argument_of<'a>(arguments: &'a [Argument], name: Parameter) -> Option<&'a Argument>
    ensures { option_copied result ≡ find (λ argument. same_parameter argument.parameter name) arguments.now }
{
    arguments
        .iter()
        .find(|argument| is_same_parameter(argument.parameter, name))
}

fn is_same_parameter(a: Parameter, b: Parameter) -> bool
    ensures { result ≡ same_parameter a b }
{
    number_of(a) == number_of(b)
}

fn number_of(name: Parameter) -> u8
    ensures { result ≡ number_of name }
{
    match name {
        Parameter::ObjectSchema => 0,
        Parameter::ObjectName => 1,
        Parameter::PolicyName => 2,
        Parameter::AuditCondition => 3,
        Parameter::AuditColumn => 4,
        Parameter::HandlerSchema => 5,
        Parameter::HandlerModule => 6,
        Parameter::Enable => 7,
        Parameter::StatementTypes => 8,
        Parameter::AuditColumnOpts => 9,
        Parameter::AuditTrailType => 10,
        Parameter::LastArchiveTime => 11,
        Parameter::UseLastArchTimestamp => 12,
    }
}

/// TRUE or FALSE, or TRUE where the parameter isn't given. `None` for a value of a wrong kind.
pub fn truth_in(value: Option<&Value>) -> Option<bool>
    ensures { result ≡ truth_in (option_copied value.entry) }
{
    match value {
        None => Some(true),
        Some(value) => truth_of(value),
    }
}

fn truth_of(value: &Value) -> Option<bool>
    ensures { result ≡ truth_in (Some value.now) }
{
    match value {
        Value::True => Some(true),
        Value::False => Some(false),
        Value::Literal(_)
        | Value::Number(_)
        | Value::Null
        | Value::Constant(_, _)
        | Value::Now
        | Value::Moment(_) => None,
    }
}
