//! What the body of a request asks for.
ghost use Rattle.std.specs.Prelude.{◌≡◌, IfOk, option_map, option_and_then};
ghost use Rattle.serde_json.specs.View.{view};
ghost use Rattle.au_http.specs.Bodies.{ask_of, logon_of, sql_of, string_at, value_of};

use crate::routes::Route;
use au_base::{Ask, Memory, Text};
use serde_json::Value;
use std::alloc::Global;

/// The ask of a request. `None` where the body doesn't have what the route needs.
pub(crate) fn ask_of(alloc: Global, route: Route, body: &[u8]) -> Result<Option<Ask>, Memory>
    ensures { IfOk result (λ ask. ask ≡ ask_of route body.now) }
{
    match route {
        Route::Logoff => Ok(Some(Ask::Logoff)),
        Route::Logon => match read_value(alloc, body)? {
            Some(value) => logon_of(alloc, &value),
            None => Ok(None),
        },
        Route::Sql => match read_value(alloc, body)? {
            Some(value) => sql_of(alloc, &value),
            None => Ok(None),
        },
    }
}

fn read_value(alloc: Global, body: &[u8]) -> Result<Option<Value>, Memory>
    ensures { IfOk result (λ value. option_map view value ≡ value_of body.now) }
{
    match Value::from_slice(alloc, body) {
        Ok(value) => Ok(Some(value)),
        Err(e) if e.is_memory() => Err(Memory),
        Err(_) => Ok(None),
    }
}

fn logon_of(alloc: Global, value: &Value) -> Result<Option<Ask>, Memory>
    ensures { IfOk result (λ ask. ask ≡ logon_of (view value.now)) }
{
    let user = match string_at(alloc, value, "user")? {
        Some(user) => user,
        None => return Ok(None),
    };
    match string_at(alloc, value, "password")? {
        Some(password) => Ok(Some(Ask::Logon { user, password })),
        None => Ok(None),
    }
}

fn sql_of(alloc: Global, value: &Value) -> Result<Option<Ask>, Memory>
    ensures { IfOk result (λ ask. ask ≡ sql_of (view value.now)) }
{
    match string_at(alloc, value, "sql")? {
        Some(text) => Ok(Some(Ask::Sql(text))),
        None => Ok(None),
    }
}

fn string_at(alloc: Global, value: &Value, name: &str) -> Result<Option<Text>, Memory>
    ensures { IfOk result (λ text. text ≡ string_at name.now (view value.now)) }
{
    match value.get(name).and_then(Value::as_str) {
        Some(text) => Ok(Some(Text::from_str(alloc, text)?)),
        None => Ok(None),
    }
}
