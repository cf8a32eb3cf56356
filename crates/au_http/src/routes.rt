//! What is served at which target.
ghost use Rattle.std.specs.Prelude.{◌≡◌, IfOk, IsUtf8};
ghost use Rattle.au_http.specs.Routes.{IsTable, route_of};

use au_base::Memory;
use matchit::{InsertError, Router};
use std::alloc::Global;
use std::str;

/// What a request asks for, by its target.
#[derive(Clone, Copy, Debug, PartialEq, Eq)]
pub enum Route {
    Logoff,
    Logon,
    Sql,
}

/// What a target is for. `None` where nothing is served there.
pub(crate) fn route_of(alloc: Global, target: &[u8]) -> Result<Option<Route>, Memory>
    requires { IsUtf8 target.now }
    ensures { IfOk result (λ route. route ≡ route_of target.now) }
{
    match str::from_utf8(target) {
        Ok(target) => match router(alloc) {
            Ok(router) => Ok(found(&router, target)),
            Err(_) => Err(Memory),
        },
        Err(_) => unreachable!(),
    }
}

fn router(alloc: Global) -> Result<Router<Route>, InsertError>
    ensures { IfOk result IsTable }
{
    let mut router = Router::new(alloc);
    router.insert("/logoff", Route::Logoff)?;
    router.insert("/logon", Route::Logon)?;
    router.insert("/sql", Route::Sql)?;
    Ok(router)
}

fn found(router: &Router<Route>, target: &str) -> Option<Route>
    requires { IsTable router.now }
    ensures { result ≡ route_of target.now }
{
    match router.at(target) {
        Ok(found) => Some(*found.value),
        Err(_) => None,
    }
}
