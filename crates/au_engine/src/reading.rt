//! What texts are read as.
ghost use Rattle.std.specs.Prelude.{IfOk};
ghost use Rattle.au_step.specs.Reading.{IsReadOf};

use au_base::{Ask, Code, Memory};
use sql_ast::Statement;
use sql_parse_admin::read;
use std::alloc::Global;

/// What the text that is asked is read as. An ask without a text has some value.
pub fn reading_of(alloc: Global, ask: &Ask) -> Result<Result<Statement, Code>, Memory>
    ensures { IfOk result (IsReadOf ask.now) }
{
    match ask {
        Ask::Sql(text) => read(alloc, text.as_bytes()),
        Ask::Local | Ask::Logon { .. } | Ask::Logoff => Ok(Err(Code::NOT_READ)),
    }
}
