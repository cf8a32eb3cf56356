//! The end of a statement.
ghost use Rattle.sql_parse.specs.Symbols.{kinds};
ghost use Rattle.sql_parse.specs.descent.Ending.{Ends};

use crate::cursor::{all_of, past_mark};
use crate::stop::Stop;
use au_base::Memory;
use sql_ast::Statement;
use sql_lex::{Mark, Token};

/// The statement that was read, with `;` behind it or without. `None` where none was, or where other
/// tokens stand behind it.
pub fn whole(read: Result<(Statement, &[Token]), Stop>) -> Result<Option<Statement>, Memory>
    ensures { Ends (λ x. (x.0, kinds x.1.now)) read.entry result }
{
    match read {
        Ok((found, rest)) => Ok(all_of(found, past_mark(rest, Mark::Semicolon))),
        Err(Stop::Unread) => Ok(None),
        Err(Stop::Memory) => Err(Memory),
    }
}
