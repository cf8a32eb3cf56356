//! The users whom logons name.
ghost use Rattle.std.specs.Prelude.{◌≡◌, IfOk};
ghost use Rattle.au_audit.specs.Statements.{logon_user};
ghost use Rattle.au_logon.specs.Admitting.{names_nobody};

use au_base::{Memory, Name, Text};
use std::alloc::Global;

/// Whether the text names nobody, and the user whom it names, `?` where that is nobody.
pub fn user_of(alloc: Global, text: &Text) -> Result<(bool, Name), Memory>
    ensures { IfOk result (λ read. read ≡ (names_nobody text.now, logon_user text.now)) }
{
    let _bytes = text.as_bytes();
    match Name::identifier(alloc, text)? {
        Some(name) => Ok((false, name)),
        None => Ok((true, Name::from_str(alloc, "?")?)),
    }
}
