//! What is granted: system privileges, roles, and rights on a table.
ghost use Rattle.std.specs.Option.{option_map};
ghost use Rattle.std.specs.Prelude.{◌≡◌};
ghost use Rattle.au_base.specs.Privileges;
ghost use Rattle.sql_parse.specs.Symbols.{kinds};
ghost use Rattle.sql_parse.specs.descent.Reading.{Gives};
ghost use Rattle.sql_parse_admin.specs.descent.ReadPrivileges as spec;

use crate::words::{Named, first_of};
use au_base::{List, ObjectRight, Privilege, Right};
use sql_lex::Token;
use sql_parse::Stop;
use sql_parse::cursor::{behind, past_word, sees_word};
use sql_parse::lists::{Part, parted};
use sql_parse::names::name;
use std::alloc::Global;

/// `right = privilege | name`
#[tactic(auto, unfolding(crate::specs::descent::ReadPrivileges::right))]
pub fn right(alloc: Global, tokens: &[Token]) -> Result<(Right, &[Token]), Stop>
    ensures { Gives (λ x. (x.0, kinds x.1.now)) result (spec.right (kinds tokens.now)) }
{
    // A privilege begins with a reserved word, which is no name.
    match name(alloc, tokens) {
        Ok((role, rest)) => Ok((Right::Role(role), rest)),
        Err(Stop::Unread) => {
            let (found, rest) = privilege(tokens).ok_or(Stop::Unread)?;
            Ok((Right::Privilege(found), rest))
        }
        Err(Stop::Memory) => Err(Stop::Memory),
    }
}

/// `oright = SELECT | INSERT | UPDATE | DELETE | ALL [PRIVILEGES]`
#[tactic(auto, unfolding(crate::specs::descent::ReadPrivileges::object_right))]
pub fn object_right(tokens: &[Token]) -> Option<(ObjectRight, &[Token])>
    ensures { option_map (λ x. (x.0, kinds x.1.now)) result ≡ spec.object_right (kinds tokens.now) }
{
    let rest = behind(tokens);
    if sees_word(tokens, b"SELECT") {
        Some((ObjectRight::Select, rest))
    } else if sees_word(tokens, b"INSERT") {
        Some((ObjectRight::Insert, rest))
    } else if sees_word(tokens, b"UPDATE") {
        Some((ObjectRight::Update, rest))
    } else if sees_word(tokens, b"DELETE") {
        Some((ObjectRight::Delete, rest))
    } else if sees_word(tokens, b"ALL") {
        Some((ObjectRight::All, past_word(rest, b"PRIVILEGES")))
    } else {
        None
    }
}

/// Whether a right on a table comes next: ALL, or an action that isn't the first word of a system
/// privilege.
pub fn is_object_right(tokens: &[Token]) -> bool
    ensures { result ≡ spec.is_object_right (kinds tokens.now) }
{
    sees_word(tokens, b"ALL") || (!sees_word(behind(tokens), b"ANY") && is_action(tokens))
}

fn is_action(tokens: &[Token]) -> bool
    ensures { result ≡ spec.is_action (kinds tokens.now) }
{
    sees_word(tokens, b"SELECT")
        || sees_word(tokens, b"INSERT")
        || sees_word(tokens, b"UPDATE")
        || sees_word(tokens, b"DELETE")
}

/// `privilege {, privilege}`
#[tactic(auto, unfolding(crate::specs::descent::ReadPrivileges::privileges))]
pub fn privileges(alloc: Global, tokens: &[Token]) -> Result<(List<Privilege>, &[Token]), Stop>
    ensures { Gives (λ x. (x.0, kinds x.1.now)) result (spec.privileges (kinds tokens.now)) }
{
    parted(alloc, &PrivilegePart, tokens)
}

struct PrivilegePart;

impl Part for PrivilegePart {
    type Tree = Privilege;

    ghost reading = { λ _. spec.privilege };

    fn read<'t>(
        &self,
        _alloc: Global,
        tokens: &'t [Token],
    ) -> Result<(Privilege, &'t [Token]), Stop> {
        privilege(tokens).ok_or(Stop::Unread)
    }
}

#[tactic(auto, unfolding(crate::specs::descent::ReadPrivileges::privilege))]
fn privilege(tokens: &[Token]) -> Option<(Privilege, &[Token])>
    ensures { option_map (λ x. (x.0, kinds x.1.now)) result ≡ spec.privilege (kinds tokens.now) }
{
    first_of(&Privilege::EACH, tokens)
}

impl Named for Privilege {
    ghost name_of = { Privileges.name_of };

    fn name(self) -> &'static str {
        Privilege::name(self)
    }
}
