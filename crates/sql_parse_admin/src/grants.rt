//! GRANT and REVOKE.
ghost use Rattle.std.specs.Option.{option_map};
ghost use Rattle.std.specs.Prelude.{◌≡◌};
ghost use Rattle.sql_parse.specs.Symbols.{kinds};
ghost use Rattle.sql_parse.specs.descent.Reading.{Gives};
ghost use Rattle.sql_parse_admin.specs.descent.ReadGrants as spec;
ghost use Rattle.sql_parse_admin.specs.descent.ReadPrivileges as privileges;

use crate::privileges::{is_object_right, object_right, right};
use au_base::{GrantStatement, List, Name, ObjectRight, Right, TableReference};
use sql_lex::Token;
use sql_parse::Stop;
use sql_parse::cursor::{behind, expect_word, sees_word};
use sql_parse::lists::{Part, parted};
use sql_parse::tables::{names, table};
use std::alloc::Global;

/// A GRANT whose first word came before.
#[tactic(auto, unfolding(crate::specs::descent::ReadGrants::grant))]
pub fn grant(alloc: Global, tokens: &[Token]) -> Result<(GrantStatement, &[Token]), Stop>
    ensures { Gives (λ x. (x.0, kinds x.1.now)) result (spec.grant (kinds tokens.now)) }
{
    if is_object_right(tokens) {
        let (((rights, table), grantees), rest) = object_rights_of(alloc, tokens, b"TO")?;
        let found = GrantStatement::GrantObject {
            rights,
            table,
            grantees,
        };
        return Ok((found, rest));
    }
    let ((rights, grantees), rest) = rights_of(alloc, tokens, b"TO")?;
    let (with_admin_option, rest) = admin_option(rest).ok_or(Stop::Unread)?;
    let found = GrantStatement::Grant {
        rights,
        grantees,
        with_admin_option,
    };
    Ok((found, rest))
}

/// A REVOKE whose first word came before.
#[tactic(auto, unfolding(crate::specs::descent::ReadGrants::revoke))]
pub fn revoke(alloc: Global, tokens: &[Token]) -> Result<(GrantStatement, &[Token]), Stop>
    ensures { Gives (λ x. (x.0, kinds x.1.now)) result (spec.revoke (kinds tokens.now)) }
{
    if is_object_right(tokens) {
        let (((rights, table), grantees), rest) = object_rights_of(alloc, tokens, b"FROM")?;
        let found = GrantStatement::RevokeObject {
            rights,
            table,
            grantees,
        };
        return Ok((found, rest));
    }
    let ((rights, grantees), rest) = rights_of(alloc, tokens, b"FROM")?;
    Ok((GrantStatement::Revoke { rights, grantees }, rest))
}

// Rights, and behind the word who gets or loses them.
#[tactic(auto, unfolding(crate::specs::descent::ReadGrants::rights_of))]
fn rights_of<'t>(
    alloc: Global,
    tokens: &'t [Token],
    word: &[u8],
) -> Result<((List<Right>, List<Name>), &'t [Token]), Stop>
    ensures { Gives (λ x. (x.0, kinds x.1.now)) result (spec.rights_of word.now (kinds tokens.now)) }
{
    let (rights, rest) = rights(alloc, tokens)?;
    let rest = expect_word(rest, word).ok_or(Stop::Unread)?;
    let (grantees, rest) = names(alloc, rest)?;
    Ok(((rights, grantees), rest))
}

// Rights on a table, and behind the word who gets or loses them.
#[tactic(auto, unfolding(crate::specs::descent::ReadGrants::object_rights_of))]
fn object_rights_of<'t>(
    alloc: Global,
    tokens: &'t [Token],
    word: &[u8],
) -> Result<
    (
        ((List<ObjectRight>, TableReference), List<Name>),
        &'t [Token],
    ),
    Stop,
>
    ensures { Gives (λ x. (x.0, kinds x.1.now)) result (spec.object_rights_of word.now (kinds tokens.now)) }
{
    let (rights, rest) = object_rights(alloc, tokens)?;
    let rest = expect_word(rest, b"ON").ok_or(Stop::Unread)?;
    let (table, rest) = table(alloc, rest)?;
    let rest = expect_word(rest, word).ok_or(Stop::Unread)?;
    let (grantees, rest) = names(alloc, rest)?;
    Ok((((rights, table), grantees), rest))
}

// [WITH ADMIN OPTION], and whether it stands there.
#[tactic(auto, unfolding(crate::specs::descent::ReadGrants::admin_option))]
fn admin_option(tokens: &[Token]) -> Option<(bool, &[Token])>
    ensures { option_map (λ x. (x.0, kinds x.1.now)) result ≡ spec.admin_option (kinds tokens.now) }
{
    if !sees_word(tokens, b"WITH") {
        return Some((false, tokens));
    }
    let rest = expect_word(behind(tokens), b"ADMIN")?;
    let rest = expect_word(rest, b"OPTION")?;
    Some((true, rest))
}

#[tactic(auto, unfolding(crate::specs::descent::ReadGrants::rights))]
fn rights(alloc: Global, tokens: &[Token]) -> Result<(List<Right>, &[Token]), Stop>
    ensures { Gives (λ x. (x.0, kinds x.1.now)) result (spec.rights (kinds tokens.now)) }
{
    parted(alloc, &RightPart, tokens)
}

struct RightPart;

impl Part for RightPart {
    type Tree = Right;

    ghost reading = { λ _. privileges.right };

    fn read<'t>(&self, alloc: Global, tokens: &'t [Token]) -> Result<(Right, &'t [Token]), Stop> {
        right(alloc, tokens)
    }
}

#[tactic(auto, unfolding(crate::specs::descent::ReadGrants::object_rights))]
fn object_rights(alloc: Global, tokens: &[Token]) -> Result<(List<ObjectRight>, &[Token]), Stop>
    ensures { Gives (λ x. (x.0, kinds x.1.now)) result (spec.object_rights (kinds tokens.now)) }
{
    parted(alloc, &ObjectRightPart, tokens)
}

struct ObjectRightPart;

impl Part for ObjectRightPart {
    type Tree = ObjectRight;

    ghost reading = { λ _. privileges.object_right };

    fn read<'t>(
        &self,
        _alloc: Global,
        tokens: &'t [Token],
    ) -> Result<(ObjectRight, &'t [Token]), Stop> {
        object_right(tokens).ok_or(Stop::Unread)
    }
}
