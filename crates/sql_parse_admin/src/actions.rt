//! The actions of audit policies.
ghost use Rattle.std.specs.Option.{option_map};
ghost use Rattle.std.specs.Prelude.{◌≡◌};
ghost use Rattle.au_base.specs.Actions;
ghost use Rattle.sql_parse.specs.Symbols.{kinds};
ghost use Rattle.sql_parse.specs.descent.Reading.{Gives};
ghost use Rattle.sql_parse_admin.specs.descent.ReadPolicies as spec;

use crate::words::{Named, first_of};
use au_base::{Action, List, TableReference};
use sql_ast::ActionPart;
use sql_lex::Token;
use sql_parse::Stop;
use sql_parse::cursor::{behind, sees_word};
use sql_parse::lists::{Part, parted};
use sql_parse::tables::table;
use std::alloc::Global;

/// `part {, part}`
#[tactic(auto, unfolding(crate::specs::descent::ReadPolicies::parts))]
pub fn parts(alloc: Global, tokens: &[Token]) -> Result<(List<ActionPart>, &[Token]), Stop>
    ensures { Gives (λ x. (x.0, kinds x.1.now)) result (spec.parts (kinds tokens.now)) }
{
    parted(alloc, &PolicyPart, tokens)
}

struct PolicyPart;

impl Part for PolicyPart {
    type Tree = ActionPart;

    ghost reading = { λ _. spec.part };

    fn read<'t>(
        &self,
        alloc: Global,
        tokens: &'t [Token],
    ) -> Result<(ActionPart, &'t [Token]), Stop> {
        part(alloc, tokens)
    }
}

// `part = action | (ALL | SELECT | INSERT | UPDATE | DELETE) ON table`
#[tactic(auto, unfolding(crate::specs::descent::ReadPolicies::part))]
fn part(alloc: Global, tokens: &[Token]) -> Result<(ActionPart, &[Token]), Stop>
    ensures { Gives (λ x. (x.0, kinds x.1.now)) result (spec.part (kinds tokens.now)) }
{
    let (action, rest) = action(tokens).ok_or(Stop::Unread)?;
    let (table, rest) = on_table(alloc, action, rest)?;
    Ok((ActionPart { action, table }, rest))
}

// [ON table] behind an action, where the action may have a table.
#[tactic(auto, unfolding(crate::specs::descent::ReadPolicies::on_table))]
fn on_table(
    alloc: Global,
    action: Action,
    tokens: &[Token],
) -> Result<(Option<TableReference>, &[Token]), Stop>
    ensures { Gives (λ x. (x.0, kinds x.1.now)) result (spec.on_table action (kinds tokens.now)) }
{
    if !sees_word(tokens, b"ON") {
        return Ok((None, tokens));
    }
    if !may_have_table(action) {
        return Err(Stop::Unread);
    }
    let (table, rest) = table(alloc, behind(tokens))?;
    Ok((Some(table), rest))
}

fn may_have_table(action: Action) -> bool
    ensures { result ≡ spec.may_have_table action }
{
    match action {
        Action::All | Action::Select | Action::Insert | Action::Update | Action::Delete => true,
        _ => false,
    }
}

#[tactic(auto, unfolding(crate::specs::descent::ReadPolicies::action))]
fn action(tokens: &[Token]) -> Option<(Action, &[Token])>
    ensures { option_map (λ x. (x.0, kinds x.1.now)) result ≡ spec.action (kinds tokens.now) }
{
    first_of(&Action::EACH, tokens)
}

impl Named for Action {
    ghost name_of = { Actions.name_of };

    fn name(self) -> &'static str {
        Action::name(self)
    }
}
