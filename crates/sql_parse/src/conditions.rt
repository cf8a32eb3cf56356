//! Conditions by themselves.
ghost use Rattle.std.specs.Prelude.{◌≡◌, ◌↔◌, ◌^◌, ◌<◌, List, ℕ, Some, None, IfOk, MatchOption, length};
ghost use Rattle.sql_ast.specs.declared.expression.Expr.{Expr};
ghost use Rattle.sql_parse.specs.Symbols.{kinds};
ghost use Rattle.sql_parse.specs.descent.Reading.{Gives};
ghost use Rattle.sql_parse.specs.Conditions.{HasNoCondition, IsCondition, ReadsCondition};
ghost use Rattle.sql_parse.specs.Conditions as spec;
ghost use Rattle.sql_parse.specs.Trees.{tree_of, tree_or_null};
ghost use Rattle.sql_parse.specs.descent.Answers as answers;

use crate::cursor::all_of;
use crate::expression::cond;
use crate::stop::Stop;
use au_base::{Memory, limits};
use sql_ast::Expr;
use sql_lex::{Kind, Mark, Token, cut_as_told, one_way, tokens};
use std::alloc::Global;

/// How many parentheses may be open at once.
pub const LIMIT: u32 = limits::OPEN_PARENTHESES as u32;

/// The condition that a text is, as that of an audit policy: one condition without `;`, in which no
/// more than 100 parentheses are open at once. `None` where it is none. That is the text's tree.
pub fn condition(alloc: Global, text: &[u8]) -> Result<Option<Expr>, Memory>
    requires { length text.now < 2 ^ 32 }
    ensures reads { IfOk result (λ found. MatchOption found (HasNoCondition text.now) (ReadsCondition text.now)) }
    ensures tree { IfOk result (λ found. found ≡ tree_of text.now) }
{
    one_way();
    tree_is_condition();
    match tokens(alloc, text)? {
        Ok(tokens) => condition_of(alloc, &tokens),
        Err(_) => Ok(None),
    }
}

/// A text is one condition at most.
pub fn one_condition()
    ensures { (text : List ℕ) (x y : Expr) → ReadsCondition text x → ReadsCondition text y → x ≡ y }
{
    one_way();
}

/// `tree_of` gives the condition that a text is, and none where it is none.
pub fn tree_is_condition()
    ensures some { (text : List ℕ) (x : Expr) → (tree_of text ≡ Some x) ↔ ReadsCondition text x }
    ensures none { (text : List ℕ) → (tree_of text ≡ None) ↔ HasNoCondition text }
    ensures tree { (text : List ℕ) (x : Expr) → ReadsCondition text x → tree_or_null text ≡ x }
{
    cut_as_told();
}

fn condition_of(alloc: Global, tokens: &[Token]) -> Result<Option<Expr>, Memory>
    ensures { IfOk result (λ found. MatchOption found
        ((x : Expr) → ¬ (IsCondition (kinds tokens.now) x))
        (λ x. IsCondition (kinds tokens.now) x)) }
{
    match read(alloc, tokens) {
        Ok(found) => Ok(Some(found)),
        Err(Stop::Unread) => Ok(None),
        Err(Stop::Memory) => Err(Memory),
    }
}

fn read(alloc: Global, tokens: &[Token]) -> Result<Expr, Stop>
    ensures { Gives (λ x. x) result (answers.condition (kinds tokens.now)) }
{
    if !opens_few(tokens) {
        return Err(Stop::Unread);
    }
    let (found, rest) = cond(alloc, LIMIT, tokens)?;
    all_of(found, rest).ok_or(Stop::Unread)
}

/// Whether no more than a hundred parentheses are open at once.
pub fn opens_few(mut tokens: &[Token]) -> bool
    ensures { result ≡ spec.opens_few 0 (kinds tokens.entry.now) }
{
    let mut open: u32 = 0;
    while let [first, rest @ ..] = tokens {
        match &first.kind {
            Kind::Mark(Mark::OpenParenthesis) => {
                if open >= LIMIT {
                    return false;
                }
                open += 1;
            }
            Kind::Mark(Mark::CloseParenthesis) => open = open.saturating_sub(1),
            _ => {}
        }
        tokens = rest;
    }
    true
}
