//! A whole text.
ghost use Rattle.std.specs.Prelude.{◌≡◌, ◌↔◌, List, ℕ, ◌^◌, ◌<◌, length, IfOk, MatchResult, Some, None};
ghost use Rattle.sql_lex.specs.declared.token.Token.{Token};
ghost use Rattle.sql_lex.specs.Tokens.{AreTokens, IsStuckAt, StandInOrder};
ghost use Rattle.sql_lex.specs.descent.Cutting.{tokens_of};

use crate::gap::past_gap;
use crate::lexeme::token_at;
use crate::token::{LexFault, Token};
use au_base::Memory;
use std::alloc::Global;

/// The tokens of a text, or the first place that tokens lead to and none starts at.
pub fn tokens(alloc: Global, text: &[u8]) -> Result<Result<Vec<Token>, LexFault>, Memory>
    requires { length text.now < 2 ^ 32 }
    ensures { IfOk result (λ found. MatchResult found (λ tokens. AreTokens text.now tokens.items)
        (λ fault. IsStuckAt text.now fault.at)) }
{
    let mut tokens = Vec::new(alloc);
    let mut rest = text;
    let mut at: u32 = 0;
    while !rest.is_empty() {
        match past_gap(rest) {
            Some(behind) => {
                at += (rest.len() - behind.len()) as u32;
                rest = behind;
            }
            None => match token_at(alloc, rest)? {
                Some((kind, behind)) => {
                    let to = at + (rest.len() - behind.len()) as u32;
                    tokens.push(Token { kind, from: at, to })?;
                    at = to;
                    rest = behind;
                }
                None => return Ok(Err(LexFault { at })),
            },
        }
    }
    Ok(Ok(tokens))
}

/// A text is cut into tokens in one way, and in none where it has a place at which none starts.
/// Tokens stand in order, each within the text.
pub fn one_way()
    ensures tokens { (text : List ℕ) (ts us : List Token) → AreTokens text ts → AreTokens text us → ts ≡ us }
    ensures fault { (text : List ℕ) (place : ℕ) (ts : List Token) → IsStuckAt text place → ¬ (AreTokens text ts) }
    ensures places { (text : List ℕ) (ts : List Token) → AreTokens text ts → StandInOrder 0 ts (length text) }
{}

/// `tokens_of` gives the tokens that a text is, and none where it has none.
pub fn cut_as_told()
    ensures some { (text : List ℕ) (ts : List Token) → (tokens_of text ≡ Some ts) ↔ AreTokens text ts }
    ensures none { (text : List ℕ) → (tokens_of text ≡ None) ↔ ((ts : List Token) → ¬ (AreTokens text ts)) }
{}
