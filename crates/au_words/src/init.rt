//! The options of `init`.
ghost use Rattle.std.specs.Prelude.{◌≡◌, ◌∷◌, ◌↔◌, ℕ, List, IfOk, IsTrue, MatchOption, codes, option_map};
ghost use Rattle.clap.specs.Words.{app_of};
ghost use Rattle.au_words.specs.descent.Options.{FindsInit, init_options, options_app};
ghost use Rattle.au_words.specs.Words.{IsInit, IsLimitOf, IsPassword};

use crate::numbers::number_within;
use crate::options::{bare_command, matches_of, str_words, with_option};
use au_base::limits::{
    JOURNAL_LIMIT_DEFAULT, JOURNAL_LIMIT_MAX, JOURNAL_LIMIT_MIN, PASSWORD_BYTES,
};
use au_base::{Memory, Text};
use clap::{ArgMatches, Command};
use std::alloc::Global;

/// The password and the limit that the options of `init` name.
pub(crate) fn init_of(alloc: Global, options: &[Text]) -> Result<Option<(Text, u32)>, Memory>
    ensures { IfOk result (λ found. MatchOption found
        ((password : List ℕ) (limit : ℕ) → IsInit (codes "init" ∷ options.now) password limit → ⊥)
        (λ init. IsInit (codes "init" ∷ options.now) init.0 init.1)) }
{
    let words = str_words(alloc, options)?;
    let command = init_command(alloc)?;
    match matches_of(command, words.as_slice())? {
        Some(found) => password_and_limit(alloc, &found),
        None => Ok(None),
    }
}

// The command `init`, as `clap` reads what comes behind its name.
fn init_command<'a>(alloc: Global) -> Result<Command<'a>, Memory>
    ensures { IfOk result (λ command. app_of command ≡ options_app (codes "init") init_options) }
{
    let command = bare_command(alloc, "init");
    let command = with_option(alloc, command, "sys-password", true)?;
    with_option(alloc, command, "limit", false)
}

// The password and the limit that the texts of the options are.
fn password_and_limit(alloc: Global, found: &ArgMatches<'_>) -> Result<Option<(Text, u32)>, Memory>
    ensures { IfOk result (λ read. MatchOption read
        ((password : List ℕ) (limit : ℕ) → FindsInit found.now password limit → ⊥)
        (λ init. FindsInit found.now init.0 init.1)) }
{
    match (
        found.get_str("sys-password"),
        limit_of(found.get_str("limit")),
    ) {
        (Some(password), Some(limit)) if is_password(password) => {
            Ok(Some((Text::from_str(alloc, password)?, limit)))
        }
        _ => Ok(None),
    }
}

fn is_password(text: &str) -> bool
    ensures { IsTrue result ↔ IsPassword text.now }
{
    !text.is_empty() && text.len() <= PASSWORD_BYTES
}

// The limit that the text is, or the default where there is no text.
fn limit_of(text: Option<&str>) -> Option<u32>
    ensures { MatchOption result ((limit : ℕ) → IsLimitOf (option_map (λ s. s.now) text.entry) limit → ⊥)
        (λ limit. IsLimitOf (option_map (λ s. s.now) text.entry) limit) }
{
    match text {
        Some(text) => number_within(text, JOURNAL_LIMIT_MIN, JOURNAL_LIMIT_MAX),
        None => Some(JOURNAL_LIMIT_DEFAULT),
    }
}
