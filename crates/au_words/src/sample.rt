//! The options of `sample`.
ghost use Rattle.std.specs.Prelude.{◌≡◌, ◌∷◌, ℕ, List, IfOk, MatchOption, codes};
ghost use Rattle.clap.specs.Words.{app_of};
ghost use Rattle.au_words.specs.descent.Options.{FindsSample, options_app, sample_options};
ghost use Rattle.au_words.specs.Words.{IsSample};

use crate::numbers::{number_of, number_within};
use crate::options::{bare_command, matches_of, str_words, with_option};
use au_base::limits::SAMPLE_ROWS;
use au_base::{Memory, Text};
use clap::{ArgMatches, Command};
use std::alloc::Global;

/// The seed and the rows that the options of `sample` name.
pub(crate) fn sample_of(alloc: Global, options: &[Text]) -> Result<Option<(u32, u32)>, Memory>
    ensures { IfOk result (λ found. MatchOption found
        ((seed rows : ℕ) → IsSample (codes "sample" ∷ options.now) seed rows → ⊥)
        (λ sample. IsSample (codes "sample" ∷ options.now) sample.0 sample.1)) }
{
    let words = str_words(alloc, options)?;
    let command = sample_command(alloc)?;
    match matches_of(command, words.as_slice())? {
        Some(found) => Ok(seed_and_rows(&found)),
        None => Ok(None),
    }
}

// The command `sample`, as `clap` reads what comes behind its name.
fn sample_command<'a>(alloc: Global) -> Result<Command<'a>, Memory>
    ensures { IfOk result (λ command. app_of command ≡ options_app (codes "sample") sample_options) }
{
    let command = bare_command(alloc, "sample");
    let command = with_option(alloc, command, "seed", true)?;
    with_option(alloc, command, "rows", true)
}

// The seed and the rows that the texts of the options are.
fn seed_and_rows(found: &ArgMatches<'_>) -> Option<(u32, u32)>
    ensures { MatchOption result
        ((seed rows : ℕ) → FindsSample found.now seed rows → ⊥)
        (λ sample. FindsSample found.now sample.0 sample.1) }
{
    let seed = number_of(found.get_str("seed")?)?;
    let rows = number_within(found.get_str("rows")?, 1, SAMPLE_ROWS)?;
    Some((seed, rows))
}
