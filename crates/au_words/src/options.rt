//! Options among words, as `clap` finds them.
ghost use Rattle.std.specs.Prelude.{◌≡◌, ◌↔◌, [], IfOk, IsTrue, true};
ghost use Rattle.std.specs.List.{All};
ghost use Rattle.clap.specs.Walk.{texts};
ghost use Rattle.clap.specs.Words.{app_of, is_simple_and_free, with_rule};
ghost use Rattle.au_words.specs.descent.Options.{Finds, IsFormed, option_of, options_app};

use au_base::{Memory, Text};
use clap::error::ErrorKind;
use clap::{Arg, ArgMatches, Command};
use std::alloc::Global;

/// The same words as `&str`, which `clap` takes.
pub(crate) fn str_words(alloc: Global, words: &[Text]) -> Result<Vec<&str>, Memory>
    ensures { IfOk result (λ made. texts made.items ≡ words.now) }
{
    let mut made = Vec::new(alloc);
    for word in words {
        made.push(word.as_str())?;
    }
    Ok(made)
}

/// The command of this name without options, as `clap` reads what comes behind the name.
pub(crate) fn bare_command<'a>(alloc: Global, name: &'a str) -> Command<'a>
    ensures { app_of result ≡ options_app name.entry.now [] }
{
    Command::new(alloc, name)
        .no_binary_name(true)
        .disable_help_flag(true)
}

/// The command with one more option, of this name.
pub(crate) fn with_option<'a>(
    alloc: Global,
    command: Command<'a>,
    name: &'a str,
    required: bool,
) -> Result<Command<'a>, Memory>
    ensures { IfOk result (λ made. app_of made ≡ with_rule (app_of command.entry) (option_of name.entry.now required)) }
{
    let option = Arg::new(alloc, name).long(name).required(required);
    Ok(command.arg(option)?)
}

/// What the command finds among the words. `None` where it refuses them, or one isn't formed.
pub(crate) fn matches_of<'a>(
    command: Command<'a>,
    words: &'a [&'a str],
) -> Result<Option<ArgMatches<'a>>, Memory>
    requires { is_simple_and_free (app_of command) ≡ true }
    ensures { IfOk result (λ found. Finds (app_of command.entry) (texts words.entry.now) found) }
{
    if !are_formed(words) {
        return Ok(None);
    }
    match command.try_get_matches_from(words) {
        Ok(found) => Ok(Some(found)),
        Err(error) => match error.kind() {
            ErrorKind::OutOfMemory => Err(Memory),
            _ => Ok(None),
        },
    }
}

fn are_formed(words: &[&str]) -> bool
    ensures { IsTrue result ↔ All IsFormed (texts words.now) }
{
    words.iter().all(|word| is_formed(word))
}

// Whether the word may be an option, or an option's value in a word of its own. `clap` would also
// take `--` anywhere, and `-` and an empty word as values.
fn is_formed(word: &str) -> bool
    ensures { IsTrue result ↔ IsFormed word.now }
{
    match word.strip_prefix("--") {
        Some(rest) => !rest.is_empty(),
        None => !word.is_empty() && !word.starts_with('-'),
    }
}
