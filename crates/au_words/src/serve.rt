//! The options of `serve`.
ghost use Rattle.std.specs.Prelude.{◌≡◌, ◌∷◌, ℕ, List, IfOk, MatchOption, codes, option_map};
ghost use Rattle.clap.specs.Words.{app_of};
ghost use Rattle.au_words.specs.descent.Options.{FindsServe, options_app, serve_options};
ghost use Rattle.au_words.specs.Words.{IsConnectionsOf, IsNumberWithin, IsServe};

use crate::numbers::{number_of, number_within};
use crate::options::{bare_command, matches_of, str_words, with_option};
use au_base::limits::WORKERS;
use au_base::{Memory, Text};
use clap::{ArgMatches, Command};
use std::alloc::Global;

/// The port, the workers and the connections that the options of `serve` name.
pub(crate) fn serve_of(alloc: Global, options: &[Text]) -> Result<Option<(u16, u32, u32)>, Memory>
    ensures { IfOk result (λ found. MatchOption found
        ((port workers connections : ℕ) → IsServe (codes "serve" ∷ options.now) port workers connections → ⊥)
        (λ serve. IsServe (codes "serve" ∷ options.now) serve.0 serve.1 serve.2)) }
{
    let words = str_words(alloc, options)?;
    let command = serve_command(alloc)?;
    match matches_of(command, words.as_slice())? {
        Some(found) => Ok(numbers_of(&found)),
        None => Ok(None),
    }
}

// The command `serve`, as `clap` reads what comes behind its name.
fn serve_command<'a>(alloc: Global) -> Result<Command<'a>, Memory>
    ensures { IfOk result (λ command. app_of command ≡ options_app (codes "serve") serve_options) }
{
    let command = bare_command(alloc, "serve");
    let command = with_option(alloc, command, "port", true)?;
    let command = with_option(alloc, command, "workers", true)?;
    with_option(alloc, command, "connections", false)
}

// The port, the workers and the connections that the texts of the options are.
fn numbers_of(found: &ArgMatches<'_>) -> Option<(u16, u32, u32)>
    ensures { MatchOption result
        ((port workers connections : ℕ) → FindsServe found.now port workers connections → ⊥)
        (λ serve. FindsServe found.now serve.0 serve.1 serve.2) }
{
    let port = port_of(found.get_str("port")?)?;
    let workers = number_within(found.get_str("workers")?, 1, WORKERS)?;
    let connections = connections_of(found.get_str("connections"))?;
    Some((port, workers, connections))
}

// The port that the text is.
fn port_of(text: &str) -> Option<u16>
    ensures { MatchOption result ((port : ℕ) → IsNumberWithin 1 65_535 text.now port → ⊥)
        (λ port. IsNumberWithin 1 65_535 text.now port) }
{
    match text.parse::<u16>() {
        Ok(port) if port > 0 => Some(port),
        _ => None,
    }
}

// The number of connections that the text is, or 0 where there is no text.
fn connections_of(text: Option<&str>) -> Option<u32>
    ensures { MatchOption result ((connections : ℕ) → IsConnectionsOf (option_map (λ s. s.now) text.entry) connections → ⊥)
        (λ connections. IsConnectionsOf (option_map (λ s. s.now) text.entry) connections) }
{
    match text {
        Some(text) => number_of(text),
        None => Some(0),
    }
}
