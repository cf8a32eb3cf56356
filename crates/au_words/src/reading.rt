//! The words as a command.
ghost use Rattle.std.specs.Prelude.{◌≡◌, ◌∷◌, [], ℕ, List, IfOk, MatchOption};
ghost use Rattle.au_words.specs.declared.command.Command.{Command as AnyCommand};
ghost use Rattle.au_words.specs.Words.{IsCommand};

use crate::command::Command;
use crate::init::init_of;
use crate::sample::sample_of;
use crate::serve::serve_of;
use au_base::{Memory, Text};
use std::alloc::Global;

/// The command that the words are.
///
/// It is `run`, `trail` or `check`; `init` and its options `--sys-password TEXT` and perhaps
/// `--limit N`; `sample` and its options `--seed N` and `--rows N`; or `serve` and its options
/// `--port N`, `--workers N` and perhaps `--connections N`. Options come in any order, as
/// `--name value` or as `--name=value`.
pub fn command_of(alloc: Global, words: &[Text]) -> Result<Option<Command>, Memory>
    ensures { IfOk result (λ found. MatchOption found ((command : AnyCommand) → IsCommand words.now command → ⊥) (λ command. IsCommand words.now command)) }
{
    let Some((word, options)) = words.split_first() else {
        return Ok(None);
    };
    match word.as_str() {
        "init" => {
            let init = init_of(alloc, options)?;
            Ok(init.map(|(password, limit)| Command::Init { password, limit }))
        }
        "sample" => {
            let sample = sample_of(alloc, options)?;
            Ok(sample.map(|(seed, rows)| Command::Sample { seed, rows }))
        }
        "serve" => {
            let serve = serve_of(alloc, options)?;
            Ok(serve.map(|(port, workers, connections)| Command::Serve {
                port,
                workers,
                connections,
            }))
        }
        word if options.is_empty() => Ok(plain_command(word)),
        _ => Ok(None),
    }
}

// The command that is the one word.
#[tactic(auto, using(crate::proofs::OneLaws::init_alone, crate::proofs::OneLaws::sample_alone, crate::proofs::OneLaws::serve_alone))]
fn plain_command(word: &str) -> Option<Command>
    ensures { MatchOption result ((command : AnyCommand) → IsCommand (word.now ∷ []) command → ⊥) (λ command. IsCommand (word.now ∷ []) command) }
{
    match word {
        "run" => Some(Command::Run),
        "trail" => Some(Command::Trail),
        "check" => Some(Command::Check),
        _ => None,
    }
}
