//! Laws of the words.
ghost use Rattle.std.specs.Prelude.{◌≡◌, ℕ, List};
ghost use Rattle.au_words.specs.declared.command.Command.{Command};
ghost use Rattle.au_words.specs.Words.{IsCommand};

/// Words are one command at most.
#[tactic(auto, using(crate::proofs::OneLaws::same_init, crate::proofs::OneLaws::same_sample, crate::proofs::OneLaws::same_serve))]
pub fn one_command()
    ensures { (words : List (List ℕ)) (a b : Command) → IsCommand words a → IsCommand words b → a ≡ b }
{}
