//! What became of the condition in a statement.
ghost use Rattle.std.specs.Prelude.{◌≡◌};
ghost use Rattle.au_calls.specs.Reading.{is_bad, is_wrong, wrong_code};

use au_base::Code;
use au_entries::ReadCondition;

/// Whether it has no reading, or isn't one that a policy may have.
pub fn is_bad(read: &ReadCondition) -> bool
    ensures { result ≡ is_bad read.now }
{
    match read {
        ReadCondition::Bad => true,
        ReadCondition::NotAsked | ReadCondition::Wrong(_) | ReadCondition::Tree(_) => false,
    }
}

/// Whether it was read, and is refused.
pub fn is_wrong(read: &ReadCondition) -> bool
    ensures { result ≡ is_wrong read.now }
{
    match read {
        ReadCondition::Wrong(_) => true,
        ReadCondition::NotAsked | ReadCondition::Bad | ReadCondition::Tree(_) => false,
    }
}

/// The code by which it is refused.
pub fn wrong_code(read: &ReadCondition) -> Code
    ensures { result ≡ wrong_code read.now }
{
    match read {
        ReadCondition::Wrong(code) => *code,
        ReadCondition::NotAsked | ReadCondition::Bad | ReadCondition::Tree(_) => Code::DONE,
    }
}
