//! Numbers in the texts of options.
ghost use Rattle.std.specs.Prelude.{ℕ, MatchOption};
ghost use Rattle.au_words.specs.Words.{IsNumber, IsNumberWithin};

/// The number that the text is: decimal digits, of at most 32 bits.
pub(crate) fn number_of(text: &str) -> Option<u32>
    ensures { MatchOption result ((number : ℕ) → IsNumber text.now number → ⊥) (λ number. IsNumber text.now number) }
{
    match text.parse::<u32>() {
        Ok(number) => Some(number),
        Err(_) => None,
    }
}

/// The number from `low` to `high` that the text is.
pub(crate) fn number_within(text: &str, low: u32, high: u32) -> Option<u32>
    ensures { MatchOption result ((number : ℕ) → IsNumberWithin low high text.now number → ⊥)
        (λ number. IsNumberWithin low high text.now number) }
{
    match text.parse::<u32>() {
        Ok(number) if (low..=high).contains(&number) => Some(number),
        _ => None,
    }
}
