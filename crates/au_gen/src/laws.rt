//! Laws of the sample.
ghost use Rattle.std.specs.Prelude.{◌≡◌, ◌+◌, ◌/◌, ℕ, length};
ghost use Rattle.au_gen.specs.Sample.{sample};

/// The sample has an ask for each row, one more for each hundred of rows, and seven more.
pub fn samples_are_so_long()
    ensures { (seed rows : ℕ) → length (sample seed rows) ≡ rows + rows / 100 + 7 }
{}
