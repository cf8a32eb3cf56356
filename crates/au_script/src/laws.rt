//! Laws of what the lines of scripts say.
ghost use Rattle.std.specs.Prelude.{List, ℕ};
ghost use Rattle.au_script.specs.Lines.{SaysOneThing};

/// A line says one thing at most.
pub fn say_one_thing()
    ensures { (bytes : List ℕ) → SaysOneThing bytes }
{}
