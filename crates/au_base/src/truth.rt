//! Three-valued logic.
ghost use Rattle.std.specs.Prelude.{◌≡◌};
ghost use Rattle.au_base.specs.Truths.{conjunction, disjunction, negation, truth_of};

/// A truth value (SQL Language Reference, "Nulls in Conditions"), in the order in which AND is the
/// least and OR the greatest.
#[derive(Clone, Copy, Debug, PartialEq, Eq, PartialOrd, Ord)]
pub enum Truth {
    No,
    Unknown,
    Yes,
}

impl Truth {
    /// The lesser of both.
    pub fn and(self, other: Truth) -> Truth
        ensures { result ≡ conjunction self other }
    {
        self.min(other)
    }

    /// The greater of both.
    pub fn or(self, other: Truth) -> Truth
        ensures { result ≡ disjunction self other }
    {
        self.max(other)
    }

    /// Yes for No, No for Yes.
    pub fn not(self) -> Truth
        ensures { result ≡ negation self }
    {
        match self {
            Truth::No => Truth::Yes,
            Truth::Unknown => Truth::Unknown,
            Truth::Yes => Truth::No,
        }
    }
}

impl From<bool> for Truth {
    ghost from_gives = { λ holds truth. truth ≡ truth_of holds };

    fn from(holds: bool) -> Truth {
        if holds { Truth::Yes } else { Truth::No }
    }
}
