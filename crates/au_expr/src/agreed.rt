//! Operands of one kind.
ghost use Rattle.std.specs.Prelude.{◌≡◌, ◌∷◌, []};
ghost use Rattle.au_expr.specs.Descent as spec_of;
ghost use Rattle.au_expr.specs.Descent.{is_agreed, with_operand};
ghost use Rattle.au_expr.specs.Kinds as spec;
ghost use Rattle.au_expr.specs.Kinds.{is_one_kind};

use crate::ExprKind;
use au_base::ColumnKind;

/// With which kinds all operands so far go.
#[derive(Clone, Copy)]
pub struct Agreed {
    pub number: bool,
    pub text: bool,
    pub moment: bool,
}

impl Agreed {
    /// Before the first operand.
    pub fn everything() -> Agreed
        ensures { result ≡ spec_of.everything }
    {
        Agreed {
            number: true,
            text: true,
            moment: true,
        }
    }

    /// With one more operand.
    pub fn with(self, operand: Option<ExprKind>) -> Agreed
        ensures { result ≡ with_operand self operand }
    {
        Agreed {
            number: self.number && goes_with(ColumnKind::Number, operand),
            text: self.text && goes_with(ColumnKind::Text, operand),
            moment: self.moment && goes_with(ColumnKind::Moment, operand),
        }
    }

    /// Whether there is a kind with which all go.
    pub fn is_some(self) -> bool
        ensures { result ≡ is_agreed self }
    {
        self.number || self.text || self.moment
    }
}

/// Whether an operand is of a kind, or NULL.
pub fn goes_with(kind: ColumnKind, operand: Option<ExprKind>) -> bool
    ensures { result ≡ spec.goes_with kind operand }
{
    match operand {
        Some(operand) => operand.goes_with(kind),
        None => false,
    }
}

#[tactic(auto, using(crate::proofs::Agreeing::agreed_is))]
pub fn are_one_kind(a: Option<ExprKind>, b: Option<ExprKind>) -> bool
    ensures { result ≡ is_one_kind (a ∷ b ∷ []) }
{
    Agreed::everything().with(a).with(b).is_some()
}

/// Whether three operands are of one kind.
#[tactic(auto, using(crate::proofs::Agreeing::agreed_is))]
pub fn are_all_one_kind(a: Option<ExprKind>, b: Option<ExprKind>, c: Option<ExprKind>) -> bool
    ensures { result ≡ is_one_kind (a ∷ b ∷ c ∷ []) }
{
    Agreed::everything().with(a).with(b).with(c).is_some()
}
