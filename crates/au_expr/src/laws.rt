//! Laws of expressions, for the crates above.
ghost use Rattle.std.specs.Prelude.{◌≡◌, ◌↔◌, ◌<◌, ◌≤◌, ◌++◌, ℕ, false, IsTrue, List, length};
ghost use Rattle.au_base.specs.declared.cell.Cell.{Cell};
ghost use Rattle.sql_ast.specs.declared.expression.Expr.{Expr};
ghost use Rattle.au_base.specs.Likes.{IsLike};
ghost use Rattle.au_expr.specs.declared.placed.Placed.{Placed};
ghost use Rattle.au_expr.specs.declared.placed.Placed.TheVariants as tree;
ghost use Rattle.au_expr.specs.Expressions.{value};
ghost use Rattle.au_expr.specs.Placing.{value_at};
ghost use Rattle.au_expr.specs.Resolving.{IsResolved, placed};
ghost use Rattle.au_expr.specs.Rows.{AreSound, FitsRanges, Range, named};
ghost use Rattle.au_expr.specs.Likes.{likes};
ghost use Rattle.au_expr.specs.Overflows.{can_overflow};
ghost use Rattle.au_expr.specs.Ranges.{AgreeWhereNamed, names_range};
ghost use Rattle.au_expr.specs.Sessions.{IsSoundSession, Session};
ghost use Rattle.au_expr.specs.Values.{Value, is_met, is_overflow};
ghost use Rattle.au_expr.specs.Kinds.{kind_at};
ghost use Rattle.au_expr.specs.Operators.{and_value};
ghost use Rattle.au_expr.specs.Soundness.{IsValueOf, has_sound_literals};
ghost use Rattle.std.specs.List.{list_all};

/// Over rows that fit the scope, an expression gives the same by the places of its columns and by
/// their names. It does nothing, and states the law for its callers.
pub fn names_or_places()
    ensures { (ranges : List Range) (rows : List (List Cell)) (session : Session) (x : Expr)
        → FitsRanges ranges rows → value_at rows session (placed ranges x) ≡ value (named ranges rows) session x }
{}

/// An expression gives the same over rows that have the same cells in the ranges that it names. It
/// does nothing, and states the law for its callers.
pub fn named_ranges_suffice()
    ensures { (tree : Placed) (session : Session) (one other : List (List Cell))
        → AgreeWhereNamed tree one other → value_at one session tree ≡ value_at other session tree }
{}

/// What is resolved names ranges of its scope alone, and the rows of further ranges don't change what
/// it gives. It does nothing, and states the law for its callers.
pub fn later_ranges_dont_matter()
    ensures there { (ranges : List Range) (range : ℕ) (x : Expr)
        → IsTrue (names_range range (placed ranges x)) → range < length ranges }
    ensures same { (ranges : List Range) (front more : List (List Cell)) (session : Session) (x : Expr)
        → length ranges ≤ length front → value_at (front ++ more) session (placed ranges x) ≡ value_at front session (placed ranges x) }
{}

/// An expression that can't overflow gives no overflow over rows of sound cells. It does nothing, and
/// states the law for its callers.
pub fn no_overflow_where_none_can()
    ensures { (tree : Placed) (session : Session) (rows : List (List Cell))
        → can_overflow tree ≡ false → AreSound rows → is_overflow (value_at rows session tree) ≡ false }
{}

/// Over rows of sound cells that fit the scope, and in a sound session, a resolved expression whose
/// literals are sound gives a sound cell of its kind, which is NULL where it has any kind, or a truth
/// where it is a condition, unless it overflows. It does nothing, and states the law for its callers.
pub fn values_are_sound()
    ensures { (ranges : List Range) (rows : List (List Cell)) (session : Session) (x : Expr) (resolved : Placed)
        → IsResolved ranges x resolved → FitsRanges ranges rows → AreSound rows
        → IsSoundSession session → IsTrue (has_sound_literals x)
        → IsValueOf (kind_at resolved) (value_at rows session resolved) }
{}

/// An AND is Yes exactly where each part of it is; this holds of every value, also of one that
/// overflows. It does nothing, and states the law for its callers.
pub fn parts_of_and_are_met()
    ensures values { (parts : List Value) → is_met (and_value parts) ≡ list_all is_met parts }
    ensures trees { (parts : List Placed) (session : Session) (rows : List (List Cell))
        → is_met (value_at rows session (tree.And parts)) ≡ list_all (λ (part : Placed). is_met (value_at rows session part)) parts }
{}

/// The test LIKE holds exactly where the text can be cut into pieces that the pattern's characters
/// name in order. It does nothing, and states the law for its callers.
pub fn like_cuts_the_text()
    ensures { (pattern text : List ℕ) → IsTrue (likes pattern text) ↔ IsLike pattern text }
{}
