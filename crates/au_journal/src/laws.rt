//! Laws of what stands in an area.
ghost use Rattle.std.specs.Prelude.{◌≡◌, ◌<◌, ◌+◌, ◌^◌, ◌++◌, [], ◌∷◌, ℕ, List, length};
ghost use Rattle.au_io.specs.declared.disk.Area.{Area};
ghost use Rattle.au_journal.specs.Frames.{Stands, frame, front, header, spelled};
ghost use Rattle.au_journal.specs.Images.{Closed, Selects};

/// An area holds one list of bodies, and where a closed gate stands behind bodies it doesn't end where
/// bodies end. Head selects one area.
pub fn one_standing()
    ensures bodies { (limit other : ℕ) (bodies others : List (List ℕ)) (area : List ℕ) → length area < 2 ^ 64 → Stands limit bodies area → Stands other others area → bodies ≡ others }
    ensures gated { (limit other : ℕ) (bodies others : List (List ℕ)) (area : List ℕ) → length area < 2 ^ 64 → Closed (front limit bodies) area → area ≡ front other others → ⊥ }
    ensures selected { (a b : Area) (head : List ℕ) → Selects a head → Selects b head → a ≡ b }
{}

/// Frames stand one behind another, and a body is spelled in one way.
pub fn frames_stand_in_a_row()
    ensures none { (limit : ℕ) → front limit [] ≡ header limit }
    ensures pushed { (limit : ℕ) (bodies : List (List ℕ)) (body : List ℕ) → front limit (bodies ++ body ∷ []) ≡ front limit bodies ++ frame body }
    ensures length { (body : List ℕ) → length (spelled body) ≡ 8 + length body }
    ensures one { (a b x y : List ℕ) → length (spelled b ++ y) < 2 ^ 64 → spelled a ++ x ≡ spelled b ++ y → (a ≡ b) × (x ≡ y) }
{}
