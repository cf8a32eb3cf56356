//! Laws of logons.
ghost use Rattle.std.specs.Prelude.{◌≡◌, ◌<◌, ◌^◌, Bool, false, IsTrue, List, ℕ};
ghost use Rattle.std.specs.List.{list_any};
ghost use Rattle.std.specs.Str.{IsUtf8, bytes_eq};
ghost use Rattle.au_base.specs.Codes.{DONE};
ghost use Rattle.au_base.specs.Naming.{IsName};
ghost use Rattle.au_grants.specs.Rights.{Grants};
ghost use Rattle.au_logon.specs.declared.admission.Admission.{Admission};
ghost use Rattle.au_logon.specs.Admitting.{Admits, IsLocal, User};
ghost use Rattle.rec_parts.specs.Parts.{privileges_in_order};

/// A logon has one admission. Its user has a name. Where it is admitted, a user of that name is
/// there and one more session can be open. Its code and its privileges have spellings. The same
/// holds of LOCAL, where it makes sense. It does nothing, and states the laws for its callers.
pub fn admissions_hold()
    ensures one { (users : List User) (grants : Grants) (crowded : Bool) (user password : List ℕ) (a b : Admission)
        → Admits users grants crowded user password a → Admits users grants crowded user password b → a ≡ b }
    ensures named { (users : List User) (grants : Grants) (crowded : Bool) (user password : List ℕ) (admission : Admission)
        → IsUtf8 user → Admits users grants crowded user password admission → IsName admission.user }
    ensures there { (users : List User) (grants : Grants) (crowded : Bool) (user password : List ℕ) (admission : Admission)
        → Admits users grants crowded user password admission → admission.code ≡ DONE → IsTrue (list_any (λ user. bytes_eq user.0 admission.user) users) }
    ensures told { (users : List User) (grants : Grants) (crowded : Bool) (user password : List ℕ) (admission : Admission)
        → Admits users grants crowded user password admission → (admission.code.0 < 2 ^ 32) × privileges_in_order.IsSpellable admission.used }
    ensures open_to { (users : List User) (grants : Grants) (crowded : Bool) (user password : List ℕ) (admission : Admission)
        → Admits users grants crowded user password admission → admission.code ≡ DONE → crowded ≡ false }
    ensures local_named { (crowded : Bool) (admission : Admission) → IsLocal crowded admission → IsName admission.user }
    ensures local_told { (crowded : Bool) (admission : Admission) → IsLocal crowded admission → (admission.code.0 < 2 ^ 32) × privileges_in_order.IsSpellable admission.used }
    ensures local_open { (crowded : Bool) (admission : Admission) → IsLocal crowded admission → admission.code ≡ DONE → crowded ≡ false }
{}
