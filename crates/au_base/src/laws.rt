//! Laws of codes, limits and built-in names.
ghost use Rattle.std.specs.Prelude.{List, Bool};
ghost use Rattle.au_base.specs.FirstCode.{IsFirstCode, first_code};
ghost use Rattle.au_base.specs.Listed.{AreCodesListed, AreEachListed, AreLimitsListed, AreNamesListed};
ghost use Rattle.au_base.specs.declared.code.Code.{Code};

/// Each code and each limit of the program has the number that the tables list, each name that is
/// there from the start has its bytes, and all actions and system privileges stand in the order of
/// their numbers. It does nothing, and states the law for its callers.
pub fn constants_are_as_listed()
    ensures codes { AreCodesListed }
    ensures limits { AreLimitsListed }
    ensures names { AreNamesListed }
    ensures each { AreEachListed }
{}

/// The first rule that is broken gives the code; where no rule has `DONE`, that comes exactly where
/// none is broken. It does nothing, and states the law for its callers.
pub fn first_rule_gives_the_code()
    ensures { (rules : List (Bool × Code)) → IsFirstCode rules (first_code rules) }
{}
