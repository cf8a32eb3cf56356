//! A law of the lists of names.
ghost use Rattle.sql_ast.specs.Listed.{AreNamesListed};

/// The procedures, their parameters and the attributes of a session are as the tables list them. It
/// does nothing, and states the law for its callers.
pub fn names_are_as_listed()
    ensures { AreNamesListed }
{}
