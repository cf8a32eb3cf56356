//! What SYS_CONTEXT tells of a session (SQL Language Reference, "SYS_CONTEXT").
ghost use Rattle.std.specs.Prelude.{◌≡◌};
ghost use Rattle.sql_ast.specs.Attributes.{attribute_name};

/// An attribute of the namespace USERENV.
#[derive(Clone, Copy, Debug, PartialEq, Eq)]
pub enum Attribute {
    /// The user's name.
    SessionUser,
    /// The session's number.
    SessionId,
}

impl Attribute {
    /// The namespace, in upper case.
    pub const NAMESPACE: &'static str = "USERENV";

    /// All attributes.
    pub const EACH: [Attribute; 2] = [Attribute::SessionUser, Attribute::SessionId];

    /// Its name, in upper case.
    pub fn name(self) -> &'static str
        ensures { result.now ≡ attribute_name self }
    {
        match self {
            Attribute::SessionUser => "SESSION_USER",
            Attribute::SessionId => "SESSIONID",
        }
    }
}
