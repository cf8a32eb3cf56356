//! What expressions read of a session.
ghost use Rattle.std.specs.Prelude.{◌≡◌, IfOk};
ghost use Rattle.std.specs.Fmt.{decimal};

use au_base::{Memory, Name, SessionNo, Stamp, Text};
use std::alloc::Global;
use std::marker::Model;

/// The user's name, the session's number and the moment of the event. Contracts see these three.
/// The digits of the number are written once, so that no evaluation takes memory for them.
#[derive(Drop)]
pub struct SessionFacts {
    user: Name,
    session: SessionNo,
    stamp: Stamp,
    digits: Text,
}

impl Model for SessionFacts {
    ghost use Rattle.au_expr.specs.Sessions.{Session};
    ghost use Rattle.std.specs.Prelude.{◌≡◌};
    ghost use Rattle.std.specs.Fmt.{decimal};

    ghost Value = { Session };

    ghost view = { λ s. record { user = s.user; session = s.session; stamp = s.stamp } };

    ghost invariant = { λ s. s.digits ≡ decimal s.session.0 };
}

impl SessionFacts {
    /// These facts.
    pub fn new(
        alloc: Global,
        user: Name,
        session: SessionNo,
        stamp: Stamp,
    ) -> Result<SessionFacts, Memory>
        ensures { IfOk result (λ facts. facts ≡ record { user = user; session = session; stamp = stamp }) }
    {
        let number = session.0;
        let digits = Text::from_string(format!(in alloc; "{number}")?);
        Ok(SessionFacts {
            user,
            session,
            stamp,
            digits,
        })
    }

    /// The user's name.
    pub fn user(&self) -> &Name
        ensures { result.now ≡ self.now.user }
    {
        &self.user
    }

    /// The session's number.
    pub fn session(&self) -> SessionNo
        ensures { result ≡ self.now.session }
    {
        self.session
    }

    /// The moment of the event.
    pub fn stamp(&self) -> Stamp
        ensures { result ≡ self.now.stamp }
    {
        self.stamp
    }

    /// The digits of the session's number.
    pub fn digits(&self) -> &Text
        ensures { result.now ≡ decimal self.now.session.0 }
    {
        &self.digits
    }
}
