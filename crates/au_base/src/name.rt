//! Names.
ghost use Rattle.std.specs.Prelude.{◌≡◌, ◌≤◌, ◌<◌, IsUtf8, IfOk, List, ℕ, length};
ghost use Rattle.std.specs.Ordering.{is_lt};
ghost use Rattle.au_base.specs.Found.{MakesExactly};
ghost use Rattle.au_base.specs.Naming.{IsName, IsNameLong, identifier_of};
ghost use Rattle.au_base.specs.Order.{name_before};

use crate::limits::NAME_BYTES;
use crate::{Memory, Text};
use std::alloc::{AllocError, Global};
use std::marker::Model;

/// The name of a user, a role, a table, a column or a policy: 1 to 128 bytes of UTF-8. Contracts
/// see the list of its bytes, by which names are compared.
#[derive(Debug, Drop, PartialEq, Eq, PartialOrd, Ord, Hash)]
pub struct Name {
    text: Text,
}

impl Model for Name {
    ghost use Rattle.std.specs.Prelude.{List, ℕ};
    ghost use Rattle.au_base.specs.Naming.{IsNameLong};

    ghost Value = { List ℕ };

    ghost view = { λ n. n.text };

    ghost invariant = { λ n. IsNameLong n.text };

    ghost inverse = { λ bytes. record { text = bytes } };
}

impl Name {
    /// The name with these bytes. `None` where they are no name.
    pub fn make(alloc: Global, bytes: &[u8]) -> Result<Option<Name>, Memory>
        ensures { IfOk result (MakesExactly (IsName bytes.now) bytes.now) }
    {
        if bytes.is_empty() || bytes.len() > NAME_BYTES {
            return Ok(None);
        }
        match Text::make(alloc, bytes)? {
            Some(text) => Ok(Some(Name { text })),
            None => Ok(None),
        }
    }

    /// This text as a name. `None` where it is empty or has over 128 bytes. It takes no memory.
    pub fn from_text(text: Text) -> Option<Name>
        ensures { MakesExactly (IsName text) text result }
    {
        let len = text.as_bytes().len();
        if len == 0 || len > NAME_BYTES {
            return None;
        }
        Some(Name { text })
    }

    /// The name with the bytes of this `str`.
    pub fn from_str(alloc: Global, name: &str) -> Result<Name, Memory>
        requires { IsNameLong name.now }
        ensures { IfOk result (λ made. made ≡ name.now) }
    {
        Ok(Name {
            text: Text::from_str(alloc, name)?,
        })
    }

    /// The name that a user's name or a literal is read as: what stands between two `"`, or else
    /// the text with its letters of ASCII in upper case. `None` where that is no name.
    pub fn identifier(alloc: Global, text: &Text) -> Result<Option<Name>, Memory>
        ensures { IfOk result (MakesExactly (IsName (identifier_of text.now)) (identifier_of text.now)) }
    {
        match text.as_bytes() {
            [b'"', inner @ .., b'"'] => Name::make(alloc, inner),
            _ => {
                let mut upper = text.clone()?;
                upper.make_ascii_uppercase();
                Ok(Name::from_text(upper))
            }
        }
    }

    /// The name as a text. It takes no memory.
    pub fn into_text(self) -> Text
        ensures { result ≡ self }
    {
        let Name { text } = self;
        text
    }

    /// Its bytes, 1 to 128.
    pub fn as_bytes(&self) -> &[u8]
        ensures value { result.now ≡ self.now }
        ensures name { IsName self.now }
    {
        self.text.as_bytes()
    }

    /// The name as a text.
    pub fn as_text(&self) -> &Text
        ensures { result.now ≡ self.now }
    {
        &self.text
    }

    /// The name as a `str`.
    pub fn as_str(&self) -> &str
        ensures { result.now ≡ self.now }
    {
        self.text.as_str()
    }
}

impl Clone for Name {
    ghost is_clone = { λ name copy. copy ≡ name };

    fn clone(&self) -> Result<Self, AllocError> {
        Ok(Name {
            text: self.text.clone()?,
        })
    }
}

/// Names compare by their bytes. It does nothing, and states the law for its callers.
pub fn names_compare_by_bytes()
    ensures { (a b : List ℕ) → is_lt (⟦<Name as Ord>⟧.cmp a b) ≡ name_before a b }
{}
