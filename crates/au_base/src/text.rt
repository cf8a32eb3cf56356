//! Texts.
ghost use Rattle.std.specs.Prelude.{◌≡◌, IsAscii, IsUtf8, IfOk, map};
ghost use Rattle.std.specs.Char.{to_ascii_uppercase};
ghost use Rattle.std.specs.String.{string_bytes};
ghost use Rattle.au_base.specs.Found.{MakesExactly};

use crate::Memory;
use smallvec::SmallVec;
use std::alloc::{AllocError, Global};
use std::cmp::Ordering;
use std::hash::{Hash, Hasher};
use std::marker::Model;
use std::{fmt, str};

// How many bytes stand in a text itself. A longer one has memory of its own.
const INLINE_BYTES: usize = 16;

/// Text in UTF-8. Contracts see the list of its bytes, by which texts are compared. One of up to 16
/// bytes stands in the value itself and takes no memory, unless it was made of a string with more
/// room.
pub struct Text {
    bytes: SmallVec<u8, INLINE_BYTES>,
}

impl Model for Text {
    ghost use Rattle.std.specs.Prelude.{List, ℕ, IsUtf8};

    ghost Value = { List ℕ };

    ghost view = { λ t. t.bytes.items };

    ghost invariant = { λ t. IsUtf8 t.bytes.items };
}

impl Text {
    /// The text with these bytes. `None` where they are no UTF-8.
    pub fn make(alloc: Global, bytes: &[u8]) -> Result<Option<Text>, Memory>
        ensures { IfOk result (MakesExactly (IsUtf8 bytes.now) bytes.now) }
    {
        match str::from_utf8(bytes) {
            Ok(text) => Ok(Some(Text::from_str(alloc, text)?)),
            Err(_) => Ok(None),
        }
    }

    /// The text with the same bytes.
    pub fn from_str(alloc: Global, text: &str) -> Result<Text, Memory>
        ensures { IfOk result (λ made. made ≡ text.now) }
    {
        Ok(Text {
            bytes: SmallVec::from_slice(alloc, text.as_bytes())?,
        })
    }

    /// The text with these bytes of ASCII.
    pub fn from_ascii(alloc: Global, bytes: &[u8]) -> Result<Text, Memory>
        requires { IsAscii bytes.now }
        ensures { IfOk result (λ made. made ≡ bytes.now) }
    {
        Ok(Text {
            bytes: SmallVec::from_slice(alloc, bytes)?,
        })
    }

    /// The same string as a text. It takes no memory.
    pub fn from_string(string: String) -> Text
        ensures { result ≡ string_bytes string }
    {
        Text {
            bytes: SmallVec::from_vec(string.into_bytes()),
        }
    }

    /// The text as a string. It takes memory only where the bytes stand in the value itself.
    pub fn into_string(self) -> Result<String, Memory>
        ensures { IfOk result (λ string. string_bytes string ≡ self) }
    {
        let Text { bytes } = self;
        let bytes = bytes.into_vec()?;
        // SAFETY: a text's bytes are UTF-8.
        Ok(unsafe { String::from_utf8_unchecked(bytes) })
    }

    /// Its bytes, which are UTF-8.
    pub fn as_bytes(&self) -> &[u8]
        ensures value { result.now ≡ self.now }
        ensures utf8 { IsUtf8 self.now }
    {
        self.bytes.as_slice()
    }

    /// The text as a `str`.
    pub fn as_str(&self) -> &str
        ensures { result.now ≡ self.now }
    {
        // SAFETY: a text's bytes are UTF-8.
        unsafe { str::from_utf8_unchecked(self.bytes.as_slice()) }
    }

    /// Changes its letters of ASCII to upper case.
    pub fn make_ascii_uppercase(&mut self)
        ensures { self.new ≡ map to_ascii_uppercase self.old }
    {
        self.bytes.as_mut_slice().make_ascii_uppercase();
    }
}

// Whoever drops a text calls this, and so need not tell where its bytes stand.
impl Drop for Text {
    fn drop(self) {
        let Text { bytes: _bytes } = self;
    }
}

impl Clone for Text {
    ghost is_clone = { λ text copy. copy ≡ text };

    fn clone(&self) -> Result<Self, AllocError> {
        Ok(Text {
            bytes: SmallVec::from_slice(*self.bytes.allocator(), self.bytes.as_slice())?,
        })
    }
}

impl fmt::Debug for Text {
    ghost use Rattle.std.specs.Fmt.{debug_str};

    ghost debug_output = { debug_str };

    fn fmt<W: fmt::Write>(&self, f: &mut fmt::Formatter<W>) -> fmt::Result {
        fmt::Debug::fmt(&self.as_str(), f)
    }
}

impl PartialEq for Text {
    ghost use Rattle.std.specs.Str.{bytes_eq};
    ghost use Rattle.std.specs.Cmp.{partial_equiv_from_equiv};
    ghost use Rattle.std.specs.Cmp.Lexicographic.{nat_list_eq_equiv};

    ghost eq = { bytes_eq };

    ghost laws = { partial_equiv_from_equiv nat_list_eq_equiv };

    fn eq(&self, other: &Self) -> bool {
        self.as_bytes() == other.as_bytes()
    }
}

impl Eq for Text {
    ghost use Rattle.std.specs.Cmp.Lexicographic.{nat_list_eq_equiv};

    ghost laws = { nat_list_eq_equiv };
}

impl PartialOrd for Text {
    ghost use Rattle.std.specs.Prelude.{Some};
    ghost use Rattle.std.specs.Ordering.{nat_cmp};
    ghost use Rattle.std.specs.Cmp.Lexicographic.{slice_cmp, texts_po};

    ghost partial_cmp = { λ a b. Some (slice_cmp nat_cmp a b) };

    ghost laws = { texts_po };

    fn partial_cmp(&self, other: &Self) -> Option<Ordering> {
        Some(self.cmp(other))
    }
}

impl Ord for Text {
    ghost use Rattle.std.specs.Prelude.{refl};
    ghost use Rattle.std.specs.Ordering.{nat_cmp};
    ghost use Rattle.std.specs.Cmp.Lexicographic.{slice_cmp, nat_list_cmp_total, texts_ties};

    ghost cmp = { slice_cmp nat_cmp };

    ghost total = { nat_list_cmp_total };

    ghost matches_partial_cmp = { λ a b. refl };

    ghost matches_eq = { texts_ties };

    fn cmp(&self, other: &Self) -> Ordering {
        self.as_bytes().cmp(other.as_bytes())
    }
}

impl Hash for Text {
    ghost use Rattle.std.proofs.Common.{rules};
    ghost use Rattle.std.specs.Hash as fed;
    ghost use Rattle.std.specs.Cmp.Rules.{hashing};

    ghost hash_input = { fed.str };

    ghost respects_eq = { Prim.search (hashing, rules) };

    fn hash<H: Hasher>(&self, state: &mut H) {
        self.as_str().hash(state);
    }
}
