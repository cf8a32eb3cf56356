//! Verifiers of passwords.
ghost use Rattle.std.specs.Prelude.{◌≡◌};
ghost use Rattle.au_opening.specs.Opening.{verifier};

use sha2::{Digest, Sha256};

/// The verifier of a user's password: SHA-256 of the name, a byte 0 and the password (FIPS 180-4,
/// section 6.2).
pub fn verifier(user: &str, password: &[u8]) -> [u8; 32]
    ensures { result ≡ verifier user.now password.now }
{
    let mut hasher = Sha256::new();
    hasher.update(user.as_bytes());
    hasher.update(b"\0".as_slice());
    hasher.update(password);
    hasher.finalize()
}
