//! The digest of a text.
ghost use Rattle.std.specs.Prelude.{◌≡◌, IfOk};
ghost use Rattle.std.specs.String.{string_bytes};
ghost use Rattle.hex.specs.Hex.{encode_lower};
ghost use Rattle.sha2.specs.Sha256.{sha256};

use sha2::{Digest, Sha256};
use std::alloc::{AllocError, Global};

/// Returns the SHA-256 of a text (FIPS 180-4), in lower-case hexadecimal digits.
pub(crate) fn digest_of(alloc: Global, text: &[u8]) -> Result<String, AllocError>
    ensures { IfOk result (λ digits. string_bytes digits ≡ encode_lower (sha256 text.now)) }
{
    let digest = Sha256::digest(text);
    hex::encode(alloc, digest)
}
