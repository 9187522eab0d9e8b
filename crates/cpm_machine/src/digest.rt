//! The digest of a system drive, by which a saving names it.

ghost use Rattle.std.specs.Prelude.{◌≡◌};
ghost use Rattle.cpm_machine.specs.SystemDigest.{system_digest};

use cpm_geom::Image;
use sha2::{Digest, Sha256};

/// A digest of a system drive, by SHA-256.
pub type SystemDigest = [u8; 32];

/// The digest of a system drive, by SHA-256: that of its image's bytes.
pub fn digest_of(system: &Image) -> SystemDigest
    ensures { result ≡ system_digest system.now }
{
    Sha256::digest(system.bytes())
}
