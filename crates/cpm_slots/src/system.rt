//! The system drive of a host.

ghost use Rattle.std.specs.Prelude.{◌≡◌};
ghost use Rattle.cpm_machine.specs.SystemDigest.{system_digest};

use cpm_geom::Image;
use cpm_machine::{SystemDigest, digest_of};
use std::marker::Model;

/// The image of the system drive, and its digest once somebody has asked for it.
#[derive(Drop)]
pub(crate) struct SystemDrive {
    image: Image,
    digest: Option<SystemDigest>,
}

impl Model for SystemDrive {
    ghost use Rattle.std.specs.Prelude.{◌≡◌, IfSome};
    ghost use Rattle.cpm_geom.specs.Disk.{Disk};
    ghost use Rattle.cpm_machine.specs.SystemDigest.{system_digest};

    ghost Value = { Disk };

    ghost view = { λ s. s.image };

    ghost invariant = { λ s. IfSome s.digest (λ digest. digest ≡ system_digest s.image) };
}

impl SystemDrive {
    /// The system drive of this image.
    pub(crate) fn new(image: Image) -> SystemDrive
        ensures { result ≡ image }
    {
        SystemDrive {
            image,
            digest: None,
        }
    }

    /// Its image.
    pub(crate) fn image(&self) -> &Image
        ensures { result.now ≡ self.now }
    {
        &self.image
    }

    /// Its digest, which is computed where it is first asked for.
    pub(crate) fn digest(&mut self) -> SystemDigest
        ensures digest { result ≡ system_digest self.old }
        ensures unchanged { self.new ≡ self.old }
    {
        if let Some(digest) = self.digest {
            return digest;
        }
        let digest = digest_of(&self.image);
        self.digest = Some(digest);
        digest
    }
}
