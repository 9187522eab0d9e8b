//! Copies of images, for a drive to change.

ghost use Rattle.std.specs.Prelude.{◌≡◌, IfOk};
ghost use Rattle.cpm_geom.specs.Disk.{HasBytes, IsDisk};

use cpm_geom::Image;
use std::alloc::{AllocError, Global};

/// An equal image; refused if out of memory.
pub(crate) fn copy_of(alloc: Global, image: &Image) -> Result<Image, AllocError>
    ensures { IfOk result (λ copy. (copy ≡ image.now) × IsDisk copy × HasBytes copy) }
{
    let _format = image.format();
    image.copy(alloc)
}
