//! The command `check`.
ghost use Rattle.std.specs.Prelude.{IfErr, OnOk};
ghost use Rattle.cpm_commands.specs.Check.{HasChecked, IsCheckRefused};

use crate::files::{CommandFiles, read_file};
use cpm_host::{HostError, run_check};
use std::alloc::Global;
use std::io::Write;

/// Prints that the image in a file is in order.
pub fn check_image<F: CommandFiles, W: Write>(
    alloc: Global,
    image: &str,
    files: &mut F,
    out: &mut W,
) -> Result<(), HostError>
    ensures checked { OnOk result (HasChecked F.does image.now files.old files.new (W.contents out.old) (W.contents out.new)) }
    ensures refusal { IfErr result (λ e. IsCheckRefused F.does image.now files.old files.new out.old out.new e) }
{
    let bytes = read_file(alloc, files, image)?;
    run_check(image, bytes, out)?;
    Ok(())
}
