//! The command `saved`.
ghost use Rattle.std.specs.Prelude.{IfErr, OnOk};
ghost use Rattle.cpm_commands.specs.Saved.{HasToldSaved, IsSavedTellingRefused};

use crate::files::{CommandFiles, read_file};
use cpm_host::{HostError, run_saved, saved_machine_of};
use std::alloc::Global;
use std::io::Write;

/// Tells what the machine is that is saved in a file.
pub fn tell_saved<F: CommandFiles, W: Write>(
    alloc: Global,
    file: &str,
    files: &mut F,
    out: &mut W,
) -> Result<(), HostError>
    ensures told { OnOk result (HasToldSaved F.does file.now files.old files.new (W.contents out.old) (W.contents out.new)) }
    ensures refusal { IfErr result (λ e. IsSavedTellingRefused F.does file.now files.old files.new out.old out.new e) }
{
    let bytes = read_file(alloc, files, file)?;
    let saved = saved_machine_of(alloc, file, bytes.as_slice())?;
    run_saved(alloc, Box::into_inner(saved), out)
}
