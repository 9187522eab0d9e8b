//! The command `list`.
ghost use Rattle.std.specs.Prelude.{IfErr, OnOk};
ghost use Rattle.cpm_commands.specs.List.{HasListed, IsListRefused};

use crate::files::{CommandFiles, read_file};
use cpm_flags::Cpu;
use cpm_host::{HostError, run_list};
use std::alloc::Global;
use std::io::Write;

/// Prints the program in a file as instructions of a processor.
pub fn list_program<F: CommandFiles, W: Write>(
    alloc: Global,
    file: &str,
    cpu: Cpu,
    files: &mut F,
    out: &mut W,
) -> Result<(), HostError>
    ensures listed { OnOk result (HasListed F.does file.now cpu files.old files.new (W.contents out.old) (W.contents out.new)) }
    ensures refusal { IfErr result (λ e. IsListRefused F.does file.now files.old files.new out.old out.new e) }
{
    let program = read_file(alloc, files, file)?;
    run_list(cpu, program.as_slice(), out)
}
