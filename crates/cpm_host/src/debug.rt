//! The debugger over what a machine begins with, or goes on from.
ghost use Rattle.std.specs.Prelude.{IfErr, OnOk};
ghost use Rattle.cpm_host.specs.Debugged.{IsStartHeld, IsStartUnheld};
ghost use Rattle.cpm_host.specs.Program.{program_given};

use crate::error::HostError;
use crate::start::{ProgramStart, machine_of};
use cpm_debug::debug_machine;
use std::alloc::Global;
use std::io::{BufRead, Write};

/// Makes the machine that begins so, or goes on from its saving, over its system drive, and answers the orders of the lines that it reads, as `debug_machine`
/// does.
///
/// What no machine begins, and a system drive over which the machine was not saved, is refused before anything is read or written; the errors after that are
/// those of the debugger. Nothing of the machine is kept.
pub fn debug_start<R: BufRead, W: Write>(
    alloc: Global,
    start: ProgramStart,
    listing: &[u8],
    input: &mut R,
    out: &mut W,
) -> Result<(), HostError>
    ensures held { OnOk result (IsStartHeld (program_given start) listing.now (R.remaining input.old) (W.contents out.old) (W.contents out.new)) }
    ensures refusal { IfErr result (IsStartUnheld (program_given start) listing.now (R.remaining input.old) (W.contents out.old) (W.contents out.new)
        out.old out.new) }
{
    let (machine, system) = machine_of(alloc, start)?;
    debug_machine(alloc, &system, listing, machine, input, out)?;
    Ok(())
}
