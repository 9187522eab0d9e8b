//! The command `debug`.
ghost use Rattle.std.specs.Prelude.{◌≡◌, IfErr, IfOk, OnOk, option_map};
ghost use Rattle.cpm_batch.specs.Savings.{saving_view};
ghost use Rattle.cpm_commands.specs.Debug.{HasDebugged, HasDebuggedSaved, IsDebugRefused, IsDebugTaskDone, IsDebugTaskRefused};
ghost use Rattle.cpm_commands.specs.Debug.{IsListingRead, IsListingUnread, IsSavedDebugRefused, going_on};
ghost use Rattle.cpm_host.specs.Program.{program_given};

use crate::begin::read_system;
use crate::files::{CommandFiles, read_file};
use cpm_flags::Cpu;
use cpm_geom::Image;
use cpm_host::{
    DebugTask, HostError, Page, ProgramStart, SavedMachine, UsageFault, UsageRefusal, debug_start,
    run_debug, saved_machine_of,
};
use std::alloc::Global;
use std::io::{BufRead, Write};

/// The listing in a file, if one is named.
fn listing_of<F: CommandFiles>(
    alloc: Global,
    list: Option<&str>,
    files: &mut F,
) -> Result<Vec<u8>, HostError>
    ensures read { IfOk result (λ v. IsListingRead F.does (option_map (λ n. n.now) list.entry) files.old files.new v.items) }
    ensures refusal { IfErr result (λ e. IsListingUnread F.does (option_map (λ n. n.now) list.entry) files.old files.new e) }
{
    match list {
        Some(list) => read_file(alloc, files, list),
        None => Ok(Vec::new(alloc)),
    }
}

/// Runs the program in a file as the lines of an input say, with a listing of `asm` if a file is named, and prints what is answered.
pub fn debug_program<F: CommandFiles, I: BufRead, W: Write>(
    alloc: Global,
    file: &str,
    cpu: Cpu,
    list: Option<&str>,
    files: &mut F,
    input: &mut I,
    out: &mut W,
) -> Result<(), HostError>
    ensures debugged { OnOk result (HasDebugged F.does file.now cpu (option_map (λ n. n.now) list.entry) files.old files.new
        (I.remaining input.old) (W.contents out.old) (W.contents out.new)) }
    ensures refusal { IfErr result (λ e. IsDebugRefused F.does file.now cpu (option_map (λ n. n.now) list.entry) files.old files.new
        (I.remaining input.old) (W.contents out.old) (W.contents out.new) out.old out.new e) }
{
    let program = read_file(alloc, files, file)?;
    let listing = listing_of(alloc, list, files)?;
    run_debug(alloc, cpu, program, listing.as_slice(), input, out)?;
    Ok(())
}

/// A saved machine that goes on over this system drive.
fn going_on(alloc: Global, saved: Box<SavedMachine>, system: Option<Image>) -> ProgramStart
    ensures { program_given result ≡ going_on (saving_view saved.value) system }
{
    ProgramStart {
        cpu: Cpu::I8080,
        program: None,
        tail: None,
        drives: Vec::new(alloc),
        system,
        saved: Some(saved),
        is_saved: false,
    }
}

/// Goes on with the machine that is saved in a file as the lines of an input say, over the system drive in a file or a blank one, with a listing of `asm` if a
/// file is named, and prints what is answered.
pub fn debug_saved<F: CommandFiles, I: BufRead, W: Write>(
    alloc: Global,
    file: &str,
    system: Option<&str>,
    list: Option<&str>,
    files: &mut F,
    input: &mut I,
    out: &mut W,
) -> Result<(), HostError>
    ensures debugged { OnOk result (HasDebuggedSaved F.does file.now (option_map (λ n. n.now) system.entry) (option_map (λ n. n.now) list.entry)
        files.old files.new (I.remaining input.old) (W.contents out.old) (W.contents out.new)) }
    ensures refusal { IfErr result (λ e. IsSavedDebugRefused F.does file.now (option_map (λ n. n.now) system.entry) (option_map (λ n. n.now) list.entry)
        files.old files.new (I.remaining input.old) (W.contents out.old) (W.contents out.new) out.old out.new e) }
{
    let bytes = read_file(alloc, files, file)?;
    let saved = saved_machine_of(alloc, file, bytes.as_slice())?;
    let system = read_system(alloc, system, files)?;
    let listing = listing_of(alloc, list, files)?;
    let start = going_on(alloc, saved, system);
    debug_start(alloc, start, listing.as_slice(), input, out)
}

/// Debugs what a command line names: a saved machine, or else a program. Where it names neither it is wrong.
pub fn do_debug_task<F: CommandFiles, I: BufRead, W: Write>(
    alloc: Global,
    task: &DebugTask<'_>,
    files: &mut F,
    input: &mut I,
    out: &mut W,
) -> Result<(), HostError>
    ensures done { OnOk result (IsDebugTaskDone F.does task.now files.old files.new (I.remaining input.old) (W.contents out.old) (W.contents out.new)) }
    ensures refusal { IfErr result (λ e. IsDebugTaskRefused F.does task.now files.old files.new (I.remaining input.old)
        (W.contents out.old) (W.contents out.new) out.old out.new e) }
{
    match (task.from, task.file) {
        (Some(from), _) => debug_saved(alloc, from, task.system, task.list, files, input, out),
        (None, Some(file)) => debug_program(alloc, file, task.cpu, task.list, files, input, out),
        (None, None) => Err(HostError::Usage(UsageRefusal {
            fault: UsageFault::NoProgram,
            page: Page::Debug,
        })),
    }
}
