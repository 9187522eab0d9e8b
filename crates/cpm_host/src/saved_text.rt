//! The command `saved`: what a saved machine is, as text.
ghost use Rattle.std.specs.Prelude.{◌≡◌, IfErr, IfOk, OnOk, string_bytes};
ghost use Rattle.std.specs.Io.KnownBytes.{Appends};
ghost use Rattle.cpm_batch.specs.Savings.{saving_view};
ghost use Rattle.cpm_host.specs.SavedText.{AreDrivesTold, HasAppended, IsDriveToldIfAny, IsSavedTold, IsUntold, IsOutputRefused, head_text, machine_text};
ghost use Rattle.cpm_host.specs.SavedText.{processor_word, program_words, waiting_words};

use crate::error::HostError;
use crate::saved_step::{pending_text, step_text};
use cpm_batch::SavedMachine;
use cpm_disk_commands::{DiskCommandError, list_files, write_list};
use cpm_flags::Cpu;
use cpm_geom::Image;
use cpm_listing::regs_line;
use cpm_machine::Closed;
use cpm_run::end_word;
use std::alloc::{AllocError, Global};
use std::io::Write;

/// The name of a processor.
fn processor_word(cpu: Cpu) -> &'static str
    ensures { result.now ≡ processor_word cpu }
{
    match cpu {
        Cpu::I8080 => "8080",
        Cpu::Z80 => "Z80",
    }
}

/// Whether it began with a program.
fn program_words(has_program: bool) -> &'static str
    ensures { result.now ≡ program_words has_program }
{
    if has_program { ", with a program" } else { "" }
}

/// Whether it waits for a key.
fn waiting_words(waits: bool) -> &'static str
    ensures { result.now ≡ waiting_words waits }
{
    if waits { ", waits for a key" } else { "" }
}

/// The first lines of what a saved machine is.
#[tactic(auto, unfolding(cpm_machine::specs::Serve::look_of))]
fn head_text(alloc: Global, saved: &SavedMachine) -> Result<String, AllocError>
    ensures { IfOk result (λ text. string_bytes text ≡ head_text (saving_view saved.now)) }
{
    let machine = &saved.machine;
    let look = machine.look();
    let cpu = processor_word(machine.cpu());
    let program = program_words(machine.has_program());
    let end = end_word(look.ended);
    let waits = waiting_words(look.waiting);
    let registers = regs_line(machine.cpu(), &look.regs, look.count);
    let registers = registers.as_str();
    let (pages, quota) = (look.pages, machine.quota());
    let digest = hex::encode(alloc, &saved.digest)?;
    let digest = digest.as_str();
    format!(in alloc;
        "format 1\n{cpu}{program}, {end}{waits}\n{registers}\n{pages} of {quota} pages are written\nsystem drive {digest}\n"
    )
}

/// What a saved machine is but for its drives.
fn machine_text(alloc: Global, saved: &SavedMachine) -> Result<String, AllocError>
    ensures { IfOk result (λ text. string_bytes text ≡ machine_text (saving_view saved.now)) }
{
    let mut text = head_text(alloc, saved)?;
    text.push_str(step_text(alloc, saved)?.as_str())?;
    text.push_str(pending_text(alloc, &saved.machine)?.as_str())?;
    Ok(text)
}

/// Writes a text.
fn write_text<W: Write>(out: &mut W, text: &[u8]) -> Result<(), HostError>
    ensures written { OnOk result (Appends (W.contents out.old) (W.contents out.new) text.now) }
    ensures refusal { IfErr result IsOutputRefused }
{
    match out.write_all(text) {
        Ok(()) => Ok(()),
        Err(reason) => Err(HostError::OutputUnwritable(reason)),
    }
}

/// Tells a drive and its files, if there is one.
fn tell_drive<W: Write>(
    alloc: Global,
    letter: &str,
    drive: &Option<Image>,
    out: &mut W,
) -> Result<(), HostError>
    ensures { OnOk result (HasAppended (W.contents out.old) (W.contents out.new) (IsDriveToldIfAny letter.now drive.now)) }
{
    let Some(image) = drive else {
        return Ok(());
    };
    let length = image.bytes().len();
    let line = format!(in alloc; "{letter}: {length} bytes\n")?;
    write_text(out, line.as_bytes())?;
    match list_files(alloc, image, letter) {
        Ok(listing) => Ok(write_list(alloc, image.format(), &listing, None, out)?),
        Err(DiskCommandError::Damaged { .. }) => write_text(out, b"its directory is damaged\n"),
        Err(_) => Err(HostError::OutOfMemory),
    }
}

/// Tells the drives A to D, as far as there are any.
fn tell_drives<W: Write>(
    alloc: Global,
    drives: &[Option<Image>; 4],
    out: &mut W,
) -> Result<(), HostError>
    ensures { OnOk result (HasAppended (W.contents out.old) (W.contents out.new) (AreDrivesTold drives.now)) }
{
    let [first, second, third, fourth] = drives;
    tell_drive(alloc, "A", first, out)?;
    tell_drive(alloc, "B", second, out)?;
    tell_drive(alloc, "C", third, out)?;
    tell_drive(alloc, "D", fourth, out)
}

/// Tells all of it.
fn tell_machine<W: Write>(alloc: Global, saved: SavedMachine, out: &mut W) -> Result<(), HostError>
    ensures { OnOk result (HasAppended (W.contents out.old) (W.contents out.new) (IsSavedTold (saving_view saved))) }
{
    let text = machine_text(alloc, &saved)?;
    write_text(out, text.as_bytes())?;
    let Closed { drives, .. } = saved.machine.finish();
    tell_drives(alloc, &drives, out)
}

/// What a saved machine is, as a text.
fn saved_text(alloc: Global, saved: SavedMachine) -> Result<Vec<u8>, AllocError>
    ensures { IfOk result (λ text. IsSavedTold (saving_view saved) text.items) }
{
    let mut text = Vec::new(alloc);
    match tell_machine(alloc, saved, &mut text) {
        Ok(()) => Ok(text),
        // (a vector takes all that there is memory for)
        Err(_) => Err(AllocError),
    }
}

/// Tells what a saved machine is: the version of its format, its processor, how it ended or that it runs and whether it waits for a key, its registers and
/// its count, its pages, the digest of its system drive, and its drives with their files.
///
/// `OutputUnwritable` has the error of the writer, who may have got the beginning. `OutOfMemory` comes only where memory is refused, and then nothing is
/// written.
pub fn run_saved<W: Write>(alloc: Global, saved: SavedMachine, out: &mut W) -> Result<(), HostError>
    ensures told { OnOk result (HasAppended (W.contents out.old) (W.contents out.new) (IsSavedTold (saving_view saved))) }
    ensures refusal { IfErr result (IsUntold out.old out.new) }
{
    let text = saved_text(alloc, saved)?;
    write_text(out, text.as_slice())?;
    match out.flush() {
        Ok(()) => Ok(()),
        Err(reason) => Err(HostError::OutputUnwritable(reason)),
    }
}
