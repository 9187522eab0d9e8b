//! What the next step of a saved machine does, and what is pending, as text.
ghost use Rattle.std.specs.Prelude.{◌≡◌, IfOk, string_bytes};
ghost use Rattle.cpm_batch.specs.Savings.{saving_view};
ghost use Rattle.cpm_bdos.specs.Function.{function_of};
ghost use Rattle.cpm_host.specs.SavedText.{call_words, part_words, pending_line, pending_text, program_step_words, step_line, step_words};
ghost use Rattle.cpm_machine.specs.Step.{is_running};

use cpm_batch::SavedMachine;
use cpm_bdos::{CommandPart, Function, Mode, Session};
use cpm_flags::Regs;
use cpm_machine::saving::restored;
use cpm_machine::steps::Runner;
use cpm_machine::{End, Machine};
use cpm_memory::layout::{BDOS, CONSOLE_INPUT};
use std::alloc::{AllocError, Global};

/// What the first step of a call of the BDOS does.
fn call_words(function: Function) -> &'static str
    ensures { result.now ≡ call_words function }
{
    match function {
        Function::ReadKey => "reads a key",
        Function::ReadLine => "begins to read a line",
        _ => "is a call of the BDOS",
    }
}

/// What the next step does in a program.
fn program_step_words(regs: &Regs) -> &'static str
    ensures { result.now ≡ program_step_words regs.now }
{
    if regs.pc == BDOS {
        call_words(Function::of(regs.c))
    } else if regs.pc == CONSOLE_INPUT {
        "reads a key"
    } else {
        "is at PC"
    }
}

/// What a part of the command processor does.
fn part_words(part: CommandPart) -> &'static str
    ensures { result.now ≡ part_words part }
{
    match part {
        CommandPart::Line => "reads a key of the line after the prompt",
        CommandPart::Begin => "begins the command on the line",
        CommandPart::Directory { .. } => "lists a directory",
        CommandPart::Answer => "reads a key of the answer whether all files are erased",
        CommandPart::EraseAll => "erases all files, if the answer is yes",
        CommandPart::Save { .. } => "saves a record",
        CommandPart::Close => "closes the saved file",
        CommandPart::Show => "shows a record of a file",
        CommandPart::Load { .. } => "loads a record of a program",
    }
}

/// What the next step of a session does.
fn step_words(session: &Session) -> &'static str
    ensures { result.now ≡ step_words session.now.mode session.now.regs }
{
    match session.mode {
        Mode::Program => program_step_words(&session.regs),
        Mode::Text { .. } => "shows a character of a text",
        Mode::Line => "reads a key of a line",
        Mode::Hold(_) => "reads the key that ends a hold of output",
        Mode::Fault => "reads the key behind the message of a fault",
        Mode::Command(part) => part_words(part),
    }
}

/// The session of a saved machine.
fn session_of(alloc: Global, saved: &SavedMachine) -> Result<Session, AllocError>
    ensures { IfOk result (λ s. s ≡ (saving_view saved.now).state.session) }
{
    let bytes = saved.bytes(alloc)?;
    match restored(alloc, bytes.as_slice()) {
        Ok((_, Runner { session, .. }, _)) => Ok(session),
        // (these bytes were just made of it, and so are not damaged)
        Err(_) => Err(AllocError),
    }
}

/// Whether a machine of this end runs.
fn runs(ended: End) -> bool
    ensures { result ≡ is_running ended }
{
    match ended {
        End::Running => true,
        End::Halted | End::Illegal | End::Quota | End::CountEnd | End::Exited => false,
    }
}

/// The line that tells of a machine that runs what its next step does.
fn step_line(alloc: Global, runs: bool, session: &Session) -> Result<String, AllocError>
    ensures { IfOk result (λ text. string_bytes text ≡ step_line runs session.now) }
{
    if !runs {
        return Ok(String::new(alloc));
    }
    let words = step_words(session);
    format!(in alloc; "the next step {words}\n")
}

/// The line that tells of a saved machine what its next step does, if it makes one.
#[tactic(auto, unfolding(cpm_machine::specs::Serve::look_of))]
pub(crate) fn step_text(alloc: Global, saved: &SavedMachine) -> Result<String, AllocError>
    ensures { let state = (saving_view saved.now).state in
        IfOk result (λ text. string_bytes text ≡ step_line (is_running state.ended) state.session) }
{
    let ended = saved.machine.look().ended;
    let session = session_of(alloc, saved)?;
    step_line(alloc, runs(ended), &session)
}

/// The line that tells what is pending.
fn pending_line(
    alloc: Global,
    keys: usize,
    screen: usize,
    printer: usize,
) -> Result<String, AllocError>
    ensures { IfOk result (λ text. string_bytes text ≡ pending_line keys screen printer) }
{
    format!(in alloc; "pending: {keys} keys, {screen} console bytes, {printer} list bytes\n")
}

/// The line that tells how many keys of a machine are pending, and how many bytes were not taken.
#[tactic(auto, unfolding(cpm_machine::specs::Serve::look_of))]
pub(crate) fn pending_text(alloc: Global, machine: &Machine) -> Result<String, AllocError>
    ensures { IfOk result (λ text. string_bytes text ≡ pending_text machine.now) }
{
    let look = machine.look();
    pending_line(alloc, look.keys, look.console, look.list)
}
