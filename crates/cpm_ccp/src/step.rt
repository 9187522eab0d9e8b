//! One step of the command processor.

ghost use Rattle.std.specs.Prelude.{◌≡◌, ◌≤◌, ℕ, List, length};
ghost use Rattle.cpm_memory.specs.Room.{HasRoom};
ghost use Rattle.cpm_bdos.specs.StepResult.{did};
ghost use Rattle.cpm_bdos.specs.Bounds.{IsBounded};
ghost use Rattle.cpm_bdos.specs.Behind.{session_behind, did_behind};
ghost use Rattle.cpm_ccp.specs.Command.{HasOperands, command_of};
ghost use Rattle.cpm_ccp.specs.Parts.{typed_line};
ghost use Rattle.cpm_ccp.specs.Step.{looks_first, begun_by, begun_command, in_part, ccp};
ghost use Rattle.cpm_console.specs.Terminal.{step_output};

use crate::command::Command;
use crate::files::{ask, begin_save, close, erase, erase_all, rename, save};
use crate::listing::{list, list_on};
use crate::loading::{begin_load, load_record, refuse_word};
use crate::message::Message;
use crate::parse::parse_command;
use crate::parts::{finish, tell, typed_line, went_of};
use crate::prompt::{edit_command_line, prompt, select_drive, select_user};
use crate::showing::{begin_show, show_on};
use cpm_bdos::{CommandPart, HeldOutput, Mode, Session, Went, get_record};
use cpm_geom::Image;
use cpm_memory::Memory;
use cpm_memory::layout::USER_AND_DRIVE;

/// One step of the command processor, the system drive being lent: in a program its prompt, else the part that the mode
/// names. Once a command is done the program's mode is left, and the prompt comes next; the calls of the BDOS go on by
/// steps of their own. Both devices must have room for 4,096 bytes.
pub fn ccp_step<M: Memory>(session: &mut Session, memory: &mut M, system: &Image) -> Went
    requires screen { length session.old.console.screen ≤ step_output }
    requires printer { length session.old.console.printer ≤ step_output }
    requires room { HasRoom (M.contents memory.old) }
    ensures step { did session.new (M.contents memory.new) result ≡ ccp system.now session.old (M.contents memory.old) }
    ensures leads { M.Leads memory.old memory.new }
    ensures bounds { IsBounded session.old (M.contents memory.old) (did session.new (M.contents memory.new) result) }

    // Output that waits already changes nothing in a step, which shows its own after it.
    ensures behind { (p q : List ℕ) → ccp system.now (session_behind p q session.old) (M.contents memory.old)
        ≡ did_behind p q (did session.new (M.contents memory.new) result) }
{
    session.numbers_fit();
    do_step(session, memory, system)
}

/// One step, by the mode.
fn do_step<M: Memory>(session: &mut Session, memory: &mut M, system: &Image) -> Went
    requires screen { length session.old.console.screen ≤ step_output }
    requires printer { length session.old.console.printer ≤ step_output }
    requires room { HasRoom (M.contents memory.old) }
    ensures step { did session.new (M.contents memory.new) result ≡ ccp system.now session.old (M.contents memory.old) }
    ensures leads { M.Leads memory.old memory.new }
{
    match session.mode {
        Mode::Program => {
            let byte = memory.get(USER_AND_DRIVE);
            prompt(session, system, byte);
            went_of(session.mode)
        }
        Mode::Command(part) => do_part(session, memory, system, part),
        _ => Went::GoesOn,
    }
}

/// Does a part.
fn do_part<M: Memory>(
    session: &mut Session,
    memory: &mut M,
    system: &Image,
    part: CommandPart,
) -> Went
    requires screen { length session.old.console.screen ≤ step_output }
    requires printer { length session.old.console.printer ≤ step_output }
    requires room { HasRoom (M.contents memory.old) }
    ensures step { did session.new (M.contents memory.new) result ≡ in_part part system.now session.old (M.contents memory.old) }
    ensures leads { M.Leads memory.old memory.new }
{
    match part {
        CommandPart::Line => return edit_command_line(session, memory, CommandPart::Begin),
        CommandPart::Begin => return begin(session, memory, system),
        CommandPart::Directory { next, column } => list_on(session, system, next, column),
        CommandPart::Answer => return edit_command_line(session, memory, CommandPart::EraseAll),
        CommandPart::EraseAll => erase_all(session, system),
        CommandPart::Save { next, left } => {
            let record = get_record(memory, next);
            save(session, system, next, left, &record);
        }
        CommandPart::Close => close(session, system),
        CommandPart::Show => show_on(session, system),
        CommandPart::Load { next } => return load_record(session, memory, system, next),
    }
    went_of(session.mode)
}

/// The first step of the command on the line, unless ^S holds what it would show.
fn begin<M: Memory>(session: &mut Session, memory: &mut M, system: &Image) -> Went
    requires screen { length session.old.console.screen ≤ step_output }
    requires printer { length session.old.console.printer ≤ step_output }
    requires room { HasRoom (M.contents memory.old) }
    ensures step { did session.new (M.contents memory.new) result
        ≡ begun_command (command_of session.old.disks.current (typed_line session.old)) system.now session.old (M.contents memory.old) }
    ensures leads { M.Leads memory.old memory.new }
{
    let line = typed_line(session);
    let command = parse_command(line.as_slice(), session.disks.current);
    if session.is_stopped() && looks_first(&command) {
        return session.hold(HeldOutput::Command(CommandPart::Begin));
    }
    begin_command(session, memory, system, &command)
}

/// Whether a command looks for ^S before its first step.
fn looks_first(command: &Command) -> bool
    ensures { result ≡ looks_first command.now }
{
    matches!(
        command,
        Command::Directory(_) | Command::TypeFile(_) | Command::TypeForm
    )
}

/// The first step of a command.
fn begin_command<M: Memory>(
    session: &mut Session,
    memory: &mut M,
    system: &Image,
    command: &Command,
) -> Went
    requires screen { length session.old.console.screen ≤ step_output }
    requires printer { length session.old.console.printer ≤ step_output }
    requires room { HasRoom (M.contents memory.old) }
    requires operands { HasOperands command.now }
    ensures step { did session.new (M.contents memory.new) result ≡ begun_by command.now system.now session.old (M.contents memory.old) }
    ensures leads { M.Leads memory.old memory.new }
{
    match command {
        Command::Nothing => finish(session),
        Command::SelectDrive(drive) => return select_drive(session, memory, *drive),
        Command::Directory(file) => {
            session.file = *file;
            list(session, system, 0, 0, true);
        }
        Command::Erase(file) => erase(session, system, file),
        Command::EraseAll(file) => ask(session, file),
        Command::Rename { old, new } => rename(session, system, old, new),
        Command::RenameForm => tell(session, Message::RenameForm),
        Command::Save { pages, file } => begin_save(session, system, *pages, file),
        Command::SaveForm => tell(session, Message::SaveForm),
        Command::TypeFile(file) => begin_show(session, system, file),
        Command::TypeForm => tell(session, Message::TypeForm),
        Command::User(user) => return select_user(session, memory, *user),
        Command::UserForm => tell(session, Message::UserForm),
        Command::Program(file) => begin_load(session, system, file),
        Command::Unknown => refuse_word(session),
    }
    went_of(session.mode)
}
