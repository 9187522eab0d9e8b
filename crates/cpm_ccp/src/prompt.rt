//! The prompt, the line after it, and the commands that leave it another drive or user.

ghost use Rattle.std.specs.Prelude.{◌≡◌, ◌<◌, ◌≤◌, length};
ghost use Rattle.cpm_memory.specs.Contents.{byte_at};
ghost use Rattle.cpm_memory.specs.Room.{HasRoom};
ghost use Rattle.cpm_bdos.specs.StepResult.{did};
ghost use Rattle.cpm_ccp.specs.Prompt.{drive_asked, prompted, edit_command_line, with_drive_and_user, with_user, drive_selected, user_selected};
ghost use Rattle.cpm_console.specs.Terminal.{step_output};

use crate::parts::{finish, go_to, read_line, say_below};
use cpm_bdos::{CommandPart, Session, Went};
use cpm_console::LineState;
use cpm_drives::Disks;
use cpm_geom::Image;
use cpm_memory::layout::{DEFAULT_BUFFER, USER_AND_DRIVE};
use cpm_memory::{Memory, change_byte};
use cpm_volume::Fault;

/// The drive in a byte, or A where that one isn't there.
fn drive_asked(disks: &Disks, byte: u8) -> u8
    ensures value { result ≡ drive_asked disks.now byte }
    ensures small { result < 16 }
{
    let drive = byte % 16;
    if disks.is_there(drive) { drive } else { 0 }
}

/// Shows the prompt of the drive and the user in a byte, and begins a line.
#[tactic(auto, unfolding(crate::specs::Prompt::prompted))]
pub(crate) fn prompt(session: &mut Session, system: &Image, byte: u8)
    requires screen { length session.old.console.screen ≤ step_output }
    requires printer { length session.old.console.printer ≤ step_output }
    ensures { session.new ≡ prompted system.now byte session.old }
{
    let drive = drive_asked(&session.disks, byte);
    session.disks.use_drive(system, drive);
    session.disks.current = drive;
    session.disks.user = byte / 16;
    session.buffer = DEFAULT_BUFFER;
    say_below(session, &[b'A' + drive, b'>']);
    read_line(session, CommandPart::Line);
}

/// A step of the line, after which a part comes.
pub(crate) fn edit_command_line<M: Memory>(
    session: &mut Session,
    memory: &mut M,
    next: CommandPart,
) -> Went
    requires screen { length session.old.console.screen ≤ step_output }
    requires printer { length session.old.console.printer ≤ step_output }
    requires room { HasRoom (M.contents memory.old) }
    ensures step { did session.new (M.contents memory.new) result ≡ edit_command_line next session.old (M.contents memory.old) }
    ensures leads { M.Leads memory.old memory.new }
{
    match session.step_line() {
        Some(LineState::GoesOn) => Went::GoesOn,
        Some(LineState::Ended) => {
            go_to(session, next);
            Went::GoesOn
        }
        Some(LineState::Interrupted) => session.reboot(memory),
        None => Went::Waits,
    }
}

/// Makes another drive the one that the prompt takes.
pub(crate) fn select_drive<M: Memory>(session: &mut Session, memory: &mut M, drive: u8) -> Went
    requires screen { length session.old.console.screen ≤ step_output }
    requires room { HasRoom (M.contents memory.old) }
    requires drive { drive < 16 }
    ensures step { did session.new (M.contents memory.new) result ≡ drive_selected drive session.old (M.contents memory.old) }
    ensures leads { M.Leads memory.old memory.new }
{
    if !session.disks.is_there(drive) {
        return session.fault(Fault::Select, drive);
    }
    let byte = with_drive_and_user(memory.get(USER_AND_DRIVE), drive);
    change_byte(memory, USER_AND_DRIVE, byte);
    finish(session);
    Went::Returned
}

/// Makes another user the one that the prompt takes.
pub(crate) fn select_user<M: Memory>(session: &mut Session, memory: &mut M, user: u8) -> Went
    requires room { HasRoom (M.contents memory.old) }
    requires user { user < 16 }
    ensures step { did session.new (M.contents memory.new) result ≡ user_selected user session.old (M.contents memory.old) }
    ensures leads { M.Leads memory.old memory.new }
{
    let byte = with_user(memory.get(USER_AND_DRIVE), user);
    change_byte(memory, USER_AND_DRIVE, byte);
    finish(session);
    Went::Returned
}

/// A byte with another drive in its low four bits.
fn with_drive_and_user(byte: u8, drive: u8) -> u8
    requires { drive < 16 }
    ensures { result ≡ with_drive_and_user drive byte }
{
    16 * (byte / 16) + drive
}

/// A byte with another user in its high four bits.
fn with_user(byte: u8, user: u8) -> u8
    requires { user < 16 }
    ensures { result ≡ with_user user byte }
{
    16 * user + byte % 16
}
