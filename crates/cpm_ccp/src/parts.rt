//! What the parts of the command processor have in common.

ghost use Rattle.std.specs.Prelude.{◌≡◌, ◌≤◌, length, map};
ghost use Rattle.cpm_ccp.specs.Capitals.{capital};
ghost use Rattle.cpm_ccp.specs.Parts.{at_part, finished, went_of, says_below, message_told, failed, reads_line, typed_line};
ghost use Rattle.cpm_console.specs.Terminal.{step_output};

use crate::capitals::capital;
use crate::message::Message;
use arrayvec::ArrayVec;
use cpm_bdos::{CommandPart, Mode, Session, Went};
use cpm_console::Line;
use cpm_volume::Fault;

/// How many characters a line of the command processor may have.
const LINE: u8 = 127;

/// What a record of the command processor's own holds before it is read.
pub(crate) const NO_RECORD: [u8; 128] = [0; 128];

/// The code of a call that found no entry.
pub(crate) const NONE: u8 = 0xFF;

/// A part comes next.
pub(crate) fn go_to(session: &mut Session, part: CommandPart)
    ensures { session.new ≡ at_part session.old part }
{
    session.mode = Mode::Command(part);
}

/// The command is done, and the prompt comes next.
pub(crate) fn finish(session: &mut Session)
    ensures { session.new ≡ finished session.old }
{
    session.mode = Mode::Program;
}

/// How a part ended that left this mode: the command is done, or goes on.
pub(crate) fn went_of(mode: Mode) -> Went
    ensures { result ≡ went_of mode }
{
    match mode {
        Mode::Program => Went::Returned,
        _ => Went::GoesOn,
    }
}

/// Shows a text on a fresh line.
#[tactic(auto, using(crate::proofs::Texts::texts))]
pub(crate) fn say_below(session: &mut Session, text: &[u8])
    requires screen { length session.old.console.screen ≤ step_output }
    requires printer { length session.old.console.printer ≤ step_output }
    requires short { length text.now ≤ 1024 }
    ensures { session.new ≡ says_below session.old text.now }
{
    session.console.say_all(b"\r\n");
    session.console.say_all(text);
}

/// Ends the command with a message.
pub(crate) fn tell(session: &mut Session, message: Message)
    requires screen { length session.old.console.screen ≤ step_output }
    requires printer { length session.old.console.printer ≤ step_output }
    ensures { session.new ≡ message_told session.old message }
{
    say_below(session, message.text());
    finish(session);
}

/// Ends the command in a fault of the drive of its file.
pub(crate) fn fail(session: &mut Session, fault: Fault)
    requires { length session.old.console.screen ≤ step_output }
    ensures { session.new ≡ failed fault session.old }
{
    let drive = session.disks.drive_named(session.file.drive);
    session.fault(fault, drive);
}

/// Reads a line from the cursor on, by a part for each key.
pub(crate) fn read_line(session: &mut Session, part: CommandPart)
    ensures { session.new ≡ reads_line session.old part }
{
    session.line = Line::new(session.console.column(), LINE);
    go_to(session, part);
}

/// The line that was typed, its small letters made capital.
pub(crate) fn typed_line(session: &Session) -> ArrayVec<u8, 255>
    ensures value { result.items ≡ typed_line session.now }
    ensures short { length result.items ≤ 255 }
{
    in_capitals(session.line.characters())
}

/// A text, its small letters made capital.
fn in_capitals(text: &[u8]) -> ArrayVec<u8, 255>
    requires { length text.now ≤ 255 }
    ensures value { result.items ≡ map capital text.now }
    ensures short { length result.items ≤ 255 }
{
    let mut capitals = ArrayVec::new();
    for character in text {
        capitals.push(capital(*character));
    }
    capitals
}
