//! What the command processor makes of a line.

ghost use Rattle.std.specs.Prelude.{◌≡◌};
ghost use Rattle.cpm_ccp.specs.Command.{command_of, command_meaning, HasOperands};

use crate::built_in::BuiltIn;
use crate::command::Command;
use crate::names::{is_program_name, program_file};
use crate::operands::{directory_command, erase_of, rename_of, save_of, type_command, user_of};
use crate::words::{is_drive_alone, split_first_word};
use cpm_directory::{Fcb, parse_fcb};

/// The command of a line, whose letters are capitals, with this current drive (0 for A). The drive tells only whether both
/// names of REN are of one drive.
#[tactic(auto, unfolding(crate::specs::Command::command_of))]
pub fn parse_command(line: &[u8], current: u8) -> Command
    ensures command { result ≡ command_of current line.now }
    ensures operands { HasOperands result }
{
    let (word, tail) = split_first_word(line);
    let file = parse_fcb(word).0;
    if word.is_empty() {
        Command::Nothing
    } else if is_drive_alone(word, tail) {
        Command::SelectDrive(word[0] - b'A')
    } else if is_program_name(&file) {
        command_meaning(current, file, tail)
    } else {
        Command::Unknown
    }
}

/// What a command does that has this name and this tail.
#[tactic(auto, unfolding(crate::specs::Command::by_name))]
fn command_meaning(current: u8, file: Fcb, tail: &[u8]) -> Command
    ensures { result ≡ command_meaning current file tail.now }
{
    match BuiltIn::of(&file) {
        Some(BuiltIn::Dir) => directory_command(tail),
        Some(BuiltIn::Era) => erase_of(tail),
        Some(BuiltIn::Ren) => rename_of(current, tail),
        Some(BuiltIn::Save) => save_of(tail),
        Some(BuiltIn::TypeFile) => type_command(tail),
        Some(BuiltIn::User) => user_of(tail),
        None => Command::Program(program_file(file)),
    }
}
