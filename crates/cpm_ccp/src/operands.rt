//! The operands of the built-in commands.

ghost use Rattle.std.specs.Prelude.{◌≡◌, option_map};
ghost use Rattle.cpm_ccp.specs.Command.{directory_command, erase_of, rename_of, save_of, type_command, user_of, behind_equals, is_elsewhere, effective_drive};

use crate::command::Command;
use crate::names::{all_of, has_wildcard, is_every, is_unnamed};
use crate::number::number_up_to;
use crate::words::{after_spaces, first_word, split_first_word};
use cpm_directory::{Fcb, parse_fcb};

/// DIR: no name stands for all files.
#[tactic(auto, unfolding(crate::specs::Command::directory_command))]
pub(crate) fn directory_command(tail: &[u8]) -> Command
    ensures { result ≡ directory_command tail.now }
{
    let file = parse_fcb(tail).0;
    if is_unnamed(&file) {
        Command::Directory(all_of(file))
    } else {
        Command::Directory(file)
    }
}

/// ERA.
#[tactic(auto, unfolding(crate::specs::Command::erase_of))]
pub(crate) fn erase_of(tail: &[u8]) -> Command
    ensures { result ≡ erase_of tail.now }
{
    let file = parse_fcb(tail).0;
    if is_every(&file) {
        Command::EraseAll(file)
    } else {
        Command::Erase(file)
    }
}

/// REN: the new name, `=` and the old one.
#[tactic(auto, unfolding(crate::specs::Command::rename_of, crate::specs::Command::rename_command))]
pub(crate) fn rename_of(current: u8, tail: &[u8]) -> Command
    ensures { result ≡ rename_of current tail.now }
{
    let (new, rest) = parse_fcb(tail);
    let Some(text) = behind_equals(rest) else {
        return Command::RenameForm;
    };
    let mut old = parse_fcb(text).0;
    if has_wildcard(&new) || has_wildcard(&old) || is_elsewhere(current, &new, &old) {
        return Command::RenameForm;
    }
    old.drive = new.drive;
    Command::Rename { old, new }
}

/// The text after `=`, or `_` in its place; spaces in front are skipped.
#[tactic(auto, unfolding(crate::specs::Command::behind_equals))]
fn behind_equals(text: &[u8]) -> Option<&[u8]>
    ensures { option_map (λ p. p.now) result ≡ behind_equals text.now }
{
    match after_spaces(text) {
        [b'=' | b'_', rest @ ..] => Some(rest),
        _ => None,
    }
}

/// Whether the old name has a drive, and another than the new one's.
#[tactic(auto, unfolding(crate::specs::Command::is_elsewhere))]
fn is_elsewhere(current: u8, new: &Fcb, old: &Fcb) -> bool
    ensures { result ≡ is_elsewhere current new.now old.now }
{
    old.drive != 0 && effective_drive(current, old) != effective_drive(current, new)
}

/// The drive of a file, 0 for A.
#[tactic(auto, unfolding(crate::specs::Command::effective_drive))]
fn effective_drive(current: u8, file: &Fcb) -> u8
    ensures { result ≡ effective_drive current file.now }
{
    if file.drive == 0 {
        current
    } else {
        file.drive - 1
    }
}

/// SAVE: the number of pages and the file.
#[tactic(auto, unfolding(crate::specs::Command::save_of, crate::specs::Command::save_command))]
pub(crate) fn save_of(tail: &[u8]) -> Command
    ensures { result ≡ save_of tail.now }
{
    let (word, rest) = split_first_word(tail);
    let file = parse_fcb(rest).0;
    match number_up_to(255, word) {
        Some(pages) if !has_wildcard(&file) => Command::Save { pages, file },
        _ => Command::SaveForm,
    }
}

/// TYPE.
#[tactic(auto, unfolding(crate::specs::Command::type_command))]
pub(crate) fn type_command(tail: &[u8]) -> Command
    ensures { result ≡ type_command tail.now }
{
    let file = parse_fcb(tail).0;
    if has_wildcard(&file) {
        Command::TypeForm
    } else {
        Command::TypeFile(file)
    }
}

/// USER.
#[tactic(auto, unfolding(crate::specs::Command::user_of, crate::specs::Command::user_numbered))]
pub(crate) fn user_of(tail: &[u8]) -> Command
    ensures { result ≡ user_of tail.now }
{
    match number_up_to(15, first_word(tail)) {
        Some(user) => Command::User(user),
        None => Command::UserForm,
    }
}
