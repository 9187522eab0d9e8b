//! The mode of a session in words: `Program`, `Text 8001`, `Hold Call`, `Command Directory 1 1`.

use crate::text::{add_address, add_number};
use cpm_bdos::{CommandPart, HeldOutput, Mode};
use std::alloc::{AllocError, Global};
use test_language::{RowFault, Word, address};

/// The words of a mode.
pub fn mode_words(alloc: Global, mode: Mode) -> Result<String, AllocError> {
    let mut words = String::new(alloc);
    add_mode(alloc, &mut words, mode)?;
    Ok(words)
}

/// Adds the words of a mode.
fn add_mode(alloc: Global, out: &mut String, mode: Mode) -> Result<(), AllocError> {
    match mode {
        Mode::Text { next } => add_address(alloc, out, "Text ", next),
        Mode::Hold(held) => add_held(alloc, out, held),
        Mode::Command(part) => {
            out.push_str("Command ")?;
            add_part(alloc, out, part)
        }
        _ => out.push_str(format!(in alloc; "{mode:?}")?.as_str()),
    }
}

/// Adds the words of what is held.
fn add_held(alloc: Global, out: &mut String, held: HeldOutput) -> Result<(), AllocError> {
    out.push_str("Hold ")?;
    match held {
        HeldOutput::Call => out.push_str("Call"),
        HeldOutput::Text { next } => add_address(alloc, out, "Text ", next),
        HeldOutput::Command(part) => add_part(alloc, out, part),
    }
}

/// Adds the words of a part of the command processor.
fn add_part(alloc: Global, out: &mut String, part: CommandPart) -> Result<(), AllocError> {
    match part {
        CommandPart::Directory { next, column } => {
            add_number(alloc, out, "Directory ", next)?;
            add_number(alloc, out, " ", u16::from(column))
        }
        CommandPart::Save { next, left } => {
            add_address(alloc, out, "Save ", next)?;
            add_number(alloc, out, " ", left)
        }
        CommandPart::Load { next } => add_address(alloc, out, "Load ", next),
        _ => out.push_str(format!(in alloc; "{part:?}")?.as_str()),
    }
}

/// The mode of these words, among those that rows set.
pub fn mode_of(words: &[Word<'_>]) -> Result<Mode, RowFault> {
    match words {
        [only] if only.text == "Program" => Ok(Mode::Program),
        [kind, next] if kind.text == "Text" => Ok(Mode::Text {
            next: address(*next)?,
        }),
        [kind, held] if kind.text == "Hold" && held.text == "Call" => Ok(Mode::Hold(
            HeldOutput::Call,
        )),
        [kind, part] if kind.text == "Command" => Ok(Mode::Command(part_of(part.text)?)),
        _ => Err(RowFault::Words),
    }
}

/// The part of the command processor of this name.
fn part_of(name: &str) -> Result<CommandPart, RowFault> {
    match name {
        "Line" => Ok(CommandPart::Line),
        "Answer" => Ok(CommandPart::Answer),
        "Show" => Ok(CommandPart::Show),
        _ => Err(RowFault::Words),
    }
}
