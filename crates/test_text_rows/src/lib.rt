//! Scenes of rows on texts: those that a person writes for the host, as key scripts, configurations and command lines, and those of a screen.
#![tactic(auto)]

mod command_lines;
mod configurations;
mod screen_keys;
mod screens;
mod scripts;
mod sessions;
mod tasks;

pub use command_lines::CommandLines;
pub use configurations::Configurations;
use cpm_flags::Cpu;
pub use screens::Screens;
pub use scripts::Scripts;
use std::alloc::{AllocError, Global};
use test_language::RowFault;

/// Adds values in quotes after what they are, where there are some.
fn add_texts(alloc: Global, out: &mut String, name: &str, values: &[&str]) -> Result<(), RowFault> {
    if values.is_empty() {
        return Ok(());
    }
    out.push_str(name)?;
    for value in values {
        add_quoted(alloc, out, value)?;
    }
    Ok(())
}

/// Adds a value in quotes after a space.
fn add_quoted(alloc: Global, out: &mut String, value: &str) -> Result<(), AllocError> {
    out.push_str(format!(in alloc; " {value:?}")?.as_str())
}

/// Adds a value in quotes after what it is, where there is one.
fn add_text(
    alloc: Global,
    out: &mut String,
    name: &str,
    value: Option<&str>,
) -> Result<(), RowFault> {
    match value {
        Some(value) => add_texts(alloc, out, name, &[value]),
        None => Ok(()),
    }
}

/// Adds a number after what it is.
fn add_number(alloc: Global, out: &mut String, name: &str, number: u64) -> Result<(), RowFault> {
    out.push_str(name)?;
    out.push_str(format!(in alloc; " {number}")?.as_str())?;
    Ok(())
}

/// Adds a processor.
fn add_cpu(out: &mut String, cpu: Cpu) -> Result<(), RowFault> {
    out.push_str(match cpu {
        Cpu::I8080 => " cpu I8080",
        Cpu::Z80 => " cpu Z80",
    })?;
    Ok(())
}
