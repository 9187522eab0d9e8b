//! Whether a session waits for a key.

ghost use Rattle.std.specs.Prelude.{◌≡◌};
ghost use Rattle.cpm_bdos.specs.Waiting.{function_needs_key, part_needs_key, needs_key, is_waiting, IsWaiting};
ghost use Rattle.cpm_bdos.specs.Function.{function_of};

use crate::function::Function;
use crate::line::is_open;
use crate::registers::pair_de;
use crate::session::{CommandPart, Mode, Session};
use cpm_memory::Memory;
use cpm_memory::layout::{BDOS, CONSOLE_INPUT};

/// Whether a step now, the session running, would find no key where it needs one, and so change nothing.
pub fn waits<M: Memory>(session: &Session, memory: &M) -> bool
    ensures value { result ≡ is_waiting session.now (M.contents memory.now) }
    ensures step { IsWaiting result session.now (M.contents memory.now) }
{
    is_waiting(session, memory)
}

/// Whether the next step needs a key, and none is pending.
fn is_waiting<M: Memory>(session: &Session, memory: &M) -> bool
    ensures { result ≡ is_waiting session.now (M.contents memory.now) }
{
    needs_key(session, memory) && session.console.first_key().is_none()
}

/// Whether the next step needs a key.
fn needs_key<M: Memory>(session: &Session, memory: &M) -> bool
    ensures { result ≡ needs_key session.now.mode session.now (M.contents memory.now) }
{
    match session.mode {
        Mode::Program if session.regs.pc == BDOS => function_needs_key(session, memory),
        Mode::Program => session.regs.pc == CONSOLE_INPUT,
        Mode::Text { .. } => false,
        Mode::Line => is_open(&session.line),
        Mode::Hold(_) | Mode::Fault => true,
        Mode::Command(part) => part_needs_key(session, part),
    }
}

/// Whether the next step of a part of the command processor needs a key.
fn part_needs_key(session: &Session, part: CommandPart) -> bool
    ensures { result ≡ part_needs_key part session.now }
{
    match part {
        CommandPart::Line | CommandPart::Answer => is_open(&session.line),
        _ => false,
    }
}

/// Whether the first step of the function in C needs a key.
fn function_needs_key<M: Memory>(session: &Session, memory: &M) -> bool
    ensures { result ≡ function_needs_key (function_of session.now.regs.c) session.now (M.contents memory.now) }
{
    match Function::of(session.regs.c) {
        Function::ReadKey => true,
        Function::ReadLine => memory.get(pair_de(&session.regs)) != 0,
        _ => false,
    }
}
