//! A line that is read, one key a step.

ghost use Rattle.std.specs.Prelude.{◌≡◌, ◌≤◌, MatchOption, IfNone, length};
ghost use Rattle.cpm_memory.specs.Contents.{Contents};
ghost use Rattle.cpm_memory.specs.Room.{HasRoom};
ghost use Rattle.cpm_bdos.specs.StepResult.{did};
ghost use Rattle.cpm_bdos.specs.ReadLine.{LineReader, is_open, line_ended, line_step, edit_line, read_line};
ghost use Rattle.cpm_bdos.specs.declared.session.Went.TheVariants.{Waits};
ghost use Rattle.cpm_console.specs.Terminal.{step_output};

use crate::registers::pair_de;
use crate::session::{Mode, Session, Went};
use cpm_console::{Line, LineState};
use cpm_memory::{Memory, change_run};

impl Session {
    /// The first step of a line.
    pub(crate) fn read_line<M: Memory>(&mut self, memory: &mut M) -> Went
        requires screen { length self.old.console.screen ≤ step_output }
        requires printer { length self.old.console.printer ≤ step_output }
        requires room { HasRoom (M.contents memory.old) }
        ensures step { did self.new (M.contents memory.new) result ≡ read_line self.old (M.contents memory.old) }
        ensures leads { M.Leads memory.old memory.new }
    {
        let limit = memory.get(pair_de(&self.regs));
        let line = Line::new(self.console.column(), limit);
        if is_open(&line) && self.console.first_key().is_none() {
            return Went::Waits;
        }
        self.line = line;
        self.edit_line(memory)
    }

    /// A step of function 10's line.
    pub(crate) fn edit_line<M: Memory>(&mut self, memory: &mut M) -> Went
        requires screen { length self.old.console.screen ≤ step_output }
        requires printer { length self.old.console.printer ≤ step_output }
        requires room { HasRoom (M.contents memory.old) }
        ensures step { did self.new (M.contents memory.new) result ≡ edit_line self.old.line self.old (M.contents memory.old) }
        ensures leads { M.Leads memory.old memory.new }
    {
        match self.step_line() {
            Some(LineState::GoesOn) => {
                self.mode = Mode::Line;
                Went::GoesOn
            }
            Some(LineState::Ended) => self.end_line(memory),
            Some(LineState::Interrupted) => self.reboot(memory),
            None => Went::Waits,
        }
    }

    /// A step of the line that is being read, by function 10 or by the command processor: how the line goes on, or
    /// nothing where it needs a key and none is pending, and then nothing has changed.
    pub fn step_line(&mut self) -> Option<LineState>
        requires screen { length self.old.console.screen ≤ step_output }
        requires printer { length self.old.console.printer ≤ step_output }
        ensures step { (goes_on : LineReader) (m : Contents) → MatchOption result
            (did self.old m Waits ≡ line_step goes_on self.old.line self.old m)
            (λ progress. goes_on progress self.new m ≡ line_step goes_on self.old.line self.old m) }
        ensures waits { IfNone result (self.new ≡ self.old) }
    {
        if !is_open(&self.line) {
            self.console.say(b'\r');
            return Some(LineState::Ended);
        }
        let key = self.console.next_key()?;
        Some(self.line.key_into_line(&mut self.console, key))
    }

    /// Puts the line into memory after the byte of its greatest length, and returns.
    fn end_line<M: Memory>(&mut self, memory: &mut M) -> Went
        requires { HasRoom (M.contents memory.old) }
        ensures step { did self.new (M.contents memory.new) result ≡ line_ended self.old (M.contents memory.old) }
        ensures leads { M.Leads memory.old memory.new }
    {
        let at = pair_de(&self.regs).wrapping_add(1);
        let characters = self.line.characters();
        change_run(memory, at, &[characters.len() as u8]);
        change_run(memory, at.wrapping_add(1), characters);
        self.answer(memory, 0)
    }
}

/// Whether a line may have a character more.
pub(crate) fn is_open(line: &Line) -> bool
    ensures { result ≡ is_open line.now }
{
    line.characters().len() < usize::from(line.limit())
}
