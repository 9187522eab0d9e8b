//! Output to the console and the list device, and its hold by ^S.

ghost use Rattle.std.specs.Prelude.{◌≡◌, ◌≤◌, length};
ghost use Rattle.cpm_memory.specs.Room.{HasRoom};
ghost use Rattle.cpm_bdos.specs.StepResult.{did, answered};
ghost use Rattle.cpm_bdos.specs.Keys.{first_key};
ghost use Rattle.cpm_bdos.specs.Hold.{is_stop, stopped, release};
ghost use Rattle.cpm_bdos.specs.Output.{list_byte, write_byte, write_text};
ghost use Rattle.cpm_console.specs.Terminal.{step_output};

use crate::session::{HeldOutput, Mode, Session, Went};
use cpm_memory::Memory;

/// The key that holds output.
const STOP: u8 = 0x13;

/// The key that ends a hold, or a line that is empty, by a warm boot.
const BREAK: u8 = 0x03;

impl Session {
    /// Shows the byte in E.
    pub(crate) fn write_byte<M: Memory>(&mut self, memory: &M) -> Went
        requires screen { length self.old.console.screen ≤ step_output }
        requires printer { length self.old.console.printer ≤ step_output }
        ensures { did self.new (M.contents memory.now) result ≡ write_byte self.old (M.contents memory.now) }
    {
        if self.is_stopped() {
            return self.hold(HeldOutput::Call);
        }
        self.console.write(self.regs.e);
        self.answer(memory, 0)
    }

    /// Shows a character of a text, or ends at `$`.
    pub(crate) fn write_text<M: Memory>(&mut self, memory: &M, next: u16, held: HeldOutput) -> Went
        requires screen { length self.old.console.screen ≤ step_output }
        requires printer { length self.old.console.printer ≤ step_output }
        ensures { did self.new (M.contents memory.now) result ≡ write_text held self.old (M.contents memory.now) next }
    {
        let byte = memory.get(next);
        if byte == b'$' {
            return self.answer(memory, 0);
        }
        if self.is_stopped() {
            return self.hold(held);
        }
        self.console.write(byte);
        self.mode = Mode::Text {
            next: next.wrapping_add(1),
        };
        Went::GoesOn
    }

    /// Sends the byte in E to the list device.
    pub(crate) fn list_byte<M: Memory>(&mut self, memory: &M) -> Went
        requires { length self.old.console.printer ≤ step_output }
        ensures { did self.new (M.contents memory.now) result ≡ answered (list_byte self.old self.old.regs.e) (M.contents memory.now) 0 }
    {
        self.console.put_list(self.regs.e);
        self.answer(memory, 0)
    }

    /// Whether ^S is the first key.
    pub fn is_stopped(&self) -> bool
        ensures { result ≡ is_stop (first_key self.now) }
    {
        self.console.first_key() == Some(STOP)
    }

    /// Takes ^S, and holds the output until another key.
    pub fn hold(&mut self, held: HeldOutput) -> Went
        ensures session { self.new ≡ stopped self.old held }
        ensures went { result ≡ Went.GoesOn }
    {
        self.console.next_key();
        self.mode = Mode::Hold(held);
        Went::GoesOn
    }

    /// Ends a hold by a key.
    pub(crate) fn release<M: Memory>(&mut self, memory: &mut M, held: HeldOutput) -> Went
        requires { HasRoom (M.contents memory.old) }
        ensures step { did self.new (M.contents memory.new) result ≡ release held (first_key self.old) self.old (M.contents memory.old) }
        ensures leads { M.Leads memory.old memory.new }
    {
        let Some(key) = self.console.next_key() else {
            return Went::Waits;
        };
        if key == BREAK {
            return self.reboot(memory);
        }
        self.mode = match held {
            HeldOutput::Call => Mode::Program,
            HeldOutput::Text { next } => Mode::Text { next },
            HeldOutput::Command(part) => Mode::Command(part),
        };
        Went::GoesOn
    }
}
