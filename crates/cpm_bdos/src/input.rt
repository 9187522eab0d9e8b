//! Input from the console, and the console without echo.

ghost use Rattle.std.specs.Prelude.{◌≡◌, ◌≤◌, length};
ghost use Rattle.cpm_bdos.specs.StepResult.{did};
ghost use Rattle.cpm_bdos.specs.Keys.{first_key, console_status};
ghost use Rattle.cpm_bdos.specs.Input.{is_echoed, read_key, direct_console};
ghost use Rattle.cpm_console.specs.Terminal.{step_output};

use crate::session::{Session, Went};
use cpm_memory::Memory;

/// The parameter of function 6 that asks for a key.
const TAKE_KEY: u8 = 0xFF;

/// The parameter of function 6 that asks whether a key is pending.
const ASK_STATUS: u8 = 0xFE;

impl Session {
    /// FFh where a key is pending, else 00h.
    pub(crate) fn console_status(&self) -> u8
        ensures { result ≡ console_status (first_key self.now) }
    {
        match self.console.first_key() {
            Some(_) => 0xFF,
            None => 0x00,
        }
    }

    /// Reads a key, and echoes it where it is a character or moves the cursor.
    pub(crate) fn read_key<M: Memory>(&mut self, memory: &M) -> Went
        requires screen { length self.old.console.screen ≤ step_output }
        requires printer { length self.old.console.printer ≤ step_output }
        ensures { did self.new (M.contents memory.now) result ≡ read_key (first_key self.old) self.old (M.contents memory.now) }
    {
        let Some(key) = self.console.next_key() else {
            return Went::Waits;
        };
        if is_echoed(key) {
            self.console.write(key);
        }
        self.answer(memory, u16::from(key))
    }

    /// The console without echo: a key, whether there is one, or the byte in E shown as it is.
    pub(crate) fn direct_console<M: Memory>(&mut self, memory: &M) -> Went
        requires { length self.old.console.screen ≤ step_output }
        ensures { did self.new (M.contents memory.now) result ≡ direct_console self.old.regs.e self.old (M.contents memory.now) }
    {
        match self.regs.e {
            TAKE_KEY => {
                let key = self.console.next_key().unwrap_or(0);
                self.answer(memory, u16::from(key))
            }
            ASK_STATUS => {
                let status = self.console_status();
                self.answer(memory, u16::from(status))
            }
            byte => {
                self.console.put(byte);
                self.answer(memory, 0)
            }
        }
    }
}

/// Whether function 1 echoes a key.
fn is_echoed(key: u8) -> bool
    ensures { result ≡ is_echoed key }
{
    matches!(key, 0x08 | 0x09 | 0x0A | 0x0D | 0x20..)
}
