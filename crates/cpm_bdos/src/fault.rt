//! Faults of the disk system.

ghost use Rattle.std.specs.Prelude.{◌≡◌, ◌≤◌, ◌+◌, length};
ghost use Rattle.cpm_memory.specs.Room.{HasRoom};
ghost use Rattle.cpm_console.specs.Terminal.{shown, IsWithin, most_waiting, step_output};
ghost use Rattle.cpm_bdos.specs.StepResult.{did};
ghost use Rattle.cpm_bdos.specs.Keys.{first_key};
ghost use Rattle.cpm_bdos.specs.Faults.{fault_name, in_fault, after_fault};

use crate::session::{Mode, Session, Went};
use cpm_console::Console;
use cpm_memory::Memory;
use cpm_volume::Fault;

/// What a fault is called in its message.
fn name_of(fault: Fault) -> &'static [u8]
    ensures { result.now ≡ fault_name fault }
{
    match fault {
        Fault::BadSector => b"Bad Sector",
        Fault::Select => b"Select",
        Fault::FileReadOnly => b"File R/O",
        Fault::ReadOnly => b"R/O",
    }
}

impl Session {
    /// Shows the message of a fault on a drive, 0 for A, on the console alone. The session then waits for a key, which
    /// boots it anew. The console must have room for 4,096 bytes.
    #[tactic(auto, using(crate::proofs::Showing::showing))]
    pub fn fault(&mut self, fault: Fault, drive: u8) -> Went
        requires { length self.old.console.screen ≤ step_output }
        ensures session { self.new ≡ in_fault self.old fault drive }
        ensures went { result ≡ Went.GoesOn }
        ensures output { IsWithin step_output self.old.console self.new.console }
    {
        show_all(&mut self.console, b"\r\nBdos Err On ");
        self.console.put(b'A' + drive % 16);
        show_all(&mut self.console, b": ");
        show_all(&mut self.console, name_of(fault));
        self.mode = Mode::Fault;
        Went::GoesOn
    }

    /// Boots the session anew once a key is there.
    pub(crate) fn after_fault<M: Memory>(&mut self, memory: &mut M) -> Went
        requires { HasRoom (M.contents memory.old) }
        ensures step { did self.new (M.contents memory.new) result ≡ after_fault (first_key self.old) self.old (M.contents memory.old) }
        ensures leads { M.Leads memory.old memory.new }
    {
        match self.console.next_key() {
            Some(_) => self.reboot(memory),
            None => Went::Waits,
        }
    }
}

/// Shows a text on the console alone.
#[tactic(auto, using(crate::proofs::Showing::showing))]
fn show_all(console: &mut Console, text: &[u8])
    requires { length console.old.screen + length text.now ≤ most_waiting }
    ensures { console.new ≡ shown console.old text.now }
{
    for byte in text {
        console.put(*byte);
    }
}
