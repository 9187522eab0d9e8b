//! One step of a call of the BIOS.

ghost use Rattle.std.specs.Prelude.{◌≡◌, ◌≤◌, List, ℕ, length};
ghost use Rattle.cpm_memory.specs.Room.{HasRoom};
ghost use Rattle.cpm_bdos.specs.StepResult.{did, call_returned};
ghost use Rattle.cpm_bdos.specs.Keys.{first_key};
ghost use Rattle.cpm_bdos.specs.Output.{showed, list_byte};
ghost use Rattle.cpm_bdos.specs.BiosDisks.{returned_a};
ghost use Rattle.cpm_bdos.specs.Step.{booted, console_input, bios};
ghost use Rattle.cpm_bdos.specs.Bounds.{IsBounded};
ghost use Rattle.cpm_bdos.specs.Behind.{session_behind, did_behind};
ghost use Rattle.cpm_console.specs.Terminal.{step_output};

use crate::bdos::READER_BYTE;
use crate::function::BiosCall;
use crate::session::{Session, Went};
use cpm_geom::Image;
use cpm_memory::{Memory, change_run};

/// What says that the list device is ready.
const READY: u8 = 0xFF;

impl Session {
    /// The call of the BIOS with this number. It returns to the program, boots the session anew, or waits for a key.
    /// Both devices must have room for 4,096 bytes.
    pub fn bios_step<M: Memory>(&mut self, memory: &mut M, system: &Image, number: u8) -> Went
        requires screen { length self.old.console.screen ≤ step_output }
        requires printer { length self.old.console.printer ≤ step_output }
        requires room { HasRoom (M.contents memory.old) }
        ensures step { did self.new (M.contents memory.new) result ≡ bios number system.now self.old (M.contents memory.old) }
        ensures leads { M.Leads memory.old memory.new }
        ensures bounds { IsBounded self.old (M.contents memory.old) (did self.new (M.contents memory.new) result) }

        // Output that waits already changes nothing in a step, which shows its own after it.
        ensures behind { (p q : List ℕ) → bios number system.now (session_behind p q self.old) (M.contents memory.old)
            ≡ did_behind p q (did self.new (M.contents memory.new) result) }
    {
        self.numbers_fit();
        self.bios_call(memory, system, number)
    }

    /// A call of the BIOS.
    fn bios_call<M: Memory>(&mut self, memory: &mut M, system: &Image, number: u8) -> Went
        requires screen { length self.old.console.screen ≤ step_output }
        requires printer { length self.old.console.printer ≤ step_output }
        requires room { HasRoom (M.contents memory.old) }
        ensures step { did self.new (M.contents memory.new) result ≡ bios number system.now self.old (M.contents memory.old) }
        ensures leads { M.Leads memory.old memory.new }
    {
        match BiosCall::of(number) {
            BiosCall::Boot => self.boot(memory),
            BiosCall::WarmBoot => self.reboot(memory),
            BiosCall::ConsoleStatus => {
                let status = self.console_status();
                self.return_byte(memory, status)
            }
            BiosCall::ConsoleInput => self.console_input(memory),
            BiosCall::ConsoleOutput => self.console_output(memory),
            BiosCall::List => self.list(memory),
            BiosCall::Reader => self.return_byte(memory, READER_BYTE),
            BiosCall::Home => self.home(memory),
            BiosCall::SelectDrive => self.select_drive(memory, system),
            BiosCall::SetTrack => self.set_track(memory),
            BiosCall::SetSector => self.set_sector(memory),
            BiosCall::SetSectorBuffer => self.set_sector_buffer(memory),
            BiosCall::ReadSector => self.read_sector(memory, system),
            BiosCall::WriteSector => self.write_sector(memory),
            BiosCall::Translate => self.translate(memory),
            BiosCall::ListStatus => self.return_byte(memory, READY),
            BiosCall::Punch | BiosCall::Other => self.return_from_call(memory),
        }
    }

    /// Clears the I/O byte and the current drive and user, and boots the session anew.
    fn boot<M: Memory>(&mut self, memory: &mut M) -> Went
        requires { HasRoom (M.contents memory.old) }
        ensures step { did self.new (M.contents memory.new) result ≡ booted self.old (M.contents memory.old) }
        ensures leads { M.Leads memory.old memory.new }
    {
        change_run(memory, 0x0003, &[0, 0]);
        self.reboot(memory)
    }

    /// Returns with a byte in A.
    pub(crate) fn return_byte<M: Memory>(&mut self, memory: &M, value: u8) -> Went
        ensures { did self.new (M.contents memory.now) result ≡ returned_a self.old (M.contents memory.now) value }
    {
        self.regs.a = value;
        self.return_from_call(memory)
    }

    /// Reads a key into A.
    fn console_input<M: Memory>(&mut self, memory: &M) -> Went
        ensures { did self.new (M.contents memory.now) result ≡ console_input (first_key self.old) self.old (M.contents memory.now) }
    {
        match self.console.next_key() {
            Some(key) => self.return_byte(memory, key),
            None => Went::Waits,
        }
    }

    /// Shows the byte in C as it is.
    fn console_output<M: Memory>(&mut self, memory: &M) -> Went
        requires { length self.old.console.screen ≤ step_output }
        ensures { did self.new (M.contents memory.now) result ≡ call_returned (showed self.old self.old.regs.c) (M.contents memory.now) }
    {
        self.console.put(self.regs.c);
        self.return_from_call(memory)
    }

    /// Sends the byte in C to the list device.
    fn list<M: Memory>(&mut self, memory: &M) -> Went
        requires { length self.old.console.printer ≤ step_output }
        ensures { did self.new (M.contents memory.now) result ≡ call_returned (list_byte self.old self.old.regs.c) (M.contents memory.now) }
    {
        self.console.put_list(self.regs.c);
        self.return_from_call(memory)
    }
}
