//! One step of a call of the BDOS.

ghost use Rattle.std.specs.Prelude.{◌≡◌, ◌≤◌, [], ◌∷◌, List, ℕ, length};
ghost use Rattle.cpm_memory.specs.Contents.{after_run};
ghost use Rattle.cpm_memory.specs.Layout.{io_byte_address};
ghost use Rattle.cpm_memory.specs.Room.{HasRoom};
ghost use Rattle.cpm_bdos.specs.Function.{function_of};
ghost use Rattle.cpm_bdos.specs.StepResult.{did, answered};
ghost use Rattle.cpm_bdos.specs.Step.{function_called, bdos};
ghost use Rattle.cpm_bdos.specs.Bounds.{IsBounded};
ghost use Rattle.cpm_bdos.specs.Behind.{session_behind, did_behind};
ghost use Rattle.cpm_console.specs.Terminal.{step_output};

use crate::function::Function;
use crate::registers::pair_de;
use crate::session::{HeldOutput, Mode, Session, Went};
use cpm_geom::Image;
use cpm_memory::layout::IO_BYTE;
use cpm_memory::{Memory, change_run};

/// What the reader gives: the end of a text.
pub(crate) const READER_BYTE: u8 = 0x1A;

impl Session {
    /// One step of the call in progress, or the first step of the one that the registers ask for. A call that ends
    /// returns to the program, or boots the session anew. The system drive is lent. Both devices must have room for
    /// 4,096 bytes.
    pub fn bdos_step<M: Memory>(&mut self, memory: &mut M, system: &Image) -> Went
        requires screen { length self.old.console.screen ≤ step_output }
        requires printer { length self.old.console.printer ≤ step_output }
        requires room { HasRoom (M.contents memory.old) }
        ensures step { did self.new (M.contents memory.new) result ≡ bdos system.now self.old (M.contents memory.old) }
        ensures leads { M.Leads memory.old memory.new }
        ensures bounds { IsBounded self.old (M.contents memory.old) (did self.new (M.contents memory.new) result) }

        // Output that waits already changes nothing in a step, which shows its own after it.
        ensures behind { (p q : List ℕ) → bdos system.now (session_behind p q self.old) (M.contents memory.old)
            ≡ did_behind p q (did self.new (M.contents memory.new) result) }
    {
        self.numbers_fit();
        self.call_step(memory, system)
    }

    /// One step, by the mode.
    fn call_step<M: Memory>(&mut self, memory: &mut M, system: &Image) -> Went
        requires screen { length self.old.console.screen ≤ step_output }
        requires printer { length self.old.console.printer ≤ step_output }
        requires room { HasRoom (M.contents memory.old) }
        ensures step { did self.new (M.contents memory.new) result ≡ bdos system.now self.old (M.contents memory.old) }
        ensures leads { M.Leads memory.old memory.new }
    {
        match self.mode {
            Mode::Program => self.call(memory, system),
            Mode::Text { next } => self.write_text(memory, next, HeldOutput::Text { next }),
            Mode::Line => self.edit_line(memory),
            Mode::Hold(held) => self.release(memory, held),
            Mode::Fault => self.after_fault(memory),
            Mode::Command(_) => Went::GoesOn,
        }
    }

    /// The first step of a call.
    fn call<M: Memory>(&mut self, memory: &mut M, system: &Image) -> Went
        requires screen { length self.old.console.screen ≤ step_output }
        requires printer { length self.old.console.printer ≤ step_output }
        requires room { HasRoom (M.contents memory.old) }
        ensures step { did self.new (M.contents memory.new) result ≡ function_called (function_of self.old.regs.c) system.now self.old (M.contents memory.old) }
        ensures leads { M.Leads memory.old memory.new }
    {
        match Function::of(self.regs.c) {
            Function::WarmBoot => self.reboot(memory),
            Function::ReadKey => self.read_key(memory),
            Function::WriteByte => self.write_byte(memory),
            Function::ReaderInput => self.answer(memory, u16::from(READER_BYTE)),
            Function::ListOutput => self.list_byte(memory),
            Function::DirectConsole => self.direct_console(memory),
            Function::GetIoByte => self.answer(memory, u16::from(memory.get(IO_BYTE))),
            Function::SetIoByte => self.set_io_byte(memory),
            Function::WriteText => {
                let next = pair_de(&self.regs);
                self.write_text(memory, next, HeldOutput::Call)
            }
            Function::ReadLine => self.read_line(memory),
            Function::ConsoleStatus => self.answer(memory, u16::from(self.console_status())),
            Function::Version => self.answer(memory, 0x0022),
            Function::ResetDisks => self.reset_disks(memory, system),
            Function::SelectDisk => self.select_disk(memory, system),
            Function::File(function) => self.call_file_function(memory, system, function),
            Function::LoginVector => self.give_login_vector(memory),
            Function::CurrentDisk => self.answer(memory, u16::from(self.disks.current)),
            Function::SetBuffer => self.set_buffer(memory),
            Function::AllocationVector => self.give_allocation(memory, system),
            Function::ProtectDisk => self.protect_disk(memory, system),
            Function::ReadOnlyVector => self.give_read_only_vector(memory),
            Function::DiskParameters => self.give_parameters(memory, system),
            Function::UserCode => self.user_code(memory),
            Function::ResetDrives => self.reset_drives(memory),
            Function::PunchOutput | Function::Other => self.answer(memory, 0),
        }
    }

    /// Stores E as the I/O byte.
    fn set_io_byte<M: Memory>(&mut self, memory: &mut M) -> Went
        requires { HasRoom (M.contents memory.old) }
        ensures step { did self.new (M.contents memory.new) result
            ≡ answered self.old (after_run (M.contents memory.old) io_byte_address (self.old.regs.e ∷ [])) 0 }
        ensures leads { M.Leads memory.old memory.new }
    {
        change_run(memory, IO_BYTE, &[self.regs.e]);
        self.answer(memory, 0)
    }
}
