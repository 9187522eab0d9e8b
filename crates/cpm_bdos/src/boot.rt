//! What every call may end in: a return with a result, or a warm boot.

ghost use Rattle.std.specs.Prelude.{◌≡◌};
ghost use Rattle.cpm_memory.specs.Room.{HasRoomFor};
ghost use Rattle.cpm_bdos.specs.StepResult.{did, call_returned, answered, rebooted};

use crate::registers::{put_result, return_to};
use crate::session::{Mode, Session, Went};
use cpm_memory::layout::{BDOS_JUMP, COMMAND_PROCESSOR, DEFAULT_BUFFER, STACK, WARM_BOOT_JUMP};
use cpm_memory::{Memory, change_run, get_word};

impl Session {
    /// Returns from a call as RET does.
    pub(crate) fn return_from_call<M: Memory>(&mut self, memory: &M) -> Went
        ensures { did self.new (M.contents memory.now) result ≡ call_returned self.old (M.contents memory.now) }
    {
        let address = get_word(memory, self.regs.sp);
        return_to(&mut self.regs, address);
        self.mode = Mode::Program;
        Went::Returned
    }

    /// Returns from a call with a result.
    pub(crate) fn answer<M: Memory>(&mut self, memory: &M, value: u16) -> Went
        ensures { did self.new (M.contents memory.now) result ≡ answered self.old (M.contents memory.now) value }
    {
        put_result(&mut self.regs, value);
        self.return_from_call(memory)
    }

    /// Boots the session anew, for which two pages may be written: the jumps at 0000h and 0005h are restored, and the
    /// command processor comes next.
    pub fn reboot<M: Memory>(&mut self, memory: &mut M) -> Went
        requires { HasRoomFor 2 (M.contents memory.old) }
        ensures step { did self.new (M.contents memory.new) result ≡ rebooted self.old (M.contents memory.old) }
        ensures leads { M.Leads memory.old memory.new }
    {
        change_run(memory, 0x0000, &WARM_BOOT_JUMP);
        change_run(memory, 0x0005, &BDOS_JUMP);
        self.regs.sp = STACK;
        self.regs.pc = COMMAND_PROCESSOR;
        self.console.set_list_echo(false);
        self.disks.reboot();
        self.buffer = DEFAULT_BUFFER;
        self.mode = Mode::Program;
        Went::Reboot
    }
}
