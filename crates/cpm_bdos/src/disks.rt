//! The functions of the BDOS on drives and files.

ghost use Rattle.std.specs.Prelude.{◌≡◌, ◌≤◌, length};
ghost use Rattle.cpm_memory.specs.Room.{HasRoom};
ghost use Rattle.cpm_memory.specs.DiskTables.{parameter_block_address};
ghost use Rattle.cpm_drives.specs.Selecting.{drives_reset, protect};
ghost use Rattle.cpm_drives.specs.Vectors.{login_vector, read_only_vector};
ghost use Rattle.cpm_bdos.specs.StepResult.{did, answered};
ghost use Rattle.cpm_bdos.specs.Registers.{pair_de};
ghost use Rattle.cpm_bdos.specs.Disks.{with_disks, by_answer, call_file_function, bios_table_of, vector_of};
ghost use Rattle.cpm_bdos.specs.Disks.{format_in, header_of, reset_disks, select_disk, give_allocation, user_code};
ghost use Rattle.cpm_console.specs.Terminal.{step_output};

use crate::registers::pair_de;
use crate::session::{Session, Went};
use crate::transfer::{get_fcb, get_record, store_fcb, store_record};
use cpm_drives::FileFunction;
use cpm_geom::{Format, Image};
use cpm_memory::disk_tables::format_offset;
use cpm_memory::layout::{
    DEFAULT_BUFFER, FIRST_ALLOCATION_VECTOR, FIRST_HEADER, FIRST_PARAMETER_BLOCK,
};
use cpm_memory::{Memory, change_run};
use cpm_volume::Fault;

/// The number of the system drive.
const SYSTEM: u8 = 15;

/// The parameter of function 32 that asks for the user.
const ASK_USER: u8 = 0xFF;

impl Session {
    /// Returns with a call's code, or goes into its fault on a drive.
    fn answer_or_fault<M: Memory>(
        &mut self,
        memory: &M,
        answer: Result<u8, Fault>,
        drive: u8,
    ) -> Went
        requires { length self.old.console.screen ≤ step_output }
        ensures { did self.new (M.contents memory.now) result ≡ by_answer answer drive self.old (M.contents memory.now) }
    {
        match answer {
            Ok(code) => self.answer(memory, u16::from(code)),
            Err(fault) => self.fault(fault, drive),
        }
    }

    /// A function on the file control block at DE and the record at the buffer.
    #[tactic(auto, unfolding(crate::specs::Disks::call_file_function))]
    pub(crate) fn call_file_function<M: Memory>(
        &mut self,
        memory: &mut M,
        system: &Image,
        function: FileFunction,
    ) -> Went
        requires screen { length self.old.console.screen ≤ step_output }
        requires room { HasRoom (M.contents memory.old) }
        ensures step { did self.new (M.contents memory.new) result ≡ call_file_function function system.now self.old (M.contents memory.old) }
        ensures leads { M.Leads memory.old memory.new }
    {
        let at = pair_de(&self.regs);
        let old = get_fcb(memory, at);
        let mut new = old;
        let mut record = get_record(memory, self.buffer);
        let drive = self.disks.drive_named(old[0]);
        let answer = self.disks.call(system, function, &mut new, &mut record);
        store_record(memory, self.buffer, &record);
        store_fcb(memory, at, &old, &new);
        self.answer_or_fault(memory, answer, drive)
    }

    /// Resets all drives and the buffer.
    pub(crate) fn reset_disks<M: Memory>(&mut self, memory: &M, system: &Image) -> Went
        ensures { did self.new (M.contents memory.now) result ≡ reset_disks system.now self.old (M.contents memory.now) }
    {
        self.disks.reset(system);
        self.buffer = DEFAULT_BUFFER;
        self.answer(memory, 0)
    }

    /// Selects the drive in E.
    #[tactic(auto, unfolding(crate::specs::Disks::select_disk))]
    pub(crate) fn select_disk<M: Memory>(&mut self, memory: &M, system: &Image) -> Went
        requires { length self.old.console.screen ≤ step_output }
        ensures { did self.new (M.contents memory.now) result ≡ select_disk system.now self.old (M.contents memory.now) }
    {
        let drive = self.regs.e;
        let answer = self.disks.select(system, drive);
        self.answer_or_fault(memory, answer, drive)
    }

    /// Gives the vector of the drives that are logged in.
    pub(crate) fn give_login_vector<M: Memory>(&mut self, memory: &M) -> Went
        ensures { did self.new (M.contents memory.now) result ≡ answered self.old (M.contents memory.now) (login_vector self.old.disks) }
    {
        let vector = self.disks.login_vector();
        self.answer(memory, vector)
    }

    /// Gives the vector of the drives that are protected.
    pub(crate) fn give_read_only_vector<M: Memory>(&mut self, memory: &M) -> Went
        ensures { did self.new (M.contents memory.now) result ≡ answered self.old (M.contents memory.now) (read_only_vector self.old.disks) }
    {
        let vector = self.disks.read_only_vector();
        self.answer(memory, vector)
    }

    /// Sets the buffer to DE.
    pub(crate) fn set_buffer<M: Memory>(&mut self, memory: &M) -> Went
        ensures { did self.new (M.contents memory.now) result ≡ answered (record self.old { buffer = pair_de self.old.regs }) (M.contents memory.now) 0 }
    {
        self.buffer = pair_de(&self.regs);
        self.answer(memory, 0)
    }

    /// Stores the allocation vector of the current drive, and gives its address.
    #[tactic(auto, unfolding(crate::specs::Disks::give_allocation))]
    pub(crate) fn give_allocation<M: Memory>(&mut self, memory: &mut M, system: &Image) -> Went
        requires { HasRoom (M.contents memory.old) }
        ensures step { did self.new (M.contents memory.new) result ≡ give_allocation system.now self.old (M.contents memory.old) }
        ensures leads { M.Leads memory.old memory.new }
    {
        let drive = self.disks.current;
        let at = vector_of(drive);
        self.disks.use_drive(system, drive);
        let vector = self.disks.allocation_vector(system);
        change_run(memory, at, &vector);
        self.answer(memory, at)
    }

    /// Gives the address of the current drive's parameter block.
    pub(crate) fn give_parameters<M: Memory>(&mut self, memory: &M, system: &Image) -> Went
        ensures { did self.new (M.contents memory.now) result
            ≡ answered self.old (M.contents memory.now) (parameter_block_address (format_in self.old.disks system.now self.old.disks.current)) }
    {
        let format = self.disks.image_at(system, self.disks.current).format();
        self.answer(memory, FIRST_PARAMETER_BLOCK + format_offset(format))
    }

    /// Protects the current drive.
    pub(crate) fn protect_disk<M: Memory>(&mut self, memory: &M, system: &Image) -> Went
        ensures { did self.new (M.contents memory.now) result ≡ answered (with_disks self.old (protect self.old.disks system.now)) (M.contents memory.now) 0 }
    {
        self.disks.protect(system);
        self.answer(memory, 0)
    }

    /// Resets the drives of the vector in DE.
    pub(crate) fn reset_drives<M: Memory>(&mut self, memory: &M) -> Went
        ensures { did self.new (M.contents memory.now) result
            ≡ answered (with_disks self.old (drives_reset self.old.disks (pair_de self.old.regs))) (M.contents memory.now) 0 }
    {
        self.disks.reset_drives(pair_de(&self.regs));
        self.answer(memory, 0)
    }

    /// Gives the user, or sets it to E.
    #[tactic(auto, unfolding(crate::specs::Disks::user_code))]
    pub(crate) fn user_code<M: Memory>(&mut self, memory: &M) -> Went
        ensures { did self.new (M.contents memory.now) result ≡ user_code self.old (M.contents memory.now) }
    {
        if self.regs.e == ASK_USER {
            return self.answer(memory, u16::from(self.disks.user));
        }
        self.disks.user = self.regs.e % 32;
        self.answer(memory, 0)
    }
}

/// The place of a drive's tables among those of all drives: A to D, and then the system drive.
fn bios_table_of(drive: u8) -> u16
    ensures { result ≡ bios_table_of drive }
{
    if drive == SYSTEM { 4 } else { u16::from(drive) }
}

/// The address of a drive's allocation vector.
fn vector_of(drive: u8) -> u16
    ensures { result ≡ vector_of drive }
{
    FIRST_ALLOCATION_VECTOR.wrapping_add(64 * bios_table_of(drive))
}

/// The address of a drive's parameter header, by the format of its disk.
pub(crate) fn header_of(format: Format, drive: u8) -> u16
    ensures { result ≡ header_of format drive }
{
    FIRST_HEADER.wrapping_add(32 * bios_table_of(drive) + format_offset(format))
}
