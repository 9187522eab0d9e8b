//! One machine with a memory of its own.

ghost use Rattle.std.specs.Prelude.{◌≡◌, true, false, ◌++◌, ◌≤◌, length, take, drop, min, Ok, IfOk, IfErr, None, if◌then◌else◌};
ghost use Rattle.cpm_memory.specs.Contents.{byte_at};
ghost use Rattle.cpm_drives.specs.Disks.{images_of};
ghost use Rattle.cpm_machine.specs.MachineState.{program_loaded, opened_machine, opened_with, with_tail};
ghost use Rattle.cpm_machine.specs.Step.{can_step, step, after};
ghost use Rattle.cpm_machine.specs.Laws.{IsStepBounded};
ghost use Rattle.cpm_machine.specs.Serve.{executed, why, look_of, taken, taken_list, takes_key, keyed};
ghost use Rattle.cpm_machine.specs.Until.{executed_until, why_until};
ghost use Rattle.cpm_machine.specs.ToWait.{executed_to_wait};
ghost use Rattle.cpm_machine.specs.Parts.{AreNew};
ghost use Rattle.cpm_machine.specs.Saving.{IsUnrestored, restored, bytes_of_saving, saving_with};
ghost use Rattle.cpm_machine.specs.Opening.{opening_fault, program_fault, IsRefusal};

use crate::digest::SystemDigest;
use crate::opening::{OpenError, Opening};
use crate::reply::{Closed, End, Granted, KeysFull, Look};
use crate::steps::{self, Runner};
use crate::{saving, to_wait, until};
use cpm_bdos::Session;
use cpm_ccp::{Tail, leave_tail};
use cpm_console::Console;
use cpm_decode::DecodeCache;
use cpm_drives::EntryRooms;
use cpm_flags::Cpu;
use cpm_geom::Image;
use cpm_memory::layout::{COMMAND_PROCESSOR, PROGRAM, STACK};
use cpm_memory::{FlatMemory, Memory, set_run, set_word};
use cpm_saved::RestoreError;
use std::alloc::{AllocError, Global};
use std::marker::Model;

/// One session with a memory of its own.
#[derive(Drop)]
pub struct Machine {
    runner: Runner,
    memory: FlatMemory,
}

/// What a machine takes memory for.
#[derive(Drop)]
struct Parts {
    console: Console,
    memory: FlatMemory,
    cache: DecodeCache,
    rooms: EntryRooms,
}

impl Model for Machine {
    ghost use Rattle.cpm_decode.specs.Cache.{IsRightFor};
    ghost use Rattle.cpm_memory.specs.Flat.{flat_contents, flat_stamps};
    ghost use Rattle.cpm_machine.specs.MachineState.{MachineState};
    ghost use Rattle.cpm_machine.specs.Runner.{state_of, IsRunnerSound};

    ghost Value = { MachineState };

    ghost view = { λ m. state_of m.runner (flat_contents m.memory) };

    ghost invariant = { λ m. IsRunnerSound (state_of m.runner (flat_contents m.memory))
        × IsRightFor (flat_contents m.memory) (flat_stamps m.memory) m.runner.cache };
}

impl Machine {
    /// A machine at its opening, which begins at the command processor. What is refused comes back with the reason: a quota that is not 16 to
    /// 256 pages, then no drive or more than four, then out of memory.
    pub fn new(alloc: Global, opening: Opening) -> Result<Machine, (Opening, OpenError)>
        ensures made { IfOk result (λ m. m ≡ opened_machine opening.cpu opening.quota opening.drives.items) }
        ensures fits { IfOk result (λ m. opening_fault opening ≡ None) }
        ensures refused { IfErr result (λ r. IsRefusal (opening_fault opening) r.1) }
        ensures handed_back { IfErr result (λ r. r.0 ≡ opening) }
    {
        if let Some(fault) = opening.fault() {
            return Err((opening, fault));
        }
        match allocate(alloc, &opening) {
            Ok(parts) => Ok(Self::opened(opening, parts)),
            Err(_) => Err((opening, OpenError::OutOfMemory)),
        }
    }

    /// A machine with a program at 0100h, which begins there. All pages may be written. What is refused comes back with the reason: a quota
    /// that is not 256 pages, then no drive or more than four, then a program of more than 58,112 bytes, then out of memory.
    pub fn with_program(
        alloc: Global,
        opening: Opening,
        program: Vec<u8>,
    ) -> Result<Machine, (Opening, Vec<u8>, OpenError)>
        ensures made { IfOk result (λ m. m ≡ opened_with opening.cpu opening.drives.items program.items) }
        ensures fits { IfOk result (λ m. program_fault opening program.items ≡ None) }
        ensures refused { IfErr result (λ r. IsRefusal (program_fault opening program.items) r.2) }
        ensures handed_back { IfErr result (λ r. (r.0 ≡ opening) × (r.1 ≡ program)) }
    {
        if let Some(fault) = opening.fault_with(program.as_slice()) {
            return Err((opening, program, fault));
        }
        match allocate(alloc, &opening) {
            Ok(parts) => {
                let mut machine = Self::opened(opening, parts);
                machine.load(program.as_slice());
                Ok(machine)
            }
            Err(_) => Err((opening, program, OpenError::OutOfMemory)),
        }
    }

    /// A machine with a program at 0100h and the tail of a command, which begins as the command processor would start it. It is else as
    /// `with_program` makes it, and refused as there.
    pub fn with_command(
        alloc: Global,
        opening: Opening,
        program: Vec<u8>,
        tail: &Tail,
    ) -> Result<Machine, (Opening, Vec<u8>, OpenError)>
        ensures made { IfOk result (λ m. m ≡ with_tail tail.now (opened_with opening.cpu opening.drives.items program.items)) }
        ensures fits { IfOk result (λ m. program_fault opening program.items ≡ None) }
        ensures refused { IfErr result (λ r. IsRefusal (program_fault opening program.items) r.2) }
        ensures handed_back { IfErr result (λ r. (r.0 ≡ opening) × (r.1 ≡ program)) }
    {
        let mut machine = Self::with_program(alloc, opening, program)?;
        machine.leave_tail(tail);
        Ok(machine)
    }

    /// A machine at its opening, made of these parts.
    fn opened(opening: Opening, parts: Parts) -> Machine
        requires least { 16 ≤ opening.quota }
        requires parts { AreNew opening.quota parts }
        ensures { result ≡ opened_machine opening.cpu opening.quota opening.drives.items }
    {
        let Opening { cpu, quota, drives } = opening;
        let Parts {
            console,
            memory,
            cache,
            rooms,
        } = parts;
        let mut session = Session::new(console, drives);
        session.disks.keep_entries(rooms);
        let runner = Runner {
            cpu,
            session,
            quota,
            count: 0,
            ended: End::Running,
            with_program: false,
            cache,
        };
        Machine { runner, memory }
    }

    /// Loads a program, which the machine then begins.
    fn load(&mut self, program: &[u8])
        requires { self.old.quota ≡ 256 }
        ensures { self.new ≡ program_loaded program.now self.old }
    {
        self.runner.session.regs.pc = PROGRAM;
        self.runner.with_program = true;
        set_run(&mut self.memory, PROGRAM, program);
        set_word(&mut self.memory, STACK, COMMAND_PROCESSOR);
    }

    /// Leaves the tail of a command where the program finds it.
    fn leave_tail(&mut self, tail: &Tail)
        requires { self.old.quota ≡ 256 }
        ensures { self.new ≡ with_tail tail.now self.old }
    {
        leave_tail(&mut self.memory, tail);
    }

    /// Executes one step with this system drive, if one can be made: the session runs, and console and list device have room for 4,096
    /// bytes. Says whether it did.
    pub fn step(&mut self, system: &Image) -> bool
        ensures stepped { result ≡ can_step self.old }
        ensures state { self.new ≡ (if result then step system.now self.old else self.old) }
        ensures bounds { IsStepBounded self.old self.new }
    {
        self.runner.session.numbers_fit();
        self.grant(system, 1).executed == 1
    }

    /// Executes the greatest number of steps, at most `steps`, that can be made with this system drive.
    pub fn grant(&mut self, system: &Image, steps: u64) -> Granted
        ensures executed { result.executed ≡ executed system.now steps self.old }
        ensures why { result.why ≡ why steps result.executed self.new }
        ensures state { self.new ≡ after system.now result.executed self.old }
        ensures within { result.executed ≤ steps }
    {
        steps::grant(system, &mut self.runner, &mut self.memory, steps)
    }

    /// Executes the greatest number of steps, at most `steps`, that can be made with this system drive and of which none but
    /// the first begins in the program at `pc`.
    pub fn grant_until(&mut self, system: &Image, steps: u64, pc: u16) -> Granted
        ensures executed { result.executed ≡ executed_until system.now pc steps self.old }
        ensures why { result.why ≡ why_until pc steps result.executed self.new }
        ensures state { self.new ≡ after system.now result.executed self.old }
        ensures within { result.executed ≤ steps }
    {
        until::grant_until(system, &mut self.runner, &mut self.memory, steps, pc)
    }

    /// Executes the greatest number of steps, at most `steps`, that can be made with this system drive and of which none waits
    /// for a key; says how many.
    pub fn grant_to_wait(&mut self, system: &Image, steps: u64) -> u64
        ensures executed { result ≡ executed_to_wait system.now steps self.old }
        ensures within { result ≤ steps }
        ensures state { self.new ≡ after system.now result self.old }
    {
        to_wait::grant_to_wait(system, &mut self.runner, &mut self.memory, steps)
    }

    /// Presses a key, which the next step can read. Refused, with nothing changed, where 4,096 keys are pending.
    pub fn key(&mut self, key: u8) -> Result<(), KeysFull>
        ensures accepted { IfOk result (λ _. takes_key self.old ≡ true × self.new ≡ keyed key self.old) }
        ensures refused { IfErr result (λ _. takes_key self.old ≡ false × self.new ≡ self.old) }
    {
        if self.runner.session.console.give(key) {
            Ok(())
        } else {
            Err(KeysFull)
        }
    }

    /// Moves out the first console bytes, as many as fit, and says how many.
    pub fn take(&mut self, out: &mut [u8]) -> usize
        ensures count { result ≡ min (length out.old) (length self.old.session.console.screen) }
        ensures bytes { out.new ≡ take result self.old.session.console.screen ++ drop result out.old }
        ensures state { self.new ≡ taken (length out.old) self.old }
    {
        self.runner.session.console.take(out)
    }

    /// Moves out the first list bytes, as many as fit, and says how many.
    pub fn take_list(&mut self, out: &mut [u8]) -> usize
        ensures count { result ≡ min (length out.old) (length self.old.session.console.printer) }
        ensures bytes { out.new ≡ take result self.old.session.console.printer ++ drop result out.old }
        ensures state { self.new ≡ taken_list (length out.old) self.old }
    {
        self.runner.session.console.take_list(out)
    }

    /// What is seen of the machine.
    pub fn look(&self) -> Look
        ensures { result ≡ look_of self.now }
    {
        steps::look_of(&self.runner, &self.memory)
    }

    /// The memory's byte at an address.
    pub fn peek(&self, address: u16) -> u8
        ensures { result ≡ byte_at self.now.memory address }
    {
        self.memory.get(address)
    }

    /// Its processor.
    pub fn cpu(&self) -> Cpu
        ensures { result ≡ self.now.cpu }
    {
        self.runner.cpu
    }

    /// How many pages it may write, 256 for all.
    pub fn quota(&self) -> u16
        ensures { result ≡ self.now.quota }
    {
        self.runner.quota
    }

    /// Whether it was made with a program.
    pub fn has_program(&self) -> bool
        ensures { result ≡ self.now.with_program }
    {
        self.runner.with_program
    }

    /// The bytes of the machine, with the digest of its system drive; refused if out of memory. What is restored of them is the machine.
    pub fn save(&self, alloc: Global, digest: &SystemDigest) -> Result<Vec<u8>, AllocError>
        ensures saved { IfOk result (λ bytes. bytes.items ≡ bytes_of_saving (saving_with digest.now self.now)) }
        ensures restores { IfOk result (λ bytes. restored bytes.items ≡ Ok (saving_with digest.now self.now)) }
    {
        saving::save(alloc, digest, &self.runner, &self.memory)
    }

    /// The machine of the bytes of a saving, with the digest of its system drive. It is refused with the part that makes the bytes no
    /// saving, and the place where that begins; then if out of memory.
    pub fn restored(alloc: Global, bytes: &[u8]) -> Result<(SystemDigest, Machine), RestoreError>
        ensures read { IfOk result (λ r. restored bytes.now ≡ Ok (saving_with r.0 r.1)) }
        ensures refused { IfErr result (λ fault. IsUnrestored (restored bytes.now) fault) }
    {
        let (digest, runner, memory) = saving::restored(alloc, bytes)?;
        Ok((digest, Machine { runner, memory }))
    }

    /// What is left of the machine. Bytes not taken are dropped.
    pub fn finish(self) -> Closed
        ensures look { result.look ≡ look_of self }
        ensures drives { result.drives ≡ images_of self.session.disks }
    {
        let look = self.look();
        let Machine { runner, .. } = self;
        let Runner { session, .. } = runner;
        let Session { disks, .. } = session;
        let drives = disks.into_images();
        Closed { look, drives }
    }
}

/// What a machine of this opening takes memory for: its console, its memory, its decoded instructions, and the entries of its drives.
fn allocate(alloc: Global, opening: &Opening) -> Result<Parts, AllocError>
    requires { opening.now.quota ≤ 256 }
    ensures { IfOk result (AreNew opening.now.quota) }
{
    Ok(Parts {
        console: Console::new(alloc)?,
        memory: FlatMemory::with_limit(alloc, opening.quota)?,
        cache: DecodeCache::new(alloc)?,
        rooms: EntryRooms::new(alloc, opening.drives.len())?,
    })
}
