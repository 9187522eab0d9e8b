//! The steps of a session: calls of the BDOS and the BIOS, and parts of the command processor.

use crate::session::{BACK, Caller};
use crate::text::{add_quoted, small, taken, takes_all};
use cpm_bdos::{Mode, Went};
use cpm_ccp::{ccp_step, load_step};
use cpm_flags::Regs;
use cpm_memory::has_room;
use cpm_volume::Fault as DiskFault;
use std::alloc::{AllocError, Global};
use test_language::{RowAnswer, RowFault, Word, address, bytes_of};

/// Where the command processor is called.
const PROMPT: u16 = 0xE406;

/// Where the functions of the BIOS begin.
const BIOS: u16 = 0xFB00;

/// The stack once a call returned, or the session was booted.
const RETURNED: u16 = 0xEBFE;

/// The most steps that keys at a prompt may take.
const MOST_STEPS: u32 = 10_000;

/// The fault of this name.
fn fault_of(name: &str) -> Option<DiskFault> {
    match name {
        "BadSector" => Some(DiskFault::BadSector),
        "Select" => Some(DiskFault::Select),
        "FileReadOnly" => Some(DiskFault::FileReadOnly),
        "ReadOnly" => Some(DiskFault::ReadOnly),
        _ => None,
    }
}

impl Caller {
    /// One step of the BDOS.
    fn step(&mut self) -> Result<Went, RowFault> {
        if !self.session.console.has_room() || !has_room(&self.memory) {
            return Err(RowFault::Unready);
        }
        Ok(self.session.bdos_step(&mut self.memory, &self.system))
    }

    /// One step of a function of the BIOS.
    fn bios_step(&mut self, function: u8) -> Result<Went, RowFault> {
        if !self.session.console.has_room() || !has_room(&self.memory) {
            return Err(RowFault::Unready);
        }
        Ok(
            self.session
                .bios_step(&mut self.memory, &self.system, function),
        )
    }

    /// One step of the command processor, or of a call that it has in progress.
    fn command_step(&mut self) -> Result<Went, RowFault> {
        if !self.session.console.has_room() || !has_room(&self.memory) {
            return Err(RowFault::Unready);
        }
        Ok(match self.session.mode {
            Mode::Program | Mode::Command(_) => {
                ccp_step(&mut self.session, &mut self.memory, &self.system)
            }
            _ => self.session.bdos_step(&mut self.memory, &self.system),
        })
    }

    /// `load`: one step of the loader.
    pub fn load(&mut self, alloc: Global) -> Result<RowAnswer, RowFault> {
        if !self.session.console.has_room() || !has_room(&self.memory) {
            return Err(RowFault::Unready);
        }
        RowAnswer::name(
            alloc,
            load_step(&mut self.session, &mut self.memory, &self.system),
        )
    }

    /// What the call gave, if it returned as calls do: HL, with L in A and H in B.
    fn result(&self) -> Option<u16> {
        let regs = &self.session.regs;
        let is_back = regs.pc == BACK && regs.sp == RETURNED;
        if is_back && regs.a == regs.l && regs.b == regs.h && self.session.mode == Mode::Program {
            Some(256 * u16::from(regs.h) + u16::from(regs.l))
        } else {
            None
        }
    }

    /// `returned`: what the call gave that returned.
    pub fn returned(&self, alloc: Global) -> Result<RowAnswer, RowFault> {
        match self.result() {
            Some(result) => RowAnswer::address(alloc, result),
            None => RowAnswer::refused_text(alloc, "not returned"),
        }
    }

    /// Whether the session was booted anew.
    pub fn is_booted(&self) -> bool {
        let regs = &self.session.regs;
        regs.pc == PROMPT
            && regs.sp == RETURNED
            && self.session.mode == Mode::Program
            && !self.session.console.list_echo()
    }

    /// `bdos FUNCTION HHHH`: calls a function of one step, and answers what it gave. A fault shows its message, which is the refusal,
    /// and boots by a key.
    pub fn bdos(&mut self, alloc: Global, arguments: &[Word<'_>]) -> Result<RowAnswer, RowFault> {
        self.call(arguments)?;
        match self.step()? {
            Went::Returned => self.returned(alloc),
            Went::GoesOn if self.session.mode == Mode::Fault => self.boot_by_key(alloc),
            went => RowAnswer::refused(alloc, went),
        }
    }

    /// The message of a fault, which a key then ends.
    fn boot_by_key(&mut self, alloc: Global) -> Result<RowAnswer, RowFault> {
        let mut message = self.take_quoted(alloc)?;
        if !self.boots_by_key()? {
            message.push_str(" and no boot")?;
        }
        Ok(RowAnswer::Refused(message))
    }

    /// What the console shows, which is taken, between quotes.
    fn take_quoted(&mut self, alloc: Global) -> Result<String, AllocError> {
        let shown = taken(alloc, &mut self.session.console)?;
        let mut message = String::new(alloc);
        add_quoted(alloc, &mut message, shown.as_slice())?;
        Ok(message)
    }

    /// Presses a key. Whether the next step boots.
    fn boots_by_key(&mut self) -> Result<bool, RowFault> {
        if !self.session.console.give(b' ') {
            return Err(RowFault::Unready);
        }
        Ok(self.step()? == Went::Reboot && self.is_booted())
    }

    /// `step`: one step of the BDOS.
    pub fn next_step(&mut self, alloc: Global) -> Result<RowAnswer, RowFault> {
        RowAnswer::name(alloc, self.step()?)
    }

    /// `bios FUNCTION BC DE`: calls a function of the BIOS, and answers A and HL; or how it went on. No other register may change
    /// but PC and SP.
    pub fn bios(&mut self, alloc: Global, arguments: &[Word<'_>]) -> Result<RowAnswer, RowFault> {
        let [function, words @ ..] = arguments else {
            return Err(RowFault::Words);
        };
        let function = small(*function)?;
        self.come(BIOS + u16::from(function))?;
        self.put_pairs(words)?;
        let before = self.session.regs;
        let went = self.bios_step(function)?;
        if !self.keeps_others(&before, went) {
            return RowAnswer::refused_text(alloc, "other registers changed");
        }
        match went {
            Went::Returned => Ok(RowAnswer::Words(self.bios_words(alloc)?)),
            _ => RowAnswer::name(alloc, went),
        }
    }

    /// Whether a function of the BIOS that went so left all registers as they were but those of its result, and the mode.
    fn keeps_others(&self, before: &Regs, went: Went) -> bool {
        let after = &self.session.regs;
        let mut kept = *before;
        if went == Went::Returned {
            kept.pc = BACK;
            kept.sp = RETURNED;
            kept.a = after.a;
            kept.h = after.h;
            kept.l = after.l;
        }
        went == Went::Reboot || (*after == kept && self.session.mode == Mode::Program)
    }

    /// A and HL.
    fn bios_words(&self, alloc: Global) -> Result<String, AllocError> {
        let Regs { a, h, l, .. } = self.session.regs;
        let hl = 256 * u16::from(h) + u16::from(l);
        format!(in alloc; "{a:02X} {hl:04X}")
    }

    /// Puts words into BC and DE.
    fn put_pairs(&mut self, words: &[Word<'_>]) -> Result<(), RowFault> {
        let regs = &mut self.session.regs;
        let (first, second) = match words {
            [] => return Ok(()),
            [first] => (address(*first)?, None),
            [first, second] => (address(*first)?, Some(address(*second)?)),
            _ => return Err(RowFault::Words),
        };
        regs.b = (first >> 8) as u8;
        regs.c = (first & 0xff) as u8;
        if let Some(second) = second {
            regs.d = (second >> 8) as u8;
            regs.e = (second & 0xff) as u8;
        }
        Ok(())
    }

    /// `commands`: one step of the command processor, or of a call that it has in progress.
    pub fn commands(&mut self, alloc: Global) -> Result<RowAnswer, RowFault> {
        RowAnswer::name(alloc, self.command_step()?)
    }

    /// `type BYTES`: presses keys, and answers the number of steps until a program runs or a key is waited for.
    pub fn type_keys(
        &mut self,
        alloc: Global,
        arguments: &[Word<'_>],
    ) -> Result<RowAnswer, RowFault> {
        let keys = bytes_of(alloc, arguments)?;
        if !takes_all(&mut self.session.console, keys.as_slice()) {
            return RowAnswer::refused_text(alloc, "KeysFull");
        }
        self.run_prompt(alloc)
    }

    /// Makes steps until a program runs or a key is waited for, and answers their number.
    fn run_prompt(&mut self, alloc: Global) -> Result<RowAnswer, RowFault> {
        match self.steps_to_wait()? {
            Some(steps) => RowAnswer::words(alloc, steps),
            None => RowAnswer::refused_text(alloc, "no end"),
        }
    }

    /// The number of these steps, unless there are too many.
    fn steps_to_wait(&mut self) -> Result<Option<u32>, RowFault> {
        for steps in 0..MOST_STEPS {
            if self.is_in_program() || self.command_step()? == Went::Waits {
                return Ok(Some(steps));
            }
        }
        Ok(None)
    }

    /// Whether a program runs.
    fn is_in_program(&self) -> bool {
        self.session.mode == Mode::Program && self.session.regs.pc != PROMPT
    }

    /// `fault NAME DRIVE`: comes into a fault on a drive, 0 for A.
    pub fn fault(&mut self, alloc: Global, arguments: &[Word<'_>]) -> Result<RowAnswer, RowFault> {
        let [name, drive] = arguments else {
            return Err(RowFault::Words);
        };
        let Some(fault) = fault_of(name.text) else {
            return Err(RowFault::Words);
        };
        let drive = small(*drive)?;
        if !self.session.console.has_room() {
            return Err(RowFault::Unready);
        }
        RowAnswer::name(alloc, self.session.fault(fault, drive))
    }
}
