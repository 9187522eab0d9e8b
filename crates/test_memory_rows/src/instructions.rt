//! Rows of single instructions, over a memory by itself.

use crate::memory_lines::bytes_at;
use crate::registers::{pair, register};
use cpm_decode::Ran;
use cpm_execz80::stepz80;
use cpm_flags::{Alternate, Cpu, Flags, Regs, pack, unpack};
use cpm_memory::{FlatMemory, Memory, has_room, set_byte};
use std::alloc::{AllocError, Global};
use test_language::{
    RowAnswer, RowFault, RowLine, Scene, Word, address, byte, bytes_of, memory_length, number,
};

/// No flag set.
const CLEAR: Flags = Flags {
    sign: false,
    zero: false,
    bit5: false,
    half_carry: false,
    bit3: false,
    parity: false,
    subtract: false,
    carry: false,
};

/// The registers at a program's beginning.
const START: Regs = Regs {
    a: 0,
    flags: CLEAR,
    b: 0,
    c: 0,
    d: 0,
    e: 0,
    h: 0,
    l: 0,
    sp: 0xEBFE,
    pc: 0x0100,
    ix: 0,
    iy: 0,
    interrupt_page: 0,
    refresh: 0,
    alternate: Alternate {
        a: 0,
        flags: CLEAR,
        b: 0,
        c: 0,
        d: 0,
        e: 0,
        h: 0,
        l: 0,
    },
    iff1: false,
    iff2: false,
};

/// A memory, the same as it was before the first step, and registers.
#[derive(Drop)]
struct Trial {
    memory: FlatMemory,
    before: FlatMemory,
    regs: Regs,
    ran: Ran,
    steps: u64,
}

/// The program of a row.
#[derive(Drop)]
pub struct Instructions {
    trial: Option<Trial>,
}

impl Scene for Instructions {
    fn new(_alloc: Global) -> Result<Instructions, AllocError> {
        Ok(Instructions { trial: None })
    }

    fn is_alone(verb: &str) -> bool {
        matches!(verb, "unchanged" | "pairs" | "changed" | "pages")
    }

    fn takes_text(_verb: &str) -> bool {
        false
    }

    fn act(&mut self, alloc: Global, line: &RowLine<'_>) -> Result<RowAnswer, RowFault> {
        let arguments = line.arguments();
        if line.verb() == "z80" {
            return self.begin(alloc, arguments);
        }
        let Some(trial) = &mut self.trial else {
            return Err(RowFault::Absent);
        };
        match line.verb() {
            "store" => trial.store(alloc, arguments),
            "set" => trial.set(arguments),
            "run" => trial.run(alloc, arguments),
            verb => trial.look(alloc, verb, arguments),
        }
    }
}

impl Instructions {
    /// `z80 BYTES`.
    fn begin(&mut self, alloc: Global, arguments: &[Word<'_>]) -> Result<RowAnswer, RowFault> {
        let program = bytes_of(alloc, arguments)?;
        self.trial = Some(Trial::of(alloc, program.as_slice())?);
        Ok(RowAnswer::Done)
    }
}

impl Trial {
    /// A program before its first step.
    fn of(alloc: Global, program: &[u8]) -> Result<Trial, AllocError> {
        let mut trial = Trial::new(FlatMemory::new(alloc)?, FlatMemory::new(alloc)?);
        trial.put(0x0100, program);
        Ok(trial)
    }

    /// Two empty memories, before the first step.
    fn new(memory: FlatMemory, before: FlatMemory) -> Trial {
        Trial {
            memory,
            before,
            regs: START,
            ran: Ran::Done,
            steps: 0,
        }
    }

    /// Does a line that leaves the trial as it is.
    fn look(
        &self,
        alloc: Global,
        verb: &str,
        arguments: &[Word<'_>],
    ) -> Result<RowAnswer, RowFault> {
        match verb {
            "register" => self.register(alloc, arguments),
            "unchanged" => RowAnswer::truth(alloc, self.regs == START),
            "peek" => self.peek(alloc, arguments),
            _ => self.look_at_all(alloc, verb),
        }
    }

    /// Does such a line that is a word by itself.
    fn look_at_all(&self, alloc: Global, verb: &str) -> Result<RowAnswer, RowFault> {
        match verb {
            "pairs" => self.pairs(alloc),
            "changed" => self.changed(alloc),
            "pages" => RowAnswer::words(alloc, self.memory.touched()),
            _ => Err(RowFault::Unknown),
        }
    }

    /// Puts bytes from an address on, before the first step.
    fn put(&mut self, at: u16, bytes: &[u8]) {
        let mut at = at;
        for byte in bytes {
            if has_room(&self.memory) && has_room(&self.before) {
                set_byte(&mut self.memory, at, *byte);
                set_byte(&mut self.before, at, *byte);
            }
            at = at.wrapping_add(1);
        }
    }

    /// The same from the address on that a word names.
    fn put_at(&mut self, at: Word<'_>, bytes: &[u8]) -> Result<RowAnswer, RowFault> {
        self.put(address(at)?, bytes);
        Ok(RowAnswer::Done)
    }

    /// `store ADDRESS BYTES`.
    fn store(&mut self, alloc: Global, arguments: &[Word<'_>]) -> Result<RowAnswer, RowFault> {
        let [at, bytes @ ..] = arguments else {
            return Err(RowFault::Words);
        };
        let bytes = bytes_of(alloc, bytes)?;
        self.put_at(*at, bytes.as_slice())
    }

    /// `set F BYTE`, or `set IFF2 yes`.
    fn set(&mut self, arguments: &[Word<'_>]) -> Result<RowAnswer, RowFault> {
        let [name, value] = arguments else {
            return Err(RowFault::Words);
        };
        match name.text {
            "F" => self.set_flags(byte(*value)?),
            "IFF2" => self.regs.iff2 = value.text == "yes",
            _ => return Err(RowFault::Words),
        }
        Ok(RowAnswer::Done)
    }

    /// Sets the flags as F has them.
    fn set_flags(&mut self, byte: u8) {
        self.regs.flags = unpack(Cpu::Z80, self.regs.flags, byte);
    }

    /// `run STEPS`.
    fn run(&mut self, alloc: Global, arguments: &[Word<'_>]) -> Result<RowAnswer, RowFault> {
        let [limit] = arguments else {
            return Err(RowFault::Words);
        };
        self.make_steps(number(*limit)?);
        Ok(RowAnswer::Words(self.course(alloc)?))
    }

    /// Makes so many steps, or as many as the program has.
    fn make_steps(&mut self, limit: u64) {
        for _ in 0..limit {
            if self.ran == Ran::Done && has_room(&self.memory) {
                self.ran = stepz80(&mut self.regs, &mut self.memory);
                self.steps = self.steps.wrapping_add(1);
            }
        }
    }

    /// How many steps were made, and what the last one came to.
    fn course(&self, alloc: Global) -> Result<String, AllocError> {
        let (steps, ran) = (self.steps, self.ran);
        format!(in alloc; "{steps} {ran:?}")
    }

    /// `register NAME`.
    fn register(&self, alloc: Global, arguments: &[Word<'_>]) -> Result<RowAnswer, RowFault> {
        match arguments {
            [name] => register(alloc, &self.regs, *name),
            _ => Err(RowFault::Words),
        }
    }

    /// AF, BC, DE and HL.
    fn pairs(&self, alloc: Global) -> Result<RowAnswer, RowFault> {
        let regs = &self.regs;
        let pairs = [
            pair(regs.a, pack(Cpu::Z80, regs.flags)),
            pair(regs.b, regs.c),
            pair(regs.d, regs.e),
            pair(regs.h, regs.l),
        ];
        Ok(RowAnswer::Words(addresses(alloc, pairs.as_slice())?))
    }

    /// `peek ADDRESS`, or `peek ADDRESS N`.
    fn peek(&self, alloc: Global, arguments: &[Word<'_>]) -> Result<RowAnswer, RowFault> {
        match arguments {
            [at] => bytes_at(alloc, &self.memory, address(*at)?, 1),
            [at, length] => bytes_at(alloc, &self.memory, address(*at)?, memory_length(*length)?),
            _ => Err(RowFault::Words),
        }
    }

    /// The addresses whose bytes are others than before the first step.
    fn changed(&self, alloc: Global) -> Result<RowAnswer, RowFault> {
        let mut changed = String::new(alloc);
        for at in 0..=0xFFFFu16 {
            if self.memory.get(at) != self.before.get(at) {
                add_address(alloc, &mut changed, at)?;
            }
        }
        if changed.is_empty() {
            changed.push_str("none")?;
        }
        Ok(RowAnswer::Words(changed))
    }
}

/// Addresses, or other numbers of 16 bits, in words.
fn addresses(alloc: Global, values: &[u16]) -> Result<String, AllocError> {
    let mut words = String::new(alloc);
    for value in values {
        add_address(alloc, &mut words, *value)?;
    }
    Ok(words)
}

/// Adds an address to a text, apart from one that stands before it.
fn add_address(alloc: Global, out: &mut String, at: u16) -> Result<(), AllocError> {
    if !out.is_empty() {
        out.push(' ')?;
    }
    out.push_str(format!(in alloc; "{at:04X}")?.as_str())
}
