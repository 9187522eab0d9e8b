//! A session with a memory and a system drive by itself, called by a program or by its user.

use crate::text::small;
use cpm_bdos::Session;
use cpm_console::Console;
use cpm_geom::Image;
use cpm_memory::{FlatMemory, has_room, set_byte, set_word};
use std::alloc::{AllocError, Global};
use test_language::{RowAnswer, RowFault, Word, address, bytes_of};

/// Where the BDOS is called.
const BDOS: u16 = 0xEC06;

/// Where a call returns to.
pub const BACK: u16 = 0x1234;

/// The stack in a call.
const STACK: u16 = 0xEBFC;

/// A session, its memory and its system drive.
#[derive(Drop)]
pub struct Caller {
    pub session: Session,
    pub memory: FlatMemory,
    pub system: Image,
}

impl Caller {
    /// A session with these drives, the first as A, and this system drive.
    pub fn new(alloc: Global, images: Vec<Image>, system: Image) -> Result<Caller, AllocError> {
        let (console, memory) = (Console::new(alloc)?, FlatMemory::new(alloc)?);
        Ok(Caller {
            session: Session::new(console, images),
            memory,
            system,
        })
    }

    /// Puts bytes into memory.
    fn put(&mut self, from: u16, bytes: &[u8]) -> Result<RowAnswer, RowFault> {
        let mut at = from;
        for byte in bytes {
            if !has_room(&self.memory) {
                return Err(RowFault::Unready);
            }
            set_byte(&mut self.memory, at, *byte);
            at = at.wrapping_add(1);
        }
        Ok(RowAnswer::Done)
    }

    /// `store HHHH BYTES`: puts bytes into memory.
    pub fn store(&mut self, alloc: Global, arguments: &[Word<'_>]) -> Result<RowAnswer, RowFault> {
        let [from, bytes @ ..] = arguments else {
            return Err(RowFault::Words);
        };
        let bytes = bytes_of(alloc, bytes)?;
        self.put_at(*from, bytes.as_slice())
    }

    /// Puts bytes into memory, at the address that a word names.
    fn put_at(&mut self, from: Word<'_>, bytes: &[u8]) -> Result<RowAnswer, RowFault> {
        self.put(address(from)?, bytes)
    }

    /// `fcb HHHH DRIVE NAME`: puts a file control block of a drive and a name, which else has zeros.
    pub fn file(&mut self, alloc: Global, arguments: &[Word<'_>]) -> Result<RowAnswer, RowFault> {
        let [from, drive, name @ ..] = arguments else {
            return Err(RowFault::Words);
        };
        let name = bytes_of(alloc, name)?;
        self.put_file(*from, *drive, name.as_slice())
    }

    /// Puts a file control block of a drive and a name.
    fn put_file(
        &mut self,
        from: Word<'_>,
        drive: Word<'_>,
        name: &[u8],
    ) -> Result<RowAnswer, RowFault> {
        if name.len() != 11 {
            return Err(RowFault::Bytes);
        }
        let mut bytes = [0; 36];
        bytes[0] = small(drive)?;
        bytes[1..12].copy_from_slice(name);
        self.put_at(from, &bytes)
    }

    /// Comes to an address as a program does by CALL, with all other registers 55h.
    pub fn come(&mut self, to: u16) -> Result<(), RowFault> {
        if !has_room(&self.memory) {
            return Err(RowFault::Unready);
        }
        set_word(&mut self.memory, STACK, BACK);
        let regs = &mut self.session.regs;
        regs.pc = to;
        regs.sp = STACK;
        regs.a = 0x55;
        regs.b = 0x55;
        regs.c = 0x55;
        regs.d = 0x55;
        regs.e = 0x55;
        regs.h = 0x55;
        regs.l = 0x55;
        Ok(())
    }

    /// `come HHHH`: comes to an address by CALL.
    pub fn come_to(&mut self, arguments: &[Word<'_>]) -> Result<RowAnswer, RowFault> {
        let [to] = arguments else {
            return Err(RowFault::Words);
        };
        self.come(address(*to)?)?;
        Ok(RowAnswer::Done)
    }

    /// `call FUNCTION HHHH`: comes to the BDOS with a function and its parameter.
    pub fn call(&mut self, arguments: &[Word<'_>]) -> Result<RowAnswer, RowFault> {
        let [function, parameter] = arguments else {
            return Err(RowFault::Words);
        };
        let (function, parameter) = (small(*function)?, address(*parameter)?);
        self.come(BDOS)?;
        let regs = &mut self.session.regs;
        regs.c = function;
        regs.d = (parameter >> 8) as u8;
        regs.e = (parameter & 0xff) as u8;
        Ok(RowAnswer::Done)
    }
}
