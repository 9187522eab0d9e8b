//! The registers of both processors.

/// The processor whose rules hold: the Intel 8080 or the Zilog Z80.
#[derive(Clone, Copy, Debug, PartialEq, Eq)]
pub enum Cpu {
    I8080,
    Z80,
}

/// The flags, in the order of the flag byte from bit 7 down. The 8080 has neither `subtract` nor the two
/// bits without a meaning.
/// Intel 8080 Assembly Language Programming Manual, "Condition Bits";
/// Zilog Z80 CPU User Manual, "Z80 Status Indicator Flags".
#[derive(Clone, Copy, Debug, PartialEq, Eq)]
pub struct Flags {
    pub sign: bool,
    pub zero: bool,
    /// Bit 5 of the Z80's flag byte, which only moves.
    pub bit5: bool,
    /// The carry out of bit 3: AC of the 8080, H of the Z80.
    pub half_carry: bool,
    /// Bit 3 of the Z80's flag byte, which only moves.
    pub bit3: bool,
    /// Even parity; on the Z80 also signed overflow.
    pub parity: bool,
    /// N of the Z80: the last operation was a subtraction.
    pub subtract: bool,
    pub carry: bool,
}

/// The Z80's alternate registers, which EX AF,AF' and EXX exchange.
/// Zilog Z80 CPU User Manual, "CPU Registers".
#[derive(Clone, Copy, Debug, PartialEq, Eq)]
pub struct Alternate {
    pub a: u8,
    pub flags: Flags,
    pub c: u8,
    pub b: u8,
    pub e: u8,
    pub d: u8,
    pub l: u8,
    pub h: u8,
}

/// The registers of a processor. The 8080 uses those down to `pc`. The low byte of a pair lies before the high one, as the machine below has
/// words, so that a pair is loaded and stored in one.
/// Intel 8080 Assembly Language Programming Manual, "Working Registers";
/// Zilog Z80 CPU User Manual, "CPU Registers".
#[derive(Clone, Copy, Debug, PartialEq, Eq)]
pub struct Regs {
    pub a: u8,
    pub flags: Flags,
    pub c: u8,
    pub b: u8,
    pub e: u8,
    pub d: u8,
    pub l: u8,
    pub h: u8,
    pub sp: u16,
    pub pc: u16,
    pub ix: u16,
    pub iy: u16,
    /// I of the Z80.
    pub interrupt_page: u8,
    /// R of the Z80.
    pub refresh: u8,
    pub alternate: Alternate,
    /// The Z80's interrupt enable flip-flops.
    pub iff1: bool,
    pub iff2: bool,
}
