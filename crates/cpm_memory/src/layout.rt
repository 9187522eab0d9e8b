//! Where the system lies in the memory of a session, as `specs/Layout.antt` has it.

/// The I/O byte.
pub const IO_BYTE: u16 = 0x0003;

/// The current drive in the low four bits, and the user in the high four.
pub const USER_AND_DRIVE: u16 = 0x0004;

/// The first of the two default file control blocks.
pub const DEFAULT_FCBS: u16 = 0x005C;

/// The buffer of a record, unless a program moves it.
pub const DEFAULT_BUFFER: u16 = 0x0080;

/// Where a program is loaded and begins.
pub const PROGRAM: u16 = 0x0100;

/// Where the command processor is entered.
pub const COMMAND_PROCESSOR: u16 = 0xE406;

/// Where the last word of a program's stack lies.
pub const STACK: u16 = 0xEBFE;

/// Where the BDOS is entered.
pub const BDOS: u16 = 0xEC06;

/// Where the first call of the BIOS is entered, and each other by its number after it.
pub const FIRST_BIOS: u16 = 0xFB00;

/// Where CONIN is entered.
pub const CONSOLE_INPUT: u16 = 0xFB03;

/// Where the last call of the BIOS is entered.
pub const LAST_BIOS: u16 = 0xFB10;

/// The sector translation vector.
pub const SKEW: u16 = 0xFC00;

/// The disk parameter blocks, of 16 bytes each.
pub const FIRST_PARAMETER_BLOCK: u16 = 0xFC20;

/// The disk parameter headers, 32 bytes for each drive.
pub const FIRST_HEADER: u16 = 0xFC40;

/// The directory's buffer.
pub const DIRECTORY_BUFFER: u16 = 0xFD00;

/// The allocation vectors, of 64 bytes each.
pub const FIRST_ALLOCATION_VECTOR: u16 = 0xFE00;

/// The check vectors, of 16 bytes each.
pub const FIRST_CHECK_VECTOR: u16 = 0xFF40;

/// The jump at 0000h to the warm boot.
pub const WARM_BOOT_JUMP: [u8; 3] = [0xC3, 0x03, 0xFA];

/// The jump at 0005h to the BDOS.
pub const BDOS_JUMP: [u8; 3] = [0xC3, 0x06, 0xEC];
