//! What a reply says of what the library answers.
ghost use Rattle.std.specs.Prelude.{◌≡◌};
ghost use Rattle.cpm_serve.specs.Seen.{end_seen, fork_refusal, look_seen, open_refusal, pair_word, save_refusal, stop_seen};

use cpm_flags::{Cpu, pack};
use cpm_machine::{End, Look, OpenError, Why};
use cpm_protocol::{GrantStop, SessionLook, WireEnd, WireRefusal};
use cpm_slots::{ForkError, SaveError};

/// Why a grant ended.
pub(crate) fn stop_seen(why: Why) -> GrantStop
    ensures { result ≡ stop_seen why }
{
    match why {
        Why::All => GrantStop::All,
        Why::Stopped => GrantStop::Stopped,
        Why::Break => GrantStop::Break,
        Why::Blocked => GrantStop::Blocked,
    }
}

/// How a session ended.
pub(crate) fn end_seen(end: End) -> WireEnd
    ensures { result ≡ end_seen end }
{
    match end {
        End::Running => WireEnd::Running,
        End::Halted => WireEnd::Halted,
        End::Illegal => WireEnd::Illegal,
        End::Quota => WireEnd::Quota,
        End::CountEnd => WireEnd::CountEnd,
        End::Exited => WireEnd::Exited,
    }
}

/// A pair of registers as a word.
fn pair_word(high: u8, low: u8) -> u16
    ensures { result ≡ pair_word high low }
{
    256 * u16::from(high) + u16::from(low)
}

/// What is seen of a session of this processor. The alternate registers are the Z80's.
pub(crate) fn look_seen(cpu: Cpu, look: &Look) -> SessionLook
    ensures { result ≡ look_seen cpu look.now }
{
    let regs = &look.regs;
    let other = &regs.alternate;
    SessionLook {
        af: pair_word(regs.a, pack(cpu, regs.flags)),
        bc: pair_word(regs.b, regs.c),
        de: pair_word(regs.d, regs.e),
        hl: pair_word(regs.h, regs.l),
        ix: regs.ix,
        iy: regs.iy,
        sp: regs.sp,
        pc: regs.pc,
        alternate_af: pair_word(other.a, pack(Cpu::Z80, other.flags)),
        alternate_bc: pair_word(other.b, other.c),
        alternate_de: pair_word(other.d, other.e),
        alternate_hl: pair_word(other.h, other.l),
        interrupt_page: regs.interrupt_page,
        refresh: regs.refresh,
        iff1: regs.iff1,
        iff2: regs.iff2,
        count: look.count,
        end: end_seen(look.ended),
        pages: look.pages,
        waiting: look.waiting,
        keys: look.keys as u64,
        console: look.console as u64,
        list: look.list as u64,
    }
}

/// Why no session is opened. None of the wire has a program.
pub(crate) fn open_refusal(error: OpenError) -> WireRefusal
    ensures { result ≡ open_refusal error }
{
    match error {
        OpenError::BadQuota | OpenError::ProgramTooLong => WireRefusal::BadQuota,
        OpenError::BadDrives => WireRefusal::BadDrives,
        OpenError::NoSlot => WireRefusal::NoSlot,
        OpenError::NoFrames => WireRefusal::NoFrames,
        OpenError::OutOfMemory => WireRefusal::OutOfMemory,
    }
}

/// Why a session is not forked.
pub(crate) fn fork_refusal(error: ForkError) -> WireRefusal
    ensures { result ≡ fork_refusal error }
{
    match error {
        ForkError::NoSuchSlot => WireRefusal::NoSuchSlot,
        ForkError::NoSlot => WireRefusal::NoSlot,
        ForkError::NoFrames => WireRefusal::NoFrames,
        ForkError::OutOfMemory => WireRefusal::OutOfMemory,
    }
}

/// Why a session is not saved.
pub(crate) fn save_refusal(error: SaveError) -> WireRefusal
    ensures { result ≡ save_refusal error }
{
    match error {
        SaveError::NoSuchSlot => WireRefusal::NoSuchSlot,
        SaveError::OutOfMemory => WireRefusal::OutOfMemory,
    }
}
