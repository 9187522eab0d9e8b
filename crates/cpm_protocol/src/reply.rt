//! Replies.
use crate::fault::RequestFault;
use crate::word::{GrantStop, WireEnd, WireRefusal};

/// What is seen of a session.
#[derive(Clone, Copy, Drop)]
pub struct SessionLook {
    pub af: u16,
    pub bc: u16,
    pub de: u16,
    pub hl: u16,
    pub ix: u16,
    pub iy: u16,
    pub sp: u16,
    pub pc: u16,
    pub alternate_af: u16,
    pub alternate_bc: u16,
    pub alternate_de: u16,
    pub alternate_hl: u16,
    /// I and R of the Z80.
    pub interrupt_page: u8,
    pub refresh: u8,
    /// The Z80's interrupt enable flip-flops.
    pub iff1: bool,
    pub iff2: bool,
    /// How many steps were executed since the opening.
    pub count: u64,
    pub end: WireEnd,
    /// How many pages of 256 bytes were written.
    pub pages: u16,
    /// Whether a step now would find no key where it needs one.
    pub waiting: bool,
    /// How many keys are pending.
    pub keys: u64,
    /// How many console bytes wait to be taken.
    pub console: u64,
    /// How many list bytes wait to be taken.
    pub list: u64,
}

/// What became of a turn.
#[derive(Clone, Copy, Drop)]
pub struct TurnReply<'a> {
    /// How many keys were accepted.
    pub accepted: u64,
    /// How many steps were executed.
    pub executed: u64,
    pub why: GrantStop,
    /// The console bytes.
    pub text: &'a [u8],
    /// The list bytes.
    pub list: &'a [u8],
    pub waiting: bool,
    pub end: WireEnd,
}

/// A reply to one request.
#[derive(Clone, Copy, Drop)]
pub enum WireReply<'a> {
    /// The number of the slot that was opened, by `open` or `fork`.
    Opened { slot: u64 },
    /// How many keys were accepted.
    Accepted { accepted: u64 },
    /// How many steps were executed.
    Granted { executed: u64, why: GrantStop },
    /// Bytes of a console, a list, a memory or a file.
    Text { bytes: &'a [u8] },
    Looked(SessionLook),
    /// How many bytes a file was given.
    Written { bytes: u64 },
    Turned(TurnReply<'a>),
    /// Nothing was changed.
    Refused(WireRefusal),
    /// The line, or the value, is no request.
    Wrong(RequestFault<'a>),
    /// The line is no JSON from this column on.
    NoJson { at: u64 },
    /// The line has more than 1 MiB.
    TooLong,
}
