//! What is asked of a slot, and what it replies.

use arrayvec::ArrayVec;
use cpm_machine::{Granted, Look, SavingDamage};
use thiserror::Error;

/// The number of an opening, from 0. It never comes again.
#[derive(Clone, Copy, Debug, PartialEq, Eq, Drop)]
pub struct SlotId(pub u64);

/// What is asked of a slot.
#[derive(Clone, Copy, Debug, PartialEq, Eq, Drop)]
pub enum Request {
    /// Press a key.
    Key(u8),
    /// Execute at most so many steps.
    Grant(u64),
    /// Execute at most so many steps, of which none but the first begins in the program at an address.
    GrantUntil { steps: u64, pc: u16 },
    /// Give up to 128 console bytes.
    Take,
    /// Give up to 128 list bytes.
    TakeList,
    /// Say what is seen of the session.
    Look,
    /// Give the memory's byte at an address.
    Peek(u16),
    /// Close the slot, and drop what is left of it.
    Close,
}

/// A request, and the slot that it names.
#[derive(Clone, Copy, Debug, PartialEq, Eq, Drop)]
pub struct Event {
    pub slot: SlotId,
    pub request: Request,
}

/// What is replied to a request.
#[derive(Drop)]
pub enum Reply {
    /// The key was accepted, or the slot was closed.
    Done,
    Granted(Granted),
    /// The first bytes, up to 128.
    Bytes(ArrayVec<u8, 128>),
    Looked(Look),
    Peeked(u8),
    /// Nothing was changed.
    Refused(Refusal),
}

/// Why a request is refused.
#[derive(Clone, Copy, Debug, PartialEq, Eq, Drop, Error)]
pub enum Refusal {
    /// No slot of that number is open.
    #[error("no slot of that number is open")]
    NoSuchSlot,
    /// 4,096 keys are pending.
    #[error("4096 keys are pending")]
    KeysFull,
}

/// Why a slot is not forked.
#[derive(Clone, Copy, Debug, PartialEq, Eq, Drop, Error)]
pub enum ForkError {
    /// No slot of that number is open.
    #[error("no slot of that number is open")]
    NoSuchSlot,
    /// 64 slots are open, or no number is left.
    #[error("no slot is free")]
    NoSlot,
    /// The quotas of all open slots and of one more exceed the frames.
    #[error("the quotas exceed the frames")]
    NoFrames,
    #[error("out of memory")]
    OutOfMemory,
}

/// Why a slot is not saved.
#[derive(Clone, Copy, Debug, PartialEq, Eq, Drop, Error)]
pub enum SaveError {
    /// No slot of that number is open.
    #[error("no slot of that number is open")]
    NoSuchSlot,
    #[error("out of memory")]
    OutOfMemory,
}

/// Why no slot is opened that goes on from a saving.
#[derive(Clone, Copy, Debug, PartialEq, Eq, Drop, Error)]
pub enum HostRestoreError {
    /// The bytes are no saving.
    #[error("the bytes are no saving")]
    Damaged(SavingDamage),
    /// It was saved over another system drive.
    #[error("it was saved over another system drive")]
    OtherSystem,
    /// 64 slots are open, or no number is left.
    #[error("no slot is free")]
    NoSlot,
    /// The quotas of all open slots and of this one exceed the frames.
    #[error("the quotas exceed the frames")]
    NoFrames,
    #[error("out of memory")]
    OutOfMemory,
}
