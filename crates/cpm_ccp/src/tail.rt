//! The tail of a command, which a program finds when it begins.

ghost use Rattle.std.specs.Prelude.{◌≡◌, ◌<◌, ◌≤◌, MatchOption, length};
ghost use Rattle.cpm_memory.specs.Room.{HasRoom};
ghost use Rattle.cpm_ccp.specs.Loading.{memory_started};

use crate::loading::put_tail;
use arrayvec::ArrayVec;
use cpm_memory::Memory;
use std::marker::Model;

/// The most bytes that the tail of a command may have: it begins at 0081h, and the 0 after it lies below 0100h.
pub const MOST_TAIL: usize = 126;

/// The tail of a command: its line after the first word.
#[derive(Clone, Drop)]
pub struct Tail {
    text: ArrayVec<u8, MOST_TAIL>,
}

impl Model for Tail {
    ghost use Rattle.std.specs.Prelude.{ℕ, List};

    ghost Value = { List ℕ };

    ghost view = { λ t. t.text.items };
}

impl Tail {
    /// The tail of exactly these bytes; none where there are more than 126.
    pub fn new(text: &[u8]) -> Option<Tail>
        ensures { MatchOption result (MOST_TAIL < length text.now) (λ tail. (tail ≡ text.now) × (length text.now ≤ MOST_TAIL)) }
    {
        let text = ArrayVec::try_from(text).ok()?;
        Some(Tail { text })
    }

    /// The bytes of the tail.
    pub fn text(&self) -> &[u8]
        ensures value { result.now ≡ self.now }
        ensures short { length result.now ≤ MOST_TAIL }
    {
        self.text.as_slice()
    }
}

/// Leaves a tail in memory as the command processor does where a program begins: with its length in front at 0080h, its
/// first two names at 005Ch and 006Ch, and at EBFEh the address that the program returns to.
pub fn leave_tail<M: Memory>(memory: &mut M, tail: &Tail)
    requires { HasRoom (M.contents memory.old) }
    ensures contents { M.contents memory.new ≡ memory_started tail.now (M.contents memory.old) }
    ensures leads { M.Leads memory.old memory.new }
{
    put_tail(memory, tail.text());
}
