//! When a machine that is played live wants a key.

ghost use Rattle.std.specs.Prelude.{◌≡◌, ◌<◌, ◌≤◌, ◌||◌};
ghost use Rattle.cpm_play.specs.Wanting.{first_watch, is_poll, longest_turn, most_watched, need_of, watch_after, watch_called, watch_given, watch_passed};
ghost use Rattle.cpm_play.specs.Wanting.{watch_uncalled, watched_address};

use crate::machine::QUANTUM;
use crate::typist::KeyNeed;
use cpm_flags::Regs;
use cpm_machine::{Look, Why};
use cpm_memory::layout::{BDOS, FIRST_BIOS};

/// Where CONST is entered, the BIOS's call 2.
const CONSOLE_STATUS: u16 = FIRST_BIOS + 2;

/// The BDOS's direct console.
const DIRECT_CONSOLE: u8 = 6;

/// Its least parameter that asks for a key, or whether there is one. The others show a byte.
const ASKS: u8 = 0xFE;

/// The BDOS's console status.
const STATUS: u8 = 11;

/// How many polls in a row want a key.
const POLLS: u32 = 64;

/// How many the first turn has, and the first after a key: at the prompt, a turn ends for no wait, and the next key comes behind it.
const FIRST_QUANTUM: u64 = 100;

/// The most after a poll of CONST: so long the calls of the BDOS are watched, of which one may come between two polls.
const PAUSE: u64 = 10_000;

/// Whether a call of the BDOS with these registers asks whether a key is there.
fn is_poll(regs: &Regs) -> bool
    ensures { result ≡ is_poll regs.now }
{
    regs.c == STATUS || (regs.c == DIRECT_CONSOLE && regs.e >= ASKS)
}

/// What a machine did of late, as far as it says whether it polls: again and again asks whether a key is there, and does nothing else.
///
/// The calls of the BDOS and of CONST are watched by turns, since a turn stops at one address alone.
#[derive(Clone, Copy, Drop)]
pub(crate) struct Watch {
    /// How many polls came in a row.
    polls: u32,
    /// Whether the next turn stops before CONST, and not before the BDOS.
    at_status: bool,
    /// Whether the next turn is the one after a poll of CONST.
    is_pause: bool,
    /// How many steps the next turn has at most where it isn't.
    quantum: u64,
}

impl Watch {
    /// Before the first turn.
    pub(crate) fn new() -> Watch
        ensures { result ≡ first_watch }
    {
        Watch {
            polls: 0,
            at_status: false,
            is_pause: false,
            quantum: FIRST_QUANTUM,
        }
    }

    /// Before which address the next turn stops.
    pub(crate) fn address(&self) -> u16
        ensures { result ≡ watched_address self.now }
    {
        if self.at_status { CONSOLE_STATUS } else { BDOS }
    }

    /// How many steps the next turn has at most.
    pub(crate) fn most(&self) -> u64
        ensures most { result ≡ most_watched self.now }
        ensures some { 0 < result }
        ensures few { result ≤ longest_turn }
    {
        if self.is_pause {
            PAUSE
        } else {
            self.quantum.max(FIRST_QUANTUM).min(QUANTUM)
        }
    }

    /// What the machine, of which this is seen, can do with a key. It wants one where it waits for it, or polls, and none is pending.
    pub(crate) fn need(&self, look: &Look) -> KeyNeed
        ensures { result ≡ need_of self.now look.now }
    {
        if look.keys != 0 {
            KeyNeed::Pending
        } else if look.waiting || self.polls >= POLLS {
            KeyNeed::Wanted
        } else {
            KeyNeed::Possible
        }
    }

    /// Sees what a turn left, before its text is taken, and why it ended.
    pub(crate) fn see(&mut self, look: &Look, why: Why)
        ensures { self.new ≡ watch_after self.old look.now why }
    {
        if look.console > 0 {
            self.polls = 0;
        }
        match why {
            Why::Break => self.see_call(look),
            _ => self.see_none(),
        }
    }

    /// Sees the call before which a turn stopped.
    fn see_call(&mut self, look: &Look)
        ensures { self.new ≡ watch_called (self.old.at_status || is_poll look.now.regs) self.old }
    {
        self.is_pause = self.at_status;
        if self.is_pause || is_poll(&look.regs) {
            self.polls = self.polls.saturating_add(1);
        } else {
            self.polls = 0;
        }
        self.at_status = false;
    }

    /// Sees that a turn stopped before no call, where calls are not watched.
    pub(crate) fn pass(&mut self)
        ensures { self.new ≡ watch_passed self.old }
    {
        self.polls = 0;
        self.quantum = self.quantum.saturating_mul(2);
    }

    /// Sees that a turn stopped before no call.
    fn see_none(&mut self)
        ensures { self.new ≡ watch_uncalled self.old }
    {
        self.is_pause = false;
        self.quantum = self.quantum.saturating_mul(2);
        self.at_status = !self.at_status;
    }

    /// A key was given.
    pub(crate) fn give(&mut self)
        ensures { self.new ≡ watch_given self.old }
    {
        self.polls = 0;
        self.quantum = FIRST_QUANTUM;
    }
}
