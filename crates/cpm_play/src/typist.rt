//! Who types at a machine that is played live, and what is heard of it.

ghost use Rattle.std.specs.Prelude.{◌≡◌, ◌<◌, ◌≤◌, false, true, IfOk, None, OnErr};
ghost use Rattle.cpm_play.specs.Typist.{CanBeHeard, HasAttended, HasHeardNothing, IsHeard, IsHeardPatiently, TypingState, is_over, wants_key};
ghost use Rattle.cpm_play.specs.Wanting.{longest_turn};
ghost use Rattle.cpm_play.specs.declared.typist.KeyNeed.TheVariants.{Wanted};

use crate::typing::next_key;
use std::io;
use std::io::Read;

/// What a machine can do with a key.
#[derive(Clone, Copy, Drop)]
pub enum KeyNeed {
    /// One is pending. No other is pressed before it is read.
    Pending,
    /// It takes one.
    Possible,
    /// It takes one, and does nothing else before: it waits for it, or asks again and again whether there is one.
    Wanted,
}

impl KeyNeed {
    /// Whether a key is wanted.
    pub fn wants_key(self) -> bool
        ensures { result ≡ wants_key self }
    {
        match self {
            KeyNeed::Wanted => true,
            _ => false,
        }
    }
}

/// Why no more is typed.
#[derive(Clone, Copy, PartialEq, Eq, Drop)]
pub enum TypingEnd {
    /// ^] was typed.
    Quit,
    /// The input is at its end.
    InputEnd,
    /// A signal came that ends it.
    Signal,
}

/// What is heard of a typist that is asked for a key.
#[derive(Clone, Copy, Drop)]
pub enum Heard {
    /// This key, which is below 80h.
    Key(u8),
    /// None was typed so far.
    Nothing,
    /// No more is typed.
    End(TypingEnd),
}

/// Who types at a machine. It is asked after each turn of the machine whether there is a key.
pub trait Typist {
    // Whether it is patient, what is still to be read of what was typed, and what was heard so far, as far as that is known; and whether it has broken in.
    ghost typing: { Self → TypingState };

    /// Whether it waits for a key where one is wanted, and gives none elsewhere. One that doesn't answers at once, also that there is none so far.
    fn is_patient(&self) -> bool
        ensures { result ≡ (typing self.now).is_patient };

    /// How many steps a turn has at most, after which it is asked again. A patient one cuts no turn short.
    fn most_steps(&self) -> u64
        ensures some { 0 < result }
        ensures patient { (typing self.now).is_patient ≡ true → longest_turn ≤ result };

    /// Looks whether it breaks in on a script that is played before, where the machine has executed so many steps.
    fn look_in(&mut self, count: u64)
        ensures { HasAttended (typing self.old) (typing self.new) };

    /// Whether it has broken in on a script: that isn't played on. A patient one never does.
    fn has_broken_in(&self) -> bool
        ensures { result ≡ is_over (typing self.now) };

    /// What it types where the machine can do so much with a key and has executed so many steps. A byte of 80h or more is no key and is passed over.
    fn hear(&mut self, need: KeyNeed, count: u64) -> io::Result<Heard>
        ensures heard { IfOk result (IsHeard count (typing self.old) (typing self.new)) }
        ensures fits { IfOk result (CanBeHeard need) }
        ensures patient { (typing self.old).is_patient ≡ true → IfOk result (IsHeardPatiently need) }
        ensures nature { (typing self.new).is_patient ≡ (typing self.old).is_patient }
        ensures none { OnErr result (HasHeardNothing (typing self.old) (typing self.new)) }
        ensures early { (typing self.old).is_patient ≡ true → OnErr result (need ≡ Wanted) };
}

/// Keys that are read where a machine wants one, by a read that waits for it. So by the same bytes they come at the same counts each time.
#[derive(Drop)]
pub struct KeyReader<I: Read> {
    input: I,
}

impl<I: Read> KeyReader<I> {
    /// The keys of an input.
    pub fn new(input: I) -> KeyReader<I>
        ensures { result.input ≡ input }
    {
        KeyReader { input }
    }

    /// The input, with what was not read.
    pub fn into_input(self) -> I
        ensures { result ≡ self.input }
    {
        self.input
    }
}

impl<I: Read> Typist for KeyReader<I> {
    ghost typing = { λ reader. record { is_patient = true; unread = I.remaining reader.input; heard = None; has_broken_in = false } };

    fn is_patient(&self) -> bool {
        true
    }

    fn most_steps(&self) -> u64 {
        u64::MAX
    }

    fn look_in(&mut self, _count: u64) {}

    fn has_broken_in(&self) -> bool {
        false
    }

    fn hear(&mut self, need: KeyNeed, _count: u64) -> io::Result<Heard> {
        match need {
            KeyNeed::Wanted => next_key(&mut self.input),
            _ => Ok(Heard::Nothing),
        }
    }
}
