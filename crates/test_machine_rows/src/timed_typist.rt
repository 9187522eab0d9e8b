//! One who types at given counts of steps, and never waits: so each timing can be played without a clock.

ghost use Rattle.std.specs.Prelude.{◌≡◌, ◌≢◌, ◌==◌, ◌<◌, ◌&&◌, nat_lt, not, None, IfSome, false};
ghost use Rattle.cpm_play.specs.Typing.{end_key};

use cpm_play::{Heard, KeyNeed, TypingEnd, Typist};
use std::alloc::{AllocError, Global};
use std::io;
use test_language::{RowFault, Word, bytes_of, number};

/// How often nothing is heard of it where a machine waits, before it types what it would type at a later count.
const WAITS: u64 = 10;

/// ^], which ends a live session.
const END_KEY: u8 = 0x1D;

/// What it does once so many steps are executed: it types these keys, or types no more.
#[derive(Drop)]
struct TimedHearing {
    count: u64,
    keys: Vec<u8>,
    /// Where it types no more, why.
    end: Option<TypingEnd>,
}

/// Gives a key where the machine takes one, once so many steps are executed; or at the same place, where the machine waits for it and executes none.
#[derive(Drop)]
pub struct TimedTypist {
    hearings: Vec<TimedHearing>,
    /// How many of them are done.
    done: usize,
    /// How many keys of the next one were typed.
    typed: usize,
    /// How often it was asked since the last key where one is wanted.
    waited: u64,
    /// After how many steps it breaks in on a script, if ever.
    breaks_in: Option<u64>,
    has_broken_in: bool,
}

/// Whether a byte is a key, which ^] is not, since it ends a live session.
fn is_key(byte: u8) -> bool
    ensures { result ≡ (nat_lt byte 128 && not (byte == end_key)) }
{
    byte < 0x80 && byte != END_KEY
}

/// The count of a word that is one with a colon.
fn count_text(word: Word<'_>) -> Option<Word<'_>> {
    if word.is_quoted {
        return None;
    }
    let text = word.text.strip_suffix(':')?;
    Some(Word {
        text,
        is_quoted: false,
    })
}

/// Why no more is typed, where a word says so.
fn end_of(word: Word<'_>) -> Option<TypingEnd> {
    match word.text {
        _ if word.is_quoted => None,
        "quit" => Some(TypingEnd::Quit),
        "input-end" => Some(TypingEnd::InputEnd),
        "signal" => Some(TypingEnd::Signal),
        _ => None,
    }
}

impl TimedHearing {
    /// What these words say that comes at a count.
    fn of(alloc: Global, count: u64, words: &[Word<'_>]) -> Result<TimedHearing, RowFault> {
        if let [word] = words
            && let Some(end) = end_of(*word)
        {
            return Ok(TimedHearing {
                count,
                keys: Vec::new(alloc),
                end: Some(end),
            });
        }
        let keys = bytes_of(alloc, words)?;
        if keys.is_empty() || !keys.iter().all(|byte| is_key(*byte)) {
            return Err(RowFault::Bytes);
        }
        Ok(TimedHearing {
            count,
            keys,
            end: None,
        })
    }
}

impl TimedTypist {
    /// One who types `COUNT: BYTES`, or `COUNT: quit`, `COUNT: input-end` or `COUNT: signal`, one after another; and who breaks in on a script after so many
    /// steps, if at all.
    pub fn of(
        alloc: Global,
        words: &[Word<'_>],
        breaks_in: Option<u64>,
    ) -> Result<TimedTypist, RowFault> {
        let mut hearings = Vec::new(alloc);
        for (place, word) in words.iter().enumerate() {
            if let Some(count) = count_text(*word) {
                let own = own_words(alloc, words, place.saturating_add(1))?;
                hearings.push(TimedHearing::of(alloc, number(count)?, own.as_slice())?)?;
            } else if place == 0 {
                return Err(RowFault::Words);
            }
        }
        Ok(TimedTypist {
            hearings,
            done: 0,
            typed: 0,
            waited: 0,
            breaks_in,
            has_broken_in: false,
        })
    }

    /// The keys that were not typed.
    pub fn left(&self, alloc: Global) -> Result<Vec<u8>, AllocError> {
        let mut left = Vec::new(alloc);
        let mut typed = self.typed;
        for hearing in self.hearings.iter().skip(self.done) {
            for key in hearing.keys.iter().skip(typed) {
                left.push(*key)?;
            }
            typed = 0;
        }
        Ok(left)
    }

    /// Whether what comes next comes now. Where a machine waits it has waited for once more.
    fn is_due(&mut self, need: KeyNeed, count: u64) -> bool
        ensures { self.new.has_broken_in ≡ self.old.has_broken_in }
    {
        let Some(next) = self.hearings.get(self.done) else {
            return need.wants_key();
        };
        if next.count <= count {
            return true;
        }
        if need.wants_key() {
            self.waited = self.waited.saturating_add(1);
        }
        need.wants_key() && self.waited > WAITS
    }

    /// Why no more is typed, if that comes next.
    fn end(&self) -> Option<TypingEnd> {
        match self.hearings.get(self.done) {
            Some(next) => next.end,
            None => Some(TypingEnd::InputEnd),
        }
    }

    /// The next key.
    fn key(&mut self) -> Option<u8>
        ensures key { IfSome result (λ byte. (byte < 128) × (byte ≢ end_key)) }
        ensures still { self.new.has_broken_in ≡ self.old.has_broken_in }
    {
        let next = self.hearings.get(self.done)?;
        let byte = *next.keys.get(self.typed)?;
        let count = next.keys.len();
        self.typed = self.typed.saturating_add(1);
        if self.typed >= count {
            self.done = self.done.saturating_add(1);
            self.typed = 0;
        }
        self.waited = 0;
        if is_key(byte) { Some(byte) } else { None }
    }
}

/// The words from a place on, up to the next count.
fn own_words<'a>(
    alloc: Global,
    words: &[Word<'a>],
    place: usize,
) -> Result<Vec<Word<'a>>, AllocError> {
    let mut own = Vec::new(alloc);
    for word in words.iter().skip(place) {
        if count_text(*word).is_some() {
            return Ok(own);
        }
        own.push(*word)?;
    }
    Ok(own)
}

impl Typist for TimedTypist {
    ghost typing = { λ typist. record { is_patient = false; unread = None; heard = None; has_broken_in = typist.has_broken_in } };

    fn is_patient(&self) -> bool {
        false
    }

    fn most_steps(&self) -> u64 {
        u64::MAX
    }

    fn look_in(&mut self, count: u64) {
        if let Some(least) = self.breaks_in
            && least <= count
        {
            self.has_broken_in = true;
        }
    }

    fn has_broken_in(&self) -> bool {
        self.has_broken_in
    }

    fn hear(&mut self, need: KeyNeed, count: u64) -> io::Result<Heard> {
        if !self.is_due(need, count) {
            return Ok(Heard::Nothing);
        }
        if let Some(end) = self.end() {
            return Ok(Heard::End(end));
        }
        match need {
            KeyNeed::Pending => Ok(Heard::Nothing),
            _ => match self.key() {
                Some(byte) => Ok(Heard::Key(byte)),
                None => Ok(Heard::Nothing),
            },
        }
    }
}
