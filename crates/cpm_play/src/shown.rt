//! What a script that may wait keeps of what was shown since the last key.

ghost use Rattle.std.specs.Prelude.{◌≡◌, [], true, false, IfOk};
ghost use Rattle.cpm_play.specs.Shown.{AreNoted, HasGrown, IsKeptOrFound, IsShort, StandsFor, is_found};

use cpm_script::Cue;
use memchr::memmem;
use std::alloc::{AllocError, Global};

/// How many bytes come from one search for the texts to the next.
const BYTES_PER_SEARCH: usize = 65536;

/// What was shown since the last key, as far as a text that is waited for before the next one can still stand in it.
#[derive(Drop)]
pub(crate) struct Shown<'a> {
    /// The script, from the last key on.
    cues: &'a [Cue],
    /// The end of what was shown.
    tail: Vec<u8>,
    /// The length at which its beginning is dropped.
    cut_at: usize,
    /// The texts that stood in it where its beginning was dropped.
    found: Vec<&'a [u8]>,
}

/// Whether a text is one of these.
fn is_found(texts: &[&[u8]], text: &[u8]) -> bool
    ensures { result ≡ is_found text.now texts.now }
{
    texts.iter().any(|found| *found == text)
}

/// Looks for the texts that are waited for before the next key, and notes those that it finds; says how long the longest of the others is.
fn note<'a>(cues: &'a [Cue], tail: &[u8], found: &mut Vec<&'a [u8]>) -> Result<usize, AllocError>
    ensures { IfOk result (λ longest. AreNoted cues.now tail.now longest found.old.items found.new.items) }
{
    let mut longest = 0;
    let mut rest = cues;
    while let Some((cue, after)) = rest.split_first() {
        let Cue::Wait(text) = cue else {
            return Ok(longest);
        };
        let text = text.as_slice();
        if memmem::find(tail, text).is_none() {
            longest = longest.max(text.len());
        } else if !is_found(found.as_slice(), text) {
            found.push(text)?;
        }
        rest = after;
    }
    Ok(longest)
}

impl<'a> Shown<'a> {
    /// Nothing was shown, and the script goes on with these cues.
    pub(crate) fn new(alloc: Global, cues: &'a [Cue]) -> Self
        ensures nothing { StandsFor result [] }
        ensures short { IsShort result }
        ensures cues { result.cues.now ≡ cues.now }
    {
        Shown {
            cues,
            tail: Vec::new(alloc),
            cut_at: BYTES_PER_SEARCH,
            found: Vec::new(alloc),
        }
    }

    /// The same after a key.
    pub(crate) fn restart(&mut self, cues: &'a [Cue])
        ensures nothing { StandsFor self.new [] }
        ensures short { IsShort self.new }
        ensures cues { self.new.cues.now ≡ cues.now }
    {
        self.cues = cues;
        self.tail.clear();
        self.cut_at = BYTES_PER_SEARCH;
        self.found.clear();
    }

    /// More is shown; says whether there was memory for it.
    pub(crate) fn add(&mut self, bytes: &[u8]) -> bool
        ensures grown { result ≡ true → HasGrown self.old self.new bytes.now }
        ensures short { result ≡ true → IsShort self.old → IsShort self.new }
    {
        if self.tail.extend_from_slice(bytes).is_err() {
            return false;
        }
        self.tail.len() < self.cut_at || self.cut()
    }

    /// Drops all but the end in which a text may have begun; says whether there was memory for the texts that were found.
    fn cut(&mut self) -> bool
        ensures grown { result ≡ true → HasGrown self.old self.new [] }
        ensures short { result ≡ true → IsShort self.new }
    {
        let Ok(longest) = note(self.cues, self.tail.as_slice(), &mut self.found) else {
            return false;
        };
        let gone = self.tail.len().saturating_sub(longest.saturating_sub(1));
        drop(self.tail.drain(..gone));
        self.cut_at = self.tail.len().saturating_add(BYTES_PER_SEARCH);
        true
    }

    /// Whether a text stands in what was shown.
    pub(crate) fn has(&self, text: &[u8]) -> bool
        ensures held { result ≡ true → IsKeptOrFound self.now text.now }
        ensures other { result ≡ false → IsKeptOrFound self.now text.now → ⊥ }
    {
        memmem::find(self.tail.as_slice(), text).is_some() || is_found(self.found.as_slice(), text)
    }
}
