//! The result of the last command.

use crate::programs::Programs;
use cpm_geom::Image;
use cpm_host::{PlayEnd, ProgramPlay, TypingEnd};
use std::alloc::Global;
use test_language::{RowAnswer, RowFault, RowLine, Word, count};

/// The word for why no more was typed.
pub(crate) fn typing_word(end: TypingEnd) -> &'static str {
    match end {
        TypingEnd::Quit => "quit",
        TypingEnd::InputEnd => "input-end",
        TypingEnd::Signal => "signal",
    }
}

impl Programs {
    /// Does a line that asks for the result of the last command.
    pub(crate) fn look(&self, alloc: Global, line: &RowLine<'_>) -> Result<RowAnswer, RowFault> {
        let arguments = line.arguments();
        match line.verb() {
            "shown" => self.shown(alloc, arguments),
            "status" => RowAnswer::words(alloc, self.status),
            "illegal" => self.illegal(alloc),
            "at-pc" => RowAnswer::bytes(alloc, self.played()?.ending.at_pc.as_slice()),
            "pressed" => self.pressed(alloc, arguments),
            "ended" => RowAnswer::name(alloc, self.played()?.ending.ended),
            "live-end" => self.live_end(alloc),
            "early" => RowAnswer::truth(alloc, self.played()?.steps < self.steps),
            _ => RowAnswer::truth(alloc, self.played()?.waits),
        }
    }

    /// What the last program came to.
    pub(crate) fn played(&self) -> Result<&ProgramPlay, RowFault> {
        match &self.played {
            Some(typed) => Ok(typed),
            None => Err(RowFault::Absent),
        }
    }

    /// `shown`: what the command wrote. `shown N`: the last N bytes of it.
    fn shown(&self, alloc: Global, arguments: &[Word<'_>]) -> Result<RowAnswer, RowFault> {
        let bytes = self.out.bytes.as_slice();
        match arguments {
            [] => RowAnswer::bytes(alloc, bytes),
            [last] => {
                let first = bytes.len().saturating_sub(count(*last)?);
                RowAnswer::bytes(alloc, &bytes[first..])
            }
            _ => Err(RowFault::Words),
        }
    }

    /// `illegal`: the bytes that are no instruction where the program ended at such, or `none`.
    fn illegal(&self, alloc: Global) -> Result<RowAnswer, RowFault> {
        match self.played()?.ending.illegal() {
            Some(bytes) => RowAnswer::words(alloc, bytes),
            None => RowAnswer::words(alloc, "none"),
        }
    }

    /// `live-end`: why the last program ended at which one typed.
    fn live_end(&self, alloc: Global) -> Result<RowAnswer, RowFault> {
        let Some(end) = self.played()?.end else {
            return Err(RowFault::Absent);
        };
        let word = match end {
            PlayEnd::Steps => "steps",
            PlayEnd::Ended => "ended",
            PlayEnd::Typing(end) => typing_word(end),
        };
        RowAnswer::words(alloc, word)
    }

    /// `pressed`: the keys that were pressed. `pressed N`: at which count the Nth was.
    fn pressed(&self, alloc: Global, arguments: &[Word<'_>]) -> Result<RowAnswer, RowFault> {
        let keys = self.played()?.keys.as_slice();
        match arguments {
            [] => {
                let mut bytes = Vec::new(alloc);
                for key in keys {
                    bytes.push(key.byte)?;
                }
                Ok(RowAnswer::Bytes(bytes))
            }
            [place] => match keys.get(count(*place)?.saturating_sub(1)) {
                Some(key) => RowAnswer::words(alloc, key.count),
                None => Err(RowFault::Absent),
            },
            _ => Err(RowFault::Words),
        }
    }

    /// `left NAME DRIVE`: the image of this name is what the program left in the drive, A to D. Whether there was one.
    pub(crate) fn left(
        &mut self,
        alloc: Global,
        arguments: &[Word<'_>],
    ) -> Result<RowAnswer, RowFault> {
        let [name, drive] = arguments else {
            return Err(RowFault::Words);
        };
        let Some(image) = self.drive(drive.text)? else {
            return RowAnswer::truth(alloc, false);
        };
        let image = image.copy(alloc)?;
        self.images.put(alloc, name.text, image)?;
        RowAnswer::truth(alloc, true)
    }

    /// A drive as the program left it.
    fn drive(&self, letter: &str) -> Result<Option<&Image>, RowFault> {
        let [a, b, c, d] = &self.played()?.drives;
        let drive = match letter {
            "A" => a,
            "B" => b,
            "C" => c,
            "D" => d,
            _ => return Err(RowFault::Words),
        };
        Ok(drive.as_ref())
    }
}
