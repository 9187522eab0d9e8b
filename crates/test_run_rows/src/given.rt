//! What lines give to the commands.

use crate::programs::Programs;
use cpm_flags::Cpu;
use cpm_geom::Image;
use cpm_host::tail_of;
use std::alloc::Global;
use test_images::Images;
use test_language::{RowAnswer, RowFault, RowLine, Word, bytes_of, count, number};

/// The bytes that words stand for, or the text after the line, or with `image NAME` the bytes of an image.
pub(crate) fn bytes_given(
    alloc: Global,
    images: &Images,
    line: &RowLine<'_>,
    words: &[Word<'_>],
) -> Result<Vec<u8>, RowFault> {
    match words {
        [kind, name] if kind.text == "image" && !kind.is_quoted => {
            Ok(images.copy(alloc, name.text)?.into_bytes())
        }
        _ => line.given(alloc, words),
    }
}

/// The processor of this name.
pub(crate) fn cpu_of(arguments: &[Word<'_>]) -> Result<Cpu, RowFault> {
    match arguments {
        [word] if word.text == "8080" => Ok(Cpu::I8080),
        [word] if word.text == "z80" => Ok(Cpu::Z80),
        _ => Err(RowFault::Words),
    }
}

/// The one word, which is a decimal number.
pub(crate) fn count_of(arguments: &[Word<'_>]) -> Result<usize, RowFault> {
    match arguments {
        [word] => count(*word),
        _ => Err(RowFault::Words),
    }
}

/// The text that a word in quotes stands for.
fn text_of(alloc: Global, word: Word<'_>) -> Result<String, RowFault> {
    let bytes = bytes_of(alloc, [word].as_slice())?;
    match String::from_utf8(bytes) {
        Ok(text) => Ok(text),
        Err(_) => Err(RowFault::Bytes),
    }
}

impl Programs {
    /// `system IMAGE`: a copy of the image of this name.
    pub(crate) fn system_image(
        &self,
        alloc: Global,
        arguments: &[Word<'_>],
    ) -> Result<Image, RowFault> {
        match arguments {
            [name] => self.images.copy(alloc, name.text),
            _ => Err(RowFault::Words),
        }
    }

    /// `listing BYTES`: the listing of the program. Without bytes: what it is.
    pub(crate) fn listing(
        &mut self,
        alloc: Global,
        line: &RowLine<'_>,
    ) -> Result<RowAnswer, RowFault> {
        let arguments = line.arguments();
        if line.asks(arguments)? {
            return RowAnswer::bytes(alloc, self.listing.as_slice());
        }
        self.listing = line.given(alloc, arguments)?;
        Ok(RowAnswer::Done)
    }

    /// `steps N`: at most so many steps are made. Without a number: how many the last program took.
    pub(crate) fn steps(
        &mut self,
        alloc: Global,
        arguments: &[Word<'_>],
    ) -> Result<RowAnswer, RowFault> {
        match arguments {
            [] => RowAnswer::words(alloc, self.played()?.steps),
            [word] => {
                self.steps = number(*word)?;
                Ok(RowAnswer::Done)
            }
            _ => Err(RowFault::Words),
        }
    }

    /// `tail "WORD" ..`: the words after the program's name. Its text.
    pub(crate) fn tail(
        &mut self,
        alloc: Global,
        arguments: &[Word<'_>],
    ) -> Result<RowAnswer, RowFault> {
        let mut texts = Vec::new(alloc);
        for word in arguments {
            texts.push(text_of(alloc, *word)?)?;
        }
        let mut words = Vec::new(alloc);
        for text in &texts {
            words.push(text.as_str())?;
        }
        match tail_of(alloc, words.as_slice()) {
            Ok(tail) => {
                let answer = RowAnswer::bytes(alloc, tail.text())?;
                self.tail = Some(tail);
                Ok(answer)
            }
            Err(error) => self.refuse(alloc, error),
        }
    }
}
