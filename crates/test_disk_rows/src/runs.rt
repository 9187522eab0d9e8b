//! Words of which equal neighbours are written once, as rows write bytes: `2*00 14*Select FF`.

use std::alloc::{AllocError, Global};
use test_language::{RowAnswer, RowFault};

/// The word for whether something is so.
pub(crate) fn yes_or_no(is_so: bool) -> &'static str {
    if is_so { "yes" } else { "no" }
}

/// Words, with how often each stands.
#[derive(Drop)]
pub(crate) struct WordCounts {
    text: String,
    last: String,
    times: usize,
}

impl WordCounts {
    /// No words.
    pub(crate) fn new(alloc: Global) -> WordCounts {
        WordCounts {
            text: String::new(alloc),
            last: String::new(alloc),
            times: 0,
        }
    }

    /// Adds a word.
    pub(crate) fn add(&mut self, alloc: Global, word: &str) -> Result<(), AllocError> {
        if self.times > 0 && word == self.last.as_str() {
            self.times = self.times.saturating_add(1);
            return Ok(());
        }
        self.end_run()?;
        self.last = String::from_str(alloc, word)?;
        self.times = 1;
        Ok(())
    }

    /// Adds a byte: two hexadecimal digits.
    pub(crate) fn add_byte(&mut self, alloc: Global, byte: u8) -> Result<(), AllocError> {
        let word = format!(in alloc; "{byte:02X}")?;
        self.add(alloc, word.as_str())
    }

    /// Writes the word that was added last.
    fn end_run(&mut self) -> Result<(), AllocError> {
        if self.times == 0 {
            return Ok(());
        }
        if !self.text.is_empty() {
            self.text.push(' ')?;
        }
        if self.times > 1 {
            write!(self.text, "{}*", self.times)?;
        }
        self.text.push_str(self.last.as_str())
    }

    /// All words.
    pub(crate) fn into_answer(self) -> Result<RowAnswer, RowFault> {
        let mut runs = self;
        runs.end_run()?;
        let WordCounts { text, .. } = runs;
        Ok(RowAnswer::Words(text))
    }
}
