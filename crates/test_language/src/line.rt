//! A line of a row.

use crate::bytes::bytes_of;
use crate::fault::RowFault;
use crate::scene::Scene;
use crate::word::{Word, words_of};
use std::alloc::{AllocError, Global};

/// What a line must answer.
#[derive(Clone, Copy)]
pub enum Expectation<'a> {
    /// Anything but a refusal.
    Nothing,
    /// These words, or the bytes that they stand for.
    Words(&'a str),
    /// The text between the marks after the line.
    Text,
}

/// A line of a row: its words, and what it must answer.
#[derive(Drop)]
pub struct RowLine<'a> {
    /// Its place in the file, counted from 1.
    pub number: usize,
    /// The words before the equals sign.
    pub words: Vec<Word<'a>>,
    /// What must come.
    pub wanted: Expectation<'a>,
    /// The text between the marks after it, each of its lines with its end.
    pub text: String,
    /// Whether such a text follows.
    pub has_text: bool,
    /// Why it is no line.
    pub fault: Option<RowFault>,
}

/// Why what is wanted can't be compared: nothing stands after the equals sign.
fn fault_of(wanted: Expectation<'_>, has_text: bool) -> Option<RowFault> {
    match wanted {
        Expectation::Words(words) if words.is_empty() => Some(RowFault::NoAnswer),
        Expectation::Text if !has_text => Some(RowFault::NoAnswer),
        _ => None,
    }
}

/// The text of a line without the mark at its end, and whether the mark is there.
fn without_mark(text: &str) -> (&str, bool) {
    match text.strip_suffix(" <<") {
        Some(done) => (done, true),
        None => (text, false),
    }
}

/// What stands before the equals sign, and what is wanted.
fn without_wanted(text: &str) -> (&str, Expectation<'_>) {
    if let Some((done, wanted)) = text.split_once(" = ") {
        return (done, Expectation::Words(wanted));
    }
    match text.strip_suffix(" =") {
        Some(done) => (done, Expectation::Text),
        None => (text, Expectation::Nothing),
    }
}

impl<'a> RowLine<'a> {
    /// The line of this text, whose own text between marks is still to be read.
    pub fn of(alloc: Global, number: usize, text: &'a str) -> RowLine<'a> {
        let (done, has_text) = without_mark(text);
        let (done, wanted) = without_wanted(done);
        let (words, fault) = match words_of(alloc, done) {
            Ok(words) => (words, fault_of(wanted, has_text)),
            Err(fault) => (Vec::new(alloc), Some(fault)),
        };
        RowLine {
            number,
            words,
            wanted,
            text: String::new(alloc),
            has_text,
            fault,
        }
    }

    /// Takes a line of its text.
    pub(crate) fn add_text(&mut self, text: &str) -> Result<(), AllocError> {
        self.text.push_str(text)?;
        self.text.push('\n')
    }

    /// Why it is no line of a scene: it is none at all, has words where there are none, or a text that it doesn't take.
    pub(crate) fn fault_in<S: Scene>(&self) -> Option<RowFault> {
        if self.fault.is_some() {
            return self.fault;
        }
        if S::is_alone(self.verb()) && !self.arguments().is_empty() {
            return Some(RowFault::Words);
        }
        if self.is_given_text() && !S::takes_text(self.verb()) {
            return Some(RowFault::Text);
        }
        None
    }

    /// Whether the text between marks is what it is given, and not what it must answer.
    fn is_given_text(&self) -> bool {
        self.has_text && !matches!(self.wanted, Expectation::Text)
    }

    /// How often it is done: as often as a first word says that is a number and `*`, else once.
    pub fn times(&self) -> u64 {
        match self.words.as_slice() {
            [first, ..] => times_of(*first).unwrap_or(1),
            [] => 1,
        }
    }

    /// The words after such a number.
    fn plain_words(&self) -> &[Word<'a>] {
        match self.words.as_slice() {
            [first, rest @ ..] if times_of(*first).is_some() => rest,
            words => words,
        }
    }

    /// The first word.
    pub fn verb(&self) -> &'a str {
        match self.plain_words() {
            [first, ..] => first.text,
            [] => "",
        }
    }

    /// The words after the first one.
    pub fn arguments(&self) -> &[Word<'a>] {
        match self.plain_words() {
            [_, rest @ ..] => rest,
            [] => &[],
        }
    }

    /// Whether it asks, and gives nothing: neither a text nor one of these words. One that gives nothing and expects nothing has too few words.
    pub fn asks(&self, words: &[Word<'_>]) -> Result<bool, RowFault> {
        if self.is_given_text() || !words.is_empty() {
            return Ok(false);
        }
        match self.wanted {
            Expectation::Nothing => Err(RowFault::Words),
            Expectation::Words(_) | Expectation::Text => Ok(true),
        }
    }

    /// The bytes of what is given: the text between the marks after the line, or those that words of it stand for.
    pub fn given(&self, alloc: Global, words: &[Word<'_>]) -> Result<Vec<u8>, RowFault> {
        if self.is_given_text() {
            if !words.is_empty() {
                return Err(RowFault::Text);
            }
            return Ok(Vec::from_slice(alloc, self.text.as_bytes())?);
        }
        bytes_of(alloc, words)
    }
}

/// How often a line is done at most.
const MOST_TIMES: u64 = 1_000_000;

/// How often a line is done that begins with this word, where it is a number above 0 and `*`.
fn times_of(word: Word<'_>) -> Option<u64> {
    let times = word.text.strip_suffix('*')?.parse::<u64>().ok()?;
    if word.is_quoted || times == 0 || times > MOST_TIMES {
        return None;
    }
    Some(times)
}
