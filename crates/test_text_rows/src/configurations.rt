//! Configurations: what is read of them, and why others are refused.

use crate::sessions::{shown_config, shown_refusal};
use cpm_config::{Config, ConfigError, Origin, SessionConfig, place_of};
use std::alloc::{AllocError, Global};
use test_language::{RowAnswer, RowFault, RowLine, Scene, Word, count, number};

/// The most copies of a text that are added.
const MOST_COPIES: usize = 100;

/// The text of a configuration, what was read of it last, and what was said of the last refusal.
#[derive(Drop)]
pub struct Configurations {
    text: Vec<u8>,
    config: Option<Config>,
    told: String,
}

impl Scene for Configurations {
    fn new(alloc: Global) -> Result<Configurations, AllocError> {
        Ok(Configurations {
            text: Vec::new(alloc),
            config: None,
            told: String::new(alloc),
        })
    }

    fn is_alone(verb: &str) -> bool {
        matches!(
            verb,
            "change" | "changed" | "copies" | "prefixes" | "read" | "sessions" | "told"
        )
    }

    fn takes_text(verb: &str) -> bool {
        matches!(verb, "text" | "add" | "change" | "changed" | "copies")
    }

    fn act(&mut self, alloc: Global, line: &RowLine<'_>) -> Result<RowAnswer, RowFault> {
        match line.verb() {
            "text" => self.take_text(alloc, line),
            "add" => self.add(alloc, line),
            "change" => self.change(alloc, line.text.as_str()),
            "changed" => self.read_changed(alloc, line.text.as_str()),
            "copies" => self.add_copies(alloc, line.text.as_str()),
            "prefixes" => self.read_prefixes(alloc),
            "read" => self.read(alloc),
            "sessions" => self.count_sessions(alloc),
            "fork" => self.fork(alloc, line.arguments()),
            "rename" => self.rename(alloc, line.arguments()),
            "place" => self.place(alloc, line.arguments()),
            "told" => RowAnswer::words(alloc, self.told.as_str()),
            _ => Err(RowFault::Unknown),
        }
    }
}

impl Configurations {
    /// `text TEXT`: what is read.
    fn take_text(&mut self, alloc: Global, line: &RowLine<'_>) -> Result<RowAnswer, RowFault> {
        self.text = line.given(alloc, line.arguments())?;
        Ok(RowAnswer::Done)
    }

    /// `add TEXT`: adds it to the text.
    fn add(&mut self, alloc: Global, line: &RowLine<'_>) -> Result<RowAnswer, RowFault> {
        let more = line.given(alloc, line.arguments())?;
        self.text.extend_from_slice(more.as_slice())?;
        Ok(RowAnswer::Done)
    }

    /// `change`, with a change between marks: the text is changed so.
    fn change(&mut self, alloc: Global, change: &str) -> Result<RowAnswer, RowFault> {
        self.text = changed(alloc, self.text.as_slice(), change)?;
        Ok(RowAnswer::Done)
    }

    /// `read`: what the text says.
    fn read(&mut self, alloc: Global) -> Result<RowAnswer, RowFault> {
        match Config::read(alloc, self.text.as_slice()) {
            Ok(config) => {
                let answer = shown_config(alloc, &config)?;
                self.config = Some(config);
                Ok(answer)
            }
            Err(error) => self.refused(alloc, error),
        }
    }

    /// `sessions`: how many sessions the text has.
    fn count_sessions(&mut self, alloc: Global) -> Result<RowAnswer, RowFault> {
        match Config::read(alloc, self.text.as_slice()) {
            Ok(config) => RowAnswer::words(alloc, config.sessions.len()),
            Err(error) => self.refused(alloc, error),
        }
    }

    /// `changed`, with a change between marks: `taken` where the text is read with it. The text stays as it is.
    fn read_changed(&mut self, alloc: Global, change: &str) -> Result<RowAnswer, RowFault> {
        let text = changed(alloc, self.text.as_slice(), change)?;
        match Config::read(alloc, text.as_slice()) {
            Ok(_) => RowAnswer::words(alloc, "taken"),
            Err(error) => self.refused(alloc, error),
        }
    }

    /// `copies`, with a text between marks: adds copies of it, with their numbers in place of `%`, until the whole is refused.
    fn add_copies(&mut self, alloc: Global, copy: &str) -> Result<RowAnswer, RowFault> {
        for number in 1..=MOST_COPIES {
            add_copy(alloc, &mut self.text, copy, number)?;
            if let Err(error) = Config::read(alloc, self.text.as_slice()) {
                return shown_copies(alloc, number.saturating_sub(1), error);
            }
        }
        RowAnswer::words(alloc, "all taken")
    }

    /// `prefixes`: the fewest and the most sessions of the beginnings of the text that are read; the others are refused, and not
    /// because of memory.
    fn read_prefixes(&self, alloc: Global) -> Result<RowAnswer, RowFault> {
        let (mut least, mut most, mut others) = (usize::MAX, 0, "");
        let bytes = self.text.as_slice();
        for end in 0..=bytes.len() {
            match sessions_in(alloc, &bytes[..end])? {
                Some(count) => {
                    least = least.min(count);
                    most = most.max(count);
                }
                None => others = " or refused",
            }
        }
        Ok(RowAnswer::Words(format!(in alloc; "{least} to {most} sessions{others}")?))
    }

    /// `fork SESSION PARENT AT STEPS`: the session of this number, from 1, is forked so, and the place at which a fork of the
    /// configuration breaks a rule then, or `none`.
    fn fork(&mut self, alloc: Global, arguments: &[Word<'_>]) -> Result<RowAnswer, RowFault> {
        let [place, parent, at, steps] = arguments else {
            return Err(RowFault::Words);
        };
        let (at, steps) = (number(*at)?, number(*steps)?);
        let session = self.session(*place)?;
        let parent = String::from_str(alloc, parent.text)?;
        session.origin = Origin::Forked { parent, at };
        session.steps = steps;
        self.shown_fork_fault(alloc)
    }

    /// The place at which a fork breaks a rule, or `none`.
    fn shown_fork_fault(&self, alloc: Global) -> Result<RowAnswer, RowFault> {
        let Some(config) = &self.config else {
            return Err(RowFault::Absent);
        };
        match config.fork_fault() {
            Some(place) => RowAnswer::words(alloc, place),
            None => RowAnswer::words(alloc, "none"),
        }
    }

    /// `rename SESSION NAME`: the session of this number, from 1, has another name.
    fn rename(&mut self, alloc: Global, arguments: &[Word<'_>]) -> Result<RowAnswer, RowFault> {
        let [place, name] = arguments else {
            return Err(RowFault::Words);
        };
        let name = String::from_str(alloc, name.text)?;
        self.session(*place)?.name = name;
        Ok(RowAnswer::Done)
    }

    /// `place NAME`: the place of a session, from 0, or `none`. Before anything was read there are no sessions.
    fn place(&self, alloc: Global, arguments: &[Word<'_>]) -> Result<RowAnswer, RowFault> {
        let [name] = arguments else {
            return Err(RowFault::Words);
        };
        let sessions = match &self.config {
            Some(config) => config.sessions.as_slice(),
            None => &[],
        };
        match place_of(sessions, name.text) {
            Some(place) => RowAnswer::words(alloc, place),
            None => RowAnswer::words(alloc, "none"),
        }
    }

    /// The session of this number, from 1, of what was read last.
    fn session(&mut self, word: Word<'_>) -> Result<&mut SessionConfig, RowFault> {
        let place = count(word)?.saturating_sub(1);
        let Some(config) = &mut self.config else {
            return Err(RowFault::Absent);
        };
        config.sessions.get_mut(place).ok_or(RowFault::Absent)
    }

    /// A refusal by its kind and its place.
    fn refused(&mut self, alloc: Global, error: ConfigError) -> Result<RowAnswer, RowFault> {
        self.told = error.to_string(alloc)?;
        Ok(RowAnswer::Refused(shown_refusal(alloc, error)?))
    }
}

/// So many copies of a text that were taken, and why the next one was refused.
fn shown_copies(alloc: Global, taken: usize, error: ConfigError) -> Result<RowAnswer, RowFault> {
    let refusal = shown_refusal(alloc, error)?;
    Ok(RowAnswer::Words(format!(in alloc; "{taken} taken, then {refusal}")?))
}

/// How many sessions a text has, if it is read. That memory is refused is no answer.
fn sessions_in(alloc: Global, text: &[u8]) -> Result<Option<usize>, RowFault> {
    match Config::read(alloc, text) {
        Ok(config) => Ok(Some(config.sessions.len())),
        Err(ConfigError::OutOfMemory) => Err(RowFault::OutOfMemory),
        Err(_) => Ok(None),
    }
}

/// A text with a change: in place of its lines that begin with `-` stand those that begin with `+`.
fn changed(alloc: Global, text: &[u8], change: &str) -> Result<Vec<u8>, RowFault> {
    let (mut old, mut new) = (String::new(alloc), String::new(alloc));
    add_change(&mut old, &mut new, change)?;
    replaced(alloc, text, old.as_str(), new.as_str())
}

/// Adds the lines of a change to those that go and to those that come.
fn add_change(old: &mut String, new: &mut String, change: &str) -> Result<(), RowFault> {
    for line in change.lines() {
        match (line.strip_prefix('-'), line.strip_prefix('+')) {
            (Some(line), _) => add_line(old, line)?,
            (None, Some(line)) => add_line(new, line)?,
            (None, None) => return Err(RowFault::Words),
        }
    }
    Ok(())
}

/// A text with other lines in place of some.
fn replaced(alloc: Global, text: &[u8], old: &str, new: &str) -> Result<Vec<u8>, RowFault> {
    let Ok(text) = str::from_utf8(text) else {
        return Err(RowFault::Unready);
    };
    let Some((front, back)) = text.split_once(old) else {
        return Err(RowFault::Absent);
    };
    Ok(joined(alloc, &[front, new, back])?)
}

/// Texts one after the other.
fn joined(alloc: Global, texts: &[&str]) -> Result<Vec<u8>, AllocError> {
    let mut whole = Vec::new(alloc);
    for text in texts {
        whole.extend_from_slice(text.as_bytes())?;
    }
    Ok(whole)
}

/// Adds a line with its end.
fn add_line(out: &mut String, line: &str) -> Result<(), AllocError> {
    out.push_str(line)?;
    out.push('\n')
}

/// Adds a text with a number in place of each `%`.
fn add_copy(alloc: Global, out: &mut Vec<u8>, copy: &str, number: usize) -> Result<(), RowFault> {
    let digits = format!(in alloc; "{number}")?;
    Ok(add_replaced(out, copy, digits.as_str())?)
}

/// Adds a text with another one in place of each `%`.
fn add_replaced(out: &mut Vec<u8>, copy: &str, digits: &str) -> Result<(), AllocError> {
    let mut is_first = true;
    for part in copy.split('%') {
        if !is_first {
            out.extend_from_slice(digits.as_bytes())?;
        }
        out.extend_from_slice(part.as_bytes())?;
        is_first = false;
    }
    Ok(())
}
