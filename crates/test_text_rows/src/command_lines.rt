//! Command lines: the tasks that they name, or their refusals.

use crate::tasks::shown_task;
use cpm_command_line::{Task, VERSION, asks_version, command};
use std::alloc::{AllocError, Global};
use test_language::{RowAnswer, RowFault, RowLine, Scene, Word, bytes_of};

/// Rows of command lines work on nothing that is kept.
#[derive(Drop)]
pub struct CommandLines;

impl Scene for CommandLines {
    fn new(_alloc: Global) -> Result<CommandLines, AllocError> {
        Ok(CommandLines)
    }

    fn is_alone(_verb: &str) -> bool {
        false
    }

    fn takes_text(_verb: &str) -> bool {
        false
    }

    fn act(&mut self, alloc: Global, line: &RowLine<'_>) -> Result<RowAnswer, RowFault> {
        match line.verb() {
            "cpmhost" => asked(alloc, line.verb(), line.words.as_slice()),
            "line" | "help" | "version" => asked(alloc, line.verb(), line.arguments()),
            _ => Err(RowFault::Unknown),
        }
    }
}

/// `cpmhost WORDS`, `help WORDS` or another verb with words: what they ask for.
fn asked(alloc: Global, verb: &str, words: &[Word<'_>]) -> Result<RowAnswer, RowFault> {
    let texts = texts_of(alloc, words)?;
    let words = borrowed(alloc, texts.as_slice())?;
    match verb {
        "help" => help_of(alloc, words.as_slice()),
        "version" => version_of(alloc, words.as_slice()),
        _ => task_of(alloc, words.as_slice()),
    }
}

/// `cpmhost WORDS`, and `line WORDS` with another name of the program or without one: the task, or what is said of the words.
fn task_of(alloc: Global, words: &[&str]) -> Result<RowAnswer, RowFault> {
    match command(alloc, words) {
        Ok(task) => Ok(RowAnswer::Words(shown_task(alloc, &task)?)),
        Err(error) => RowAnswer::refused_text(alloc, error),
    }
}

/// `help WORDS`: the page of the help that the words ask for.
fn help_of(alloc: Global, words: &[&str]) -> Result<RowAnswer, RowFault> {
    match command(alloc, words) {
        Ok(Task::Help(page)) => RowAnswer::name(alloc, page),
        _ => RowAnswer::truth(alloc, false),
    }
}

/// `version WORDS`: the version, where the words ask for it.
fn version_of(alloc: Global, words: &[&str]) -> Result<RowAnswer, RowFault> {
    if asks_version(words) {
        RowAnswer::bytes(alloc, VERSION.as_bytes())
    } else {
        RowAnswer::truth(alloc, false)
    }
}

/// The texts that words stand for: as they are, or in quotes with escapes.
fn texts_of(alloc: Global, words: &[Word<'_>]) -> Result<Vec<String>, RowFault> {
    let mut texts = Vec::new(alloc);
    for word in words {
        texts.push(text_of(alloc, *word)?)?;
    }
    Ok(texts)
}

/// The text that a word stands for.
fn text_of(alloc: Global, word: Word<'_>) -> Result<String, RowFault> {
    if !word.is_quoted {
        return Ok(String::from_str(alloc, word.text)?);
    }
    match String::from_utf8(bytes_of(alloc, &[word])?) {
        Ok(text) => Ok(text),
        Err(_) => Err(RowFault::Bytes),
    }
}

/// The same texts, borrowed.
fn borrowed(alloc: Global, texts: &[String]) -> Result<Vec<&str>, RowFault> {
    let mut words = Vec::new(alloc);
    for text in texts {
        words.push(text.as_str())?;
    }
    Ok(words)
}
