//! Names of files and patterns as a person writes them.

use crate::folders::folder;
use cpm_disk_commands::{base_name, name_of, pattern_of, split_pair, text_of_name};
use std::alloc::Global;
use std::fmt::Display;
use test_language::{RowAnswer, RowFault, RowLine, Word, bytes_of};

/// Does a line about names: `name`, `pattern`, `pair`, `folder`, `text BYTES`, the name on the host of a file with this name, or
/// `none`, or `last PATH`, the last name of a path; any other is `Unknown`.
pub fn act_on_names(alloc: Global, line: &RowLine<'_>) -> Result<RowAnswer, RowFault> {
    let arguments = line.arguments();
    match line.verb() {
        "name" => name(alloc, arguments),
        "pattern" => pattern(alloc, arguments),
        "text" => shown_text(alloc, text_of_name(&characters(alloc, arguments)?)),
        "pair" => pair(alloc, arguments),
        "last" => RowAnswer::name(alloc, base_name(only(arguments)?.text)),
        "folder" => folder(alloc, arguments),
        _ => Err(RowFault::Unknown),
    }
}

/// The text that a word stands for: as it is, or in quotes with escapes.
pub fn text_of(alloc: Global, word: Word<'_>) -> Result<String, RowFault> {
    let bytes = if word.is_quoted {
        bytes_of(alloc, &[word])?
    } else {
        Vec::from_slice(alloc, word.text.as_bytes())?
    };
    String::from_utf8(bytes).map_err(|_| RowFault::Bytes)
}

/// The eleven characters of a name that words stand for.
pub fn characters(alloc: Global, words: &[Word<'_>]) -> Result<[u8; 11], RowFault> {
    let bytes = bytes_of(alloc, words)?;
    <[u8; 11]>::try_from(bytes.as_slice()).map_err(|_| RowFault::Bytes)
}

/// The one word after a first one.
pub fn only<'a>(arguments: &[Word<'a>]) -> Result<Word<'a>, RowFault> {
    match arguments {
        [word] => Ok(*word),
        _ => Err(RowFault::Words),
    }
}

/// The name of a file on the host, or `none`.
pub fn shown_text(alloc: Global, text: Option<impl Display + Drop>) -> Result<RowAnswer, RowFault> {
    match text {
        Some(text) => RowAnswer::words(alloc, text),
        None => RowAnswer::words(alloc, "none"),
    }
}

/// Eleven characters, or `none`.
fn shown_name(alloc: Global, name: Option<[u8; 11]>) -> Result<RowAnswer, RowFault> {
    match name {
        Some(name) => RowAnswer::bytes(alloc, &name),
        None => RowAnswer::words(alloc, "none"),
    }
}

/// `name TEXT`: the name of a file that a text spells, or `none`.
fn name(alloc: Global, arguments: &[Word<'_>]) -> Result<RowAnswer, RowFault> {
    let text = text_of(alloc, only(arguments)?)?;
    shown_name(alloc, name_of(text.as_str()))
}

/// `pattern TEXT`: the pattern that a text spells, or `none`.
fn pattern(alloc: Global, arguments: &[Word<'_>]) -> Result<RowAnswer, RowFault> {
    let text = text_of(alloc, only(arguments)?)?;
    shown_name(alloc, pattern_of(text.as_str()))
}

/// `pair TEXT`: what stands before the first `=` and after it, or `none`.
fn pair(alloc: Global, arguments: &[Word<'_>]) -> Result<RowAnswer, RowFault> {
    match split_pair(only(arguments)?.text) {
        Some((before, behind)) => RowAnswer::words(alloc, format_args!("{before:?} {behind:?}")),
        None => RowAnswer::words(alloc, "none"),
    }
}
