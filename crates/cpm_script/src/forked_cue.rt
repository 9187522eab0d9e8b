//! What the own script of a forked session says, where some of its lines wait.
ghost use Rattle.std.specs.Prelude.{◌≡◌, ◌≤◌, IsErrOf, true};
ghost use Rattle.std.specs.Str.Lines.{lines};
ghost use Rattle.cpm_script.specs.Cues.{ReadsCues, has_cue};
ghost use Rattle.cpm_script.specs.Fork.{cue_fault, forked_cues, line_cues, word_cues};
ghost use Rattle.cpm_script.specs.Script.{most_keys};

use crate::count::count_of;
use crate::cue::{Cue, is_expect, is_wait_word, quoted, read_cues};
use crate::fault::{LineFault, ScriptError};
use crate::fork::room_left;
use crate::keys::count_keys;
use crate::lines::first_line;
use crate::script::{MOST_KEYS, is_blank, is_comment, parted};
use std::alloc::Global;

/// The count of a line that begins with this word, or that of the fork where the line waits, and how many keys
/// stand after it, where it has both.
fn word_cues(at: u64, word: &[u8], text: &[u8]) -> Option<(u64, usize)>
    ensures { result ≡ word_cues at word.now text.now }
{
    if is_wait_word(word) {
        Some(at).zip(count_keys(text))
    } else if is_expect(word) {
        let (_, keys) = quoted(text)?;
        Some(at).zip(count_keys(keys))
    } else {
        count_of(word).zip(count_keys(text))
    }
}

/// The same of a whole line.
fn line_cues(at: u64, line: &[u8]) -> Option<(u64, usize)>
    ensures { result ≡ line_cues at line.now }
{
    if is_blank(line) || is_comment(line) {
        return None;
    }
    let (word, text) = parted(line);
    word_cues(at, word, text)
}

/// The first line with a count before the fork, or with more keys than there is room for.
fn cue_fault(text: &[u8], at: u64, mut room: usize) -> Option<(u64, LineFault)>
    ensures { result ≡ cue_fault at room 1 (lines text.now) }
{
    let mut rest = text;
    let mut number: u64 = 0;
    while !rest.is_empty() {
        let (line, after) = first_line(rest);
        number += 1;
        match room_left(line_cues(at, line), at, room) {
            Ok(left) => room = left,
            Err(fault) => return Some((number, fault)),
        }
        rest = after;
    }
    None
}

/// What the own script of a session says that is forked at a count of steps, where its parent had so many keys
/// before.
///
/// The whole script is judged first, as `read_cues` does. Then `Line` names the first line with a count before
/// the fork (`BeforeFork`), or with which there are more than 4,096 keys in all (`TooManyForked`).
/// `OutOfMemory` comes only where memory is refused.
pub fn read_forked_cues(
    alloc: Global,
    text: &[u8],
    at: u64,
    before: usize,
) -> Result<Vec<Cue>, ScriptError>
    requires { before ≤ most_keys }
    ensures read { ReadsCues result (forked_cues at before text.now) }
    // It is out of memory only where a line has a count or waits.
    ensures memory { IsErrOf result ScriptError.OutOfMemory → has_cue (lines text.now) ≡ true }
{
    let cues = read_cues(alloc, text)?;
    match cue_fault(text, at, MOST_KEYS - before) {
        Some((number, fault)) => Err(ScriptError::Line { number, fault }),
        None => Ok(cues),
    }
}
