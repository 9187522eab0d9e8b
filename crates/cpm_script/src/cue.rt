//! Key scripts with lines that wait: which keys come at a count of steps, and which once the session waits.
ghost use Rattle.std.specs.Prelude.{◌≡◌, ◌≤◌, ◌<◌, ◌+◌, ◌++◌, ◌∷◌, [], length, map, IfOk, IfSome, IsErrOf, OnOk, Some, None, is_some, option_map, true};
ghost use Rattle.std.specs.Str.Lines.{lines};
ghost use Rattle.cpm_script.specs.KeyText.{count_of, keys_of};
ghost use Rattle.cpm_script.specs.Cues.{AddsCues, Awaited, IsReading, ReadsCues, all_said, cues, cut_at};
ghost use Rattle.cpm_script.specs.Cues.{has_cue, is_cue, is_expect, is_cue_word, is_wait_word, key_cue, quoted, cue_text};
ghost use Rattle.cpm_script.specs.Cues.{cues_with_awaited, cues_with_counted, cues_with_expected, cues_with_line, cues_with_text, cues_with_word};
ghost use Rattle.cpm_script.specs.Script.{most_keys};

use crate::count::count_of;
use crate::fault::{LineFault, ScriptError};
use crate::keys::{are_keys, count_keys, first_key};
use crate::lines::first_line;
use crate::script::{Key, KeyStop, MOST_KEYS, is_blank, is_comment, parted};
use memchr::memmem;
use std::alloc::{AllocError, Global};

/// What a script says, one after another.
#[derive(Debug, PartialEq, Eq, Drop)]
pub enum Cue {
    /// A key, once so many steps are executed; at once where they already are.
    Key(Key),
    /// What comes next comes when the session waits for a key, and has shown this text since the last key.
    /// The text may be empty.
    Wait(Vec<u8>),
    /// A key at once, after the one before it.
    Press(u8),
}

/// What was read of a script so far.
#[derive(Drop)]
struct ScriptReading {
    cues: Vec<Cue>,
    /// How many keys they have.
    keys: usize,
    /// The count of the last key with one, or 0.
    last: u64,
}

/// A byte as a key, at a count, where there is one, or at once.
fn key_cue(at: Option<u64>, byte: u8) -> Cue
    ensures { cue_text result ≡ key_cue at byte }
{
    match at {
        Some(count) => Cue::Key(Key { count, byte }),
        None => Cue::Press(byte),
    }
}

/// Adds a key.
fn push_key(reading: &mut ScriptReading, at: Option<u64>, byte: u8) -> Result<(), AllocError>
    requires reading { IsReading reading.old }
    requires room { reading.old.keys < most_keys }
    ensures added { OnOk result (all_said reading.new.cues ≡ all_said reading.old.cues ++ key_cue at byte ∷ []) }
    ensures counted { OnOk result (reading.new.keys ≡ reading.old.keys + 1) }
    ensures reading { OnOk result (IsReading reading.new) }
{
    reading.cues.push(key_cue(at, byte))?;
    reading.keys += 1;
    reading.last = at.unwrap_or(reading.last);
    Ok(())
}

/// Adds the keys that a text stands for, for which there is room.
fn push_keys(reading: &mut ScriptReading, at: Option<u64>, text: &[u8]) -> Result<(), AllocError>
    requires reading { IsReading reading.old }
    requires keys { is_some (keys_of text.now) ≡ true }
    requires room { IfSome (keys_of text.now) (λ ks. reading.old.keys + length ks ≤ most_keys) }
    ensures added { OnOk result (option_map (λ ks. all_said reading.old.cues ++ map (key_cue at) ks) (keys_of text.now) ≡ Some (all_said reading.new.cues)) }
    ensures reading { OnOk result (IsReading reading.new) }
{
    let mut rest = text;
    while let Some((byte, after)) = first_key(rest) {
        push_key(reading, at, byte)?;
        rest = after;
    }
    Ok(())
}

/// Adds the keys that a text stands for.
fn add_text(reading: &mut ScriptReading, at: Option<u64>, text: &[u8]) -> Result<(), KeyStop>
    requires { IsReading reading.old }
    ensures added { AddsCues (cues_with_text (all_said reading.old.cues) at text.now) result (all_said reading.new.cues) }
    ensures reading { OnOk result (IsReading reading.new) }
{
    let Some(count) = count_keys(text) else {
        return Err(KeyStop::Fault(LineFault::NotAKey));
    };
    if count == 0 {
        return Err(KeyStop::Fault(LineFault::NoKey));
    }
    if count > MOST_KEYS - reading.keys {
        return Err(KeyStop::Fault(LineFault::TooManyKeys));
    }
    match push_keys(reading, at, text) {
        Ok(()) => Ok(()),
        Err(_) => Err(KeyStop::OutOfMemory),
    }
}

/// Adds the keys of a text at the count that a number writes.
fn add_counted(reading: &mut ScriptReading, number: &[u8], text: &[u8]) -> Result<(), KeyStop>
    requires { IsReading reading.old }
    ensures added { AddsCues (cues_with_counted (all_said reading.old.cues) number.now text.now) result (all_said reading.new.cues) }
    ensures reading { OnOk result (IsReading reading.new) }
    ensures memory { IsErrOf result KeyStop.OutOfMemory → is_some (count_of number.now) ≡ true }
{
    let Some(count) = count_of(number) else {
        return Err(KeyStop::Fault(LineFault::NoCount));
    };
    if reading.last <= count {
        add_text(reading, Some(count), text)
    } else {
        Err(KeyStop::Fault(LineFault::CountFalls))
    }
}

/// The bytes that a text of keys stands for.
fn key_bytes(alloc: Global, text: &[u8]) -> Result<Vec<u8>, AllocError>
    requires { is_some (keys_of text.now) ≡ true }
    ensures { IfOk result (λ v. keys_of text.now ≡ Some v.items) }
{
    let mut bytes = Vec::new(alloc);
    let mut rest = text;
    while let Some((byte, after)) = first_key(rest) {
        bytes.push(byte)?;
        rest = after;
    }
    Ok(bytes)
}

/// Adds that the session waits for a key, and has shown what a text stands for.
fn push_wait(reading: &mut ScriptReading, alloc: Global, shown: &[u8]) -> Result<(), AllocError>
    requires reading { IsReading reading.old }
    requires keys { is_some (keys_of shown.now) ≡ true }
    ensures added { OnOk result (option_map (λ bytes. all_said reading.old.cues ++ Awaited bytes ∷ []) (keys_of shown.now) ≡ Some (all_said reading.new.cues)) }
    ensures reading { OnOk result (IsReading reading.new) }
{
    let bytes = key_bytes(alloc, shown)?;
    reading.cues.push(Cue::Wait(bytes))?;
    Ok(())
}

/// Adds the keys of a text, once the session waits and has shown what another text stands for.
fn add_awaited(
    reading: &mut ScriptReading,
    alloc: Global,
    shown: &[u8],
    text: &[u8],
) -> Result<(), KeyStop>
    requires { IsReading reading.old }
    ensures added { AddsCues (cues_with_awaited (all_said reading.old.cues) shown.now text.now) result (all_said reading.new.cues) }
    ensures reading { OnOk result (IsReading reading.new) }
{
    if !are_keys(shown) {
        return Err(KeyStop::Fault(LineFault::NotAKey));
    }
    match push_wait(reading, alloc, shown) {
        Ok(()) => add_text(reading, None, text),
        Err(_) => Err(KeyStop::OutOfMemory),
    }
}

/// A text before this place, unless it begins there, and after the two bytes that stand there.
fn cut_at(inner: &[u8], place: usize) -> Option<(&[u8], &[u8])>
    requires { place + 2 ≤ length inner.now }
    ensures { option_map (λ p. (p.0.now, p.1.now)) result ≡ cut_at inner.now place }
{
    if place == 0 {
        None
    } else {
        Some((&inner[..place], inner.split_at(place + 2).1))
    }
}

/// The text between a quote in front and the next one with a space after it, and what follows that space.
pub(crate) fn quoted(text: &[u8]) -> Option<(&[u8], &[u8])>
    ensures { option_map (λ p. (p.0.now, p.1.now)) result ≡ quoted text.now }
{
    let (first, inner) = text.split_first()?;
    if *first != b'"' {
        return None;
    }
    let place = memmem::find(inner, b"\" ")?;
    cut_at(inner, place)
}

/// Adds the keys after a text in quotes, once the session waits and has shown that text.
fn add_expected(reading: &mut ScriptReading, alloc: Global, text: &[u8]) -> Result<(), KeyStop>
    requires { IsReading reading.old }
    ensures added { AddsCues (cues_with_expected (all_said reading.old.cues) text.now) result (all_said reading.new.cues) }
    ensures reading { OnOk result (IsReading reading.new) }
{
    match quoted(text) {
        Some((shown, keys)) => add_awaited(reading, alloc, shown, keys),
        None => Err(KeyStop::Fault(LineFault::NoText)),
    }
}

pub(crate) fn is_wait_word(word: &[u8]) -> bool
    ensures { result ≡ is_wait_word word.now }
{
    word == b"wait".as_slice()
}

pub(crate) fn is_expect(word: &[u8]) -> bool
    ensures { result ≡ is_expect word.now }
{
    word == b"expect".as_slice()
}

/// Adds what a line says that begins with this word.
fn add_word(
    reading: &mut ScriptReading,
    alloc: Global,
    word: &[u8],
    text: &[u8],
) -> Result<(), KeyStop>
    requires { IsReading reading.old }
    ensures added { AddsCues (cues_with_word (all_said reading.old.cues) word.now text.now) result (all_said reading.new.cues) }
    ensures reading { OnOk result (IsReading reading.new) }
    ensures memory { IsErrOf result KeyStop.OutOfMemory → is_cue_word word.now ≡ true }
{
    if is_wait_word(word) {
        add_awaited(reading, alloc, &[], text)
    } else if is_expect(word) {
        add_expected(reading, alloc, text)
    } else {
        add_counted(reading, word, text)
    }
}

/// Adds what one more line says.
fn add_line(reading: &mut ScriptReading, alloc: Global, line: &[u8]) -> Result<(), KeyStop>
    requires { IsReading reading.old }
    ensures added { AddsCues (cues_with_line (all_said reading.old.cues) line.now) result (all_said reading.new.cues) }
    ensures reading { OnOk result (IsReading reading.new) }
    ensures memory { IsErrOf result KeyStop.OutOfMemory → is_cue line.now ≡ true }
{
    if is_blank(line) || is_comment(line) {
        return Ok(());
    }
    let (word, text) = parted(line);
    add_word(reading, alloc, word, text)
}

/// What a script says in order, where some of its lines may wait.
///
/// A line is blank, a comment or a count with keys, as `read_keys` has them, or one of these two. `wait KEYS`
/// gives its keys when the session next waits for a key; `expect "TEXT" KEYS` does so too, where the console
/// has shown TEXT since the last key. TEXT ends before the first quote with a space after it, has one key
/// at least, and is written as keys are. A count is not less than the last one before it.
///
/// `Line` names the first line with a fault, and what is wrong with it. `OutOfMemory` comes only where
/// memory is refused, whatever is wrong after that place.
pub fn read_cues(alloc: Global, text: &[u8]) -> Result<Vec<Cue>, ScriptError>
    ensures read { ReadsCues result (cues text.now) }
    // It is out of memory only where a line has a count or waits.
    ensures memory { IsErrOf result ScriptError.OutOfMemory → has_cue (lines text.now) ≡ true }
{
    let mut reading = ScriptReading {
        cues: Vec::new(alloc),
        keys: 0,
        last: 0,
    };
    let mut rest = text;
    let mut number: u64 = 0;
    while !rest.is_empty() {
        let (line, after) = first_line(rest);
        number += 1;
        match add_line(&mut reading, alloc, line) {
            Ok(()) => rest = after,
            Err(KeyStop::Fault(fault)) => return Err(ScriptError::Line { number, fault }),
            Err(KeyStop::OutOfMemory) => return Err(ScriptError::OutOfMemory),
        }
    }
    Ok(reading.cues)
}
