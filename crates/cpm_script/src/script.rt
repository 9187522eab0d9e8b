//! Key scripts, line by line.
ghost use Rattle.std.specs.Prelude.{◌≡◌, ◌==◌, ◌≤◌, ◌+◌, ◌++◌, ◌∷◌, [], length, not, slice_index, IfSome, IsErrOf, OnOk, is_some, true};
ghost use Rattle.std.specs.Str.Lines.{lines};
ghost use Rattle.cpm_script.specs.KeyText.{count_of};
ghost use Rattle.std.specs.List.{after_first, before_first, list_all};
ghost use Rattle.cpm_script.specs.Script.{Adds, Reads, fault_past_last_key, has_count, is_after, is_counted};
ghost use Rattle.cpm_script.specs.Script.{is_allowed, is_script_space, script, script_within};
ghost use Rattle.cpm_script.specs.Script.{keys_with_counted_within, keys_with_line_within, keys_with_text_within};

use crate::count::count_of;
use crate::fault::{LineFault, ScriptError};
use crate::keys::{are_keys, first_key};
use crate::lines::first_line;
use memchr::memchr;
use std::alloc::{AllocError, Global};

/// A key, and the count of steps at which it comes.
#[derive(Clone, Copy, Debug, PartialEq, Eq)]
pub struct Key {
    pub count: u64,
    pub byte: u8,
}

/// Why the keys of a line are not added.
#[derive(Clone, Copy)]
pub(crate) enum KeyStop {
    Fault(LineFault),
    OutOfMemory,
}

/// The most keys that a script has.
pub const MOST_KEYS: usize = 4096;

/// A line of spaces, or with nothing on it.
pub(crate) fn is_blank(line: &[u8]) -> bool
    ensures { result ≡ list_all is_script_space line.now }
{
    line.iter().all(|b| *b == b' ')
}

pub(crate) fn is_comment(line: &[u8]) -> bool
    ensures { result ≡ (slice_index line.now 0 == 0x23) }
{
    match line.first() {
        Some(first) => *first == b'#',
        None => false,
    }
}

/// Whether a key may come at this count after these.
fn is_after(keys: &[Key], count: u64) -> bool
    ensures { result ≡ is_after keys.now count }
{
    match keys.last() {
        Some(last) => last.count <= count,
        None => true,
    }
}

/// Whether after so many keys there may be no more.
fn is_full(count: usize, limit: Option<usize>) -> bool
    ensures { result ≡ not (is_allowed limit (count + 1)) }
{
    match limit {
        Some(most) => count >= most,
        None => false,
    }
}

fn add_key(keys: &mut Vec<Key>, key: Key) -> Result<(), AllocError>
    ensures { OnOk result (keys.new.items ≡ keys.old.items ++ key ∷ []) }
{
    keys.push(key)?;
    Ok(())
}

/// Adds the keys that a text stands for, all at one count.
fn add_keys(
    keys: &mut Vec<Key>,
    count: u64,
    text: &[u8],
    limit: Option<usize>,
) -> Result<(), KeyStop>
    requires { IfSome limit (λ most. length keys.old.items ≤ most) }
    ensures added { Adds (keys_with_text_within limit keys.old.items count text.now) result keys.new.items }
    ensures room { OnOk result (IfSome limit (λ most. length keys.new.items ≤ most)) }
{
    if text.is_empty() {
        return Err(KeyStop::Fault(LineFault::NoKey));
    }
    let mut rest = text;
    while !rest.is_empty() {
        let Some((byte, after)) = first_key(rest) else {
            return Err(KeyStop::Fault(LineFault::NotAKey));
        };
        if is_full(keys.len(), limit) {
            return Err(KeyStop::Fault(fault_past_last_key(rest)));
        }
        match add_key(keys, Key { count, byte }) {
            Ok(()) => rest = after,
            Err(_) => return Err(KeyStop::OutOfMemory),
        }
    }
    Ok(())
}

/// The fault of a line whose text goes on where there is no room for a key.
fn fault_past_last_key(rest: &[u8]) -> LineFault
    ensures { result ≡ fault_past_last_key rest.now }
{
    if are_keys(rest) {
        LineFault::TooManyKeys
    } else {
        LineFault::NotAKey
    }
}

/// A line before its first space, and after it.
pub(crate) fn parted(line: &[u8]) -> (&[u8], &[u8])
    ensures number { result.0.now ≡ before_first is_script_space line.now }
    ensures text { result.1.now ≡ after_first is_script_space line.now }
{
    match memchr(b' ', line) {
        Some(place) => (&line[..place], line.split_at(place + 1).1),
        None => (line, &[]),
    }
}

/// Adds the keys of a text at the count that a number writes.
fn add_counted(
    keys: &mut Vec<Key>,
    number: &[u8],
    text: &[u8],
    limit: Option<usize>,
) -> Result<(), KeyStop>
    requires { IfSome limit (λ most. length keys.old.items ≤ most) }
    ensures added { Adds (keys_with_counted_within limit keys.old.items number.now text.now) result keys.new.items }
    ensures room { OnOk result (IfSome limit (λ most. length keys.new.items ≤ most)) }
    ensures memory { IsErrOf result KeyStop.OutOfMemory → is_some (count_of number.now) ≡ true }
{
    let Some(count) = count_of(number) else {
        return Err(KeyStop::Fault(LineFault::NoCount));
    };
    if is_after(keys.as_slice(), count) {
        add_keys(keys, count, text, limit)
    } else {
        Err(KeyStop::Fault(LineFault::CountFalls))
    }
}

/// Adds the keys of one more line.
fn add_line(keys: &mut Vec<Key>, line: &[u8], limit: Option<usize>) -> Result<(), KeyStop>
    requires { IfSome limit (λ most. length keys.old.items ≤ most) }
    ensures added { Adds (keys_with_line_within limit keys.old.items line.now) result keys.new.items }
    ensures room { OnOk result (IfSome limit (λ most. length keys.new.items ≤ most)) }
    ensures memory { IsErrOf result KeyStop.OutOfMemory → is_counted line.now ≡ true }
{
    if is_blank(line) || is_comment(line) {
        return Ok(());
    }
    let (number, text) = parted(line);
    add_counted(keys, number, text, limit)
}

/// The keys of a text in order, no more than the limit, where there is one.
pub(crate) fn read_within(
    alloc: Global,
    text: &[u8],
    limit: Option<usize>,
) -> Result<Vec<Key>, ScriptError>
    ensures read { Reads result (script_within limit text.now) }
    // It is out of memory only where a line has a count.
    ensures memory { IsErrOf result ScriptError.OutOfMemory → has_count (lines text.now) ≡ true }
{
    let mut keys = Vec::new(alloc);
    let mut rest = text;
    let mut number: u64 = 0;
    while !rest.is_empty() {
        let (line, after) = first_line(rest);
        number += 1;
        match add_line(&mut keys, line, limit) {
            Ok(()) => rest = after,
            Err(KeyStop::Fault(fault)) => return Err(ScriptError::Line { number, fault }),
            Err(KeyStop::OutOfMemory) => return Err(ScriptError::OutOfMemory),
        }
    }
    Ok(keys)
}

/// The keys of a script in order, each with the count of steps at which it comes.
///
/// A line is blank (nothing or spaces), or a comment that begins with `#`, or it has a decimal count,
/// one space and one or more keys. Counts do not fall. A character from space to `~` is itself; `^`
/// with `@`, a letter or one of `[ \ ] ^ _` is a control character, `^?` is 7Fh and `^~` a caret.
///
/// `Line` names the first line with a fault, and what is wrong with it. `OutOfMemory` comes only where
/// memory is refused, whatever is wrong after that place.
pub fn read_keys(alloc: Global, text: &[u8]) -> Result<Vec<Key>, ScriptError>
    ensures read { Reads result (script text.now) }
    // It is out of memory only where a line has a count.
    ensures memory { IsErrOf result ScriptError.OutOfMemory → has_count (lines text.now) ≡ true }
{
    read_within(alloc, text, Some(MOST_KEYS))
}
