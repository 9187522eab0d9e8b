//! Words of a command line, which are parted by spaces.

ghost use Rattle.std.specs.Prelude.{◌≡◌, ◌≤◌, length, not, position, ◌==◌};
ghost use Rattle.std.specs.List.{list_all, position_or_len};
ghost use Rattle.cpm_directory.specs.CommandLine.{after_spaces, is_drive, fcb_named, text_behind_name};
ghost use Rattle.cpm_ccp.specs.Words.{first_word, is_space, is_drive_alone, tail_of};

use cpm_directory::{Fcb, parse_fcb};

/// The first word of a line: spaces in front are skipped, and a space ends it.
pub(crate) fn first_word(line: &[u8]) -> &[u8]
    ensures word { result.now ≡ first_word line.now }
    ensures length { length result.now ≤ length line.now }
{
    split_first_word(line).0
}

/// The tail of a line: all that stands after its first word, its spaces too.
pub(crate) fn tail(line: &[u8]) -> &[u8]
    ensures tail { result.now ≡ tail_of line.now }
    ensures length { length result.now ≤ length line.now }
{
    split_first_word(line).1
}

/// The file control blocks that a program finds at 005Ch and 006Ch: the first two names of its tail, of which the
/// second begins where the first ends.
pub(crate) fn default_fcbs(tail: &[u8]) -> (Fcb, Fcb)
    ensures first { result.0 ≡ fcb_named tail.now }
    ensures second { result.1 ≡ fcb_named (text_behind_name tail.now) }
{
    let (first, rest) = parse_fcb(tail);
    (first, parse_fcb(rest).0)
}

/// The first word of a line and its tail.
pub(crate) fn split_first_word(line: &[u8]) -> (&[u8], &[u8])
    ensures word { result.0.now ≡ first_word line.now }
    ensures tail { result.1.now ≡ tail_of line.now }
{
    let line = after_spaces(line);
    let end = word_length(line);
    (&line[..end], &line[end..])
}

/// Whether a line is a drive's name alone.
#[tactic(auto, unfolding(crate::specs::Words::is_drive_alone))]
pub(crate) fn is_drive_alone(word: &[u8], tail: &[u8]) -> bool
    ensures { result ≡ is_drive_alone word.now tail.now }
{
    word.len() == 2 && is_drive(word) && is_blank(tail)
}

/// Whether a drive is named in front.
#[tactic(auto, unfolding(cpm_directory::specs::CommandLine::is_drive))]
fn is_drive(word: &[u8]) -> bool
    requires { 2 ≤ length word.now }
    ensures { result ≡ is_drive word.now }
{
    word[1] == b':' && (b'A' <= word[0] && word[0] <= b'P')
}

/// Whether a text has spaces alone.
fn is_blank(text: &[u8]) -> bool
    ensures { result ≡ list_all is_space text.now }
{
    text.iter().all(|c| *c == b' ')
}

/// The text after the spaces in front.
pub(crate) fn after_spaces(text: &[u8]) -> &[u8]
    ensures { result.now ≡ after_spaces text.now }
{
    &text[spaces_in_front(text)..]
}

fn spaces_in_front(text: &[u8]) -> usize
    ensures count { result ≡ position_or_len (λ c. not (c == 32)) text.now }
    ensures within { result ≤ length text.now }
{
    first_character(text).unwrap_or(text.len())
}

fn first_character(text: &[u8]) -> Option<usize>
    ensures { result ≡ position (λ c. not (c == 32)) text.now }
{
    text.iter().position(|c| *c != b' ')
}

fn word_length(text: &[u8]) -> usize
    ensures count { result ≡ position_or_len is_space text.now }
    ensures within { result ≤ length text.now }
{
    first_space(text).unwrap_or(text.len())
}

fn first_space(text: &[u8]) -> Option<usize>
    ensures { result ≡ position is_space text.now }
{
    text.iter().position(|c| *c == b' ')
}
