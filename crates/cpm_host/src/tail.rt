//! The tail of a command, of words.

ghost use Rattle.std.specs.Prelude.{◌≡◌, ◌≤◌, [], MatchResult, Ok, OnOk, length, map};
ghost use Rattle.std.specs.List.{list_all};
ghost use Rattle.cpm_host.specs.Tails.{fits_tail, is_typed, tail_from, tail_with_word, IsTailRefusal};

use crate::error::HostError;
use cpm_machine::{MOST_TAIL, Tail};
use cpm_shown::shown;
use std::alloc::{AllocError, Global};

/// The tail that the words after a program's name make on a command line: each after a blank, in capitals. `TailRefused` has the first
/// word with a character that is none from ` ` to `~`, or for which there is no room.
pub fn tail_of(alloc: Global, words: &[&str]) -> Result<Tail, HostError>
    ensures { MatchResult result
        (λ tail. tail_from [] (map (λ w. w.now) words.now) ≡ Ok tail)
        (IsTailRefusal (map (λ w. w.now) words.now)) }
{
    let mut text = Vec::new(alloc);
    for word in words {
        if !fits_tail(&text, word) {
            return Err(HostError::TailRefused(shown(word)));
        }
        add_word(&mut text, word)?;
    }
    Ok(Tail::new(&text).unwrap())
}

/// Whether a word may stand after this tail.
#[tactic(auto, unfolding(crate::specs::Tails::fits_tail))]
fn fits_tail(text: &[u8], word: &str) -> bool
    requires { length text.now ≤ MOST_TAIL }
    ensures { result ≡ fits_tail text.now word.now }
{
    is_typed(word.as_bytes()) && word.len() < MOST_TAIL - text.len()
}

/// Whether each character is one that is typed.
fn is_typed(word: &[u8]) -> bool
    ensures { result ≡ list_all is_typed word.now }
{
    word.iter().all(|c| b' ' <= *c && *c < 0x7F)
}

/// Adds a word after a blank, in capitals.
fn add_word(text: &mut Vec<u8>, word: &str) -> Result<(), AllocError>
    ensures { OnOk result (text.new.items ≡ tail_with_word text.old.items word.now) }
{
    text.push(b' ')?;
    for c in word.as_bytes() {
        text.push(c.to_ascii_uppercase())?;
    }
    Ok(())
}
