//! Keys that are read.

ghost use Rattle.std.specs.Prelude.{[], ◌∷◌, IfOk, MatchOption, OnErr};
ghost use Rattle.std.specs.Io.KnownBytes.{Consumes, IsAtEnd, Keeps};
ghost use Rattle.cpm_play.specs.Typing.{HasReadKeys};
ghost use Rattle.cpm_play.specs.Typist.{IsReadAs, IsSomething};

use crate::typist::{Heard, TypingEnd};
use std::io;
use std::io::{ErrorKind, Read};

/// ^], which ends a live session.
const END_KEY: u8 = 0x1D;

/// The next byte, or none at the end of the input.
fn read_byte<I: Read>(input: &mut I) -> io::Result<Option<u8>>
    ensures byte { IfOk result (λ byte. MatchOption byte (IsAtEnd (I.remaining input.new) × Consumes (I.remaining input.old) (I.remaining input.new) [])
        (λ b. Consumes (I.remaining input.old) (I.remaining input.new) (b ∷ []))) }
    ensures none { OnErr result (Keeps (I.remaining input.old) (I.remaining input.new)) }
{
    let mut bytes = [0u8; 1];
    if input.read(&mut bytes)? == 0 {
        Ok(None)
    } else {
        Ok(Some(bytes[0]))
    }
}

/// The next key that is typed, or why there is none: after ^] and at the end of the input. A byte of 80h or more is no key and is passed over.
pub(crate) fn next_key<I: Read>(input: &mut I) -> io::Result<Heard>
    ensures key { IfOk result (IsReadAs (I.remaining input.old) (I.remaining input.new)) }
    ensures something { IfOk result IsSomething }
    ensures none { OnErr result (HasReadKeys (I.remaining input.old) (I.remaining input.new) []) }
{
    for _ in 0..u64::MAX {
        match read_byte(input) {
            Ok(None) => return Ok(Heard::End(TypingEnd::InputEnd)),
            Ok(Some(END_KEY)) => return Ok(Heard::End(TypingEnd::Quit)),
            Ok(Some(byte)) if byte.is_ascii() => return Ok(Heard::Key(byte)),
            Ok(Some(_)) => {}
            Err(error) if error.kind() == ErrorKind::Interrupted => {}
            Err(error) => return Err(error),
        }
    }
    Err(io::Error::new(ErrorKind::TimedOut, "no key came"))
}
