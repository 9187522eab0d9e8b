//! Scripts that wait, a program that is played by one, and a source with its listing.

ghost use Rattle.std.specs.Prelude.{IfOk};
ghost use Rattle.cpm_host.specs.Program.{AreFit};

use crate::CallOutcome;
use crate::commands::{PlayedCounts, play, start};
use crate::machines::letter;
use crate::texts::SOURCE;
use cpm_geom::{Format, Image};
use cpm_host::{Cue, CuedKeys, HostError, PlayEnd, Source, cues_of, run_asm_listed};
use std::alloc::{AllocError, Global};

/// A line of the command processor, and a key once its prompt is shown again.
const WAITS: &[u8] = b"wait DIR^M\nexpect \"A>\" B\n";

/// What is shown then of a blank disk.
const PROMPT: &[u8] = b"\r\nA>DIR\r\r\nNO FILE\r\nA>B";

/// Reads keys up to a return.
const READS: &[u8] = &[
    0x0E, 0x01, 0xCD, 0x05, 0x00, 0xFE, 0x0D, 0xC2, 0x00, 0x01, 0xC9,
];

/// The first key of that program, the others, which are typed, and how many bytes are recorded of the first of them all.
const FIRST: &[u8] = b"wait A\n";

const OTHERS: &[u8] = b"bcdef\r";

const RECORDED: [usize; 8] = [0, 4, 8, 13, 18, 23, 28, 34];

/// A key before the program ends, and one once a text is shown that the program doesn't show.
const EXPECTS: &[u8] = b"2 A\nexpect \"B\" C\n";

pub fn cues(alloc: Global) -> CallOutcome {
    match cues_of(alloc, "waits.keys", WAITS) {
        Ok(cues) => CallOutcome::made_if(cues.len() == 7),
        Err(HostError::OutOfMemory) => CallOutcome::Refused,
        Err(_) => CallOutcome::Wrong,
    }
}

/// The cues of a script.
fn cues_in(alloc: Global, script: &[u8]) -> Result<Vec<Cue>, AllocError>
    ensures fit { IfOk result (λ v. AreFit v.items) }
{
    match cues_of(alloc, "waits.keys", script) {
        Ok(cues) => Ok(cues),
        Err(_) => Err(AllocError),
    }
}

pub fn program(alloc: Global) -> Result<CallOutcome, AllocError> {
    let cues = cues_in(alloc, EXPECTS)?;
    let start = start(alloc, Some(letter(alloc)?), None)?;
    let source = Source::Cues(CuedKeys {
        cues: cues.as_slice(),
        waits_from: 0,
        stops_idle: true,
    });
    let played = play(alloc, start, 100, source, &[]);
    Ok(match &played.answer {
        Ok(play) if play.ending.count == 7 && played.shown == 1 && played.recorded > 0 => {
            CallOutcome::Made
        }
        // (what was shown is kept behind the key, and that takes memory too)
        Err(HostError::OutOfMemory) => {
            CallOutcome::refused_if((played.recorded > 0) == (played.shown > 0))
        }
        _ => CallOutcome::Wrong,
    })
}

/// A program that is typed at behind its script. It echoes each key before the next one is read.
pub fn program_typed_at(alloc: Global) -> Result<CallOutcome, AllocError> {
    let cues = cues_in(alloc, FIRST)?;
    let start = start(alloc, Some(Vec::from_slice(alloc, READS)?), None)?;
    let source = Source::Typed {
        cues: cues.as_slice(),
    };
    Ok(of_echoes(&play(alloc, start, 100, source, OTHERS)))
}

/// The outcome of that program.
fn of_echoes(played: &PlayedCounts) -> CallOutcome {
    let is_right = RECORDED.get(played.shown) == Some(&played.recorded);
    match &played.answer {
        Ok(play) if play.ending.count == 44 && played.shown == 7 => {
            CallOutcome::made_if(is_right && play.end == Some(PlayEnd::Ended))
        }
        Err(HostError::OutOfMemory) => CallOutcome::refused_if(is_right && played.shown < 7),
        _ => CallOutcome::Wrong,
    }
}

/// A machine at the prompt, with a system drive. A line of its script is its command, and it waits within the next one.
pub fn prompt(alloc: Global) -> Result<CallOutcome, AllocError> {
    let cues = cues_in(alloc, WAITS)?;
    let start = start(alloc, None, Some(Image::blank(alloc, Format::Ibm3740)?))?;
    let source = Source::Cues(CuedKeys {
        cues: cues.as_slice(),
        waits_from: 0,
        stops_idle: true,
    });
    let played = play(alloc, start, 1000, source, &[]);
    Ok(match &played.answer {
        Ok(play) if play.waits && played.shown == PROMPT.len() => CallOutcome::Made,
        Err(HostError::OutOfMemory) => CallOutcome::refused_if(played.shown < PROMPT.len()),
        _ => CallOutcome::Wrong,
    })
}

pub fn listed_source(alloc: Global) -> CallOutcome {
    match run_asm_listed(alloc, SOURCE) {
        Ok(_) => CallOutcome::Made,
        Err(HostError::OutOfMemory) => CallOutcome::Refused,
        Err(_) => CallOutcome::Wrong,
    }
}
