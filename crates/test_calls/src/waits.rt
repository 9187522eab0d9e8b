//! A machine that is played by a script that may wait.

ghost use Rattle.std.specs.Prelude.{IfOk};
ghost use Rattle.cpm_play.specs.Playing.{IsFresh};

use crate::same::same;
use cpm_flags::Cpu;
use cpm_geom::{Format, Image};
use cpm_machine::{Machine, Opening};
use cpm_play::{CuedKeys, NoWatcher, play_cues};
use cpm_script::Cue;
use std::alloc::Global;
use std::io;
use std::test::Fail;

/// Shows `FIRST`, the text behind it 256 times, and `LAST`, and then reads a key.
const SHOWS: &[u8] = &[
    0x11, 0x26, 0x01, 0x0E, 0x09, 0xCD, 0x05, 0x00, 0x11, 0x31, 0x01, 0x0E, 0x09, 0xCD, 0x05, 0x00,
    0x21, 0x25, 0x01, 0x35, 0xC2, 0x08, 0x01, 0x11, 0x2C, 0x01, 0x0E, 0x09, 0xCD, 0x05, 0x00, 0x0E,
    0x01, 0xCD, 0x05, 0x00, 0xC9, 0x00, b'F', b'I', b'R', b'S', b'T', b'$', b'L', b'A', b'S', b'T',
    b'$',
];

/// A machine with that program and a text of 400 bytes.
fn showing(alloc: Global) -> Result<Machine, Fail>
    ensures { IfOk result IsFresh }
{
    let mut program = Vec::from_slice(alloc, SHOWS)?;
    for _ in 0..400 {
        program.push(b'-')?;
    }
    program.push(b'$')?;
    let mut drives = Vec::new(alloc);
    drives.push(Image::blank(alloc, Format::Ibm3740)?)?;
    let opening = Opening {
        cpu: Cpu::Z80,
        quota: 256,
        drives,
    };
    match Machine::with_program(alloc, opening, program) {
        Ok(machine) => Ok(machine),
        Err((_, _, error)) => Err(Fail::from(error)),
    }
}

/// How many keys come, and how many bytes are shown, where one is to come after these texts.
fn played(alloc: Global, first: &[u8], second: &[u8]) -> Result<(usize, usize), Fail> {
    let cues = [
        Cue::Wait(Vec::from_slice(alloc, first)?),
        Cue::Wait(Vec::from_slice(alloc, second)?),
        Cue::Press(b'!'),
    ];
    let system = Image::blank(alloc, Format::Ibm3740)?;
    let mut machine = showing(alloc)?;
    let mut text = Vec::new(alloc);
    let mut record = Vec::new(alloc);
    let cued = CuedKeys {
        cues: &cues,
        waits_from: 0,
        stops_idle: true,
    };
    let live = play_cues(
        alloc,
        &system,
        &mut machine,
        1_000_000,
        cued,
        &mut text,
        &mut io::sink(),
        &mut record,
        &mut NoWatcher,
    )?;
    Ok((live.keys.len(), text.len()))
}

/// Two waits look at all that was shown since the last key.
#[test]
fn a_text_is_found_long_after_it_was_shown(rt: HostRuntime) -> Result<(), Fail> {
    same(&rt, played(rt.alloc(), b"LAST", b"FIRST")?, (1, 102_410));
    same(&rt, played(rt.alloc(), b"FIRST-", b"-LAST")?, (1, 102_410));
    same(&rt, played(rt.alloc(), b"LAST", b"-FIRST")?, (0, 102_409));
    Ok(())
}
