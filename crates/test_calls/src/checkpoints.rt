//! Checkpoints: one that was laid out by hand from the tables of docs/SAVED.md, each cut of it, and each length that lies.

ghost use Rattle.std.specs.Prelude.{◌<◌};

use crate::same::{same, same_at};
use cpm_checkpoint::laws::{read_is_written, written_is_read};
use cpm_checkpoint::{Checkpoint, CheckpointError, CheckpointSession, MOST_SESSIONS};
use std::alloc::{AllocError, Global};
use std::process::Abort;
use std::test::Fail;

/// How many bytes the example has.
const LENGTH: usize = 87;

/// The example: two sessions, of which the first has not begun.
const EXAMPLE: [u8; LENGTH] = [
    // the magic, and the number of the format
    0x63, 0x70, 0x6d, 0x72, 0x75, 0x6e, 0x1a, 0x00, 0x01, // the digest
    0x00, 0x01, 0x02, 0x03, 0x04, 0x05, 0x06, 0x07, 0x08, 0x09, 0x0a, 0x0b, 0x0c, 0x0d, 0x0e, 0x0f,
    0x10, 0x11, 0x12, 0x13, 0x14, 0x15, 0x16, 0x17, 0x18, 0x19, 0x1a, 0x1b, 0x1c, 0x1d, 0x1e, 0x1f,
    // two sessions; the first has not begun, the second has
    0x02, 0x00, 0x01, // the keys that were pressed, and the steps that are done
    0x03, 0x00, 0x00, 0x00, 0x00, 0x00, 0x00, 0x00, 0x08, 0x07, 0x06, 0x05, 0x04, 0x03, 0x02, 0x01,
    // its console, its list device, and its saving
    0x02, 0x00, 0x00, 0x00, 0x00, 0x00, 0x00, 0x00, 0x41, 0x42, 0x00, 0x00, 0x00, 0x00, 0x00, 0x00,
    0x00, 0x00, 0x01, 0x00, 0x00, 0x00, 0x00, 0x00, 0x00, 0x00, 0xff,
];

/// Where each value of the example begins.
const PLACES: [usize; 13] = [0, 8, 9, 41, 42, 43, 44, 52, 60, 68, 70, 78, 86];

/// What the example says.
fn example(alloc: Global) -> Result<Checkpoint, AllocError> {
    let mut beginning = [0; 32];
    for place in 0..32u8 {
        beginning[usize::from(place)] = place;
    }
    let session = CheckpointSession {
        pressed: 3,
        done: 0x0102_0304_0506_0708,
        console: Vec::from_slice(alloc, b"AB")?,
        list: Vec::new(alloc),
        saving: Vec::from_slice(alloc, &[0xff])?,
    };
    let sessions = vec![in alloc; None, Some(session)]?;
    Ok(Checkpoint {
        beginning,
        sessions,
    })
}

/// The example with another byte at a place.
fn with_byte(place: usize, byte: u8) -> [u8; LENGTH]
    requires { place < 87 }
{
    let mut bytes = EXAMPLE;
    bytes[place] = byte;
    bytes
}

/// Bytes are refused with the place of the first fault.
fn is_damaged(rt: &impl Abort, alloc: Global, case: usize, bytes: &[u8], at: usize) {
    same_at(
        rt,
        case,
        Checkpoint::read(alloc, bytes),
        Err(CheckpointError::Damaged { at }),
    );
}

#[test]
fn the_example_is_written(rt: HostRuntime) -> Result<(), Fail> {
    let checkpoint = example(rt.alloc())?;
    assert!(rt; checkpoint.sessions.len() <= MOST_SESSIONS);
    let bytes = checkpoint.bytes(rt.alloc())?;
    same(&rt, bytes.as_slice(), EXAMPLE.as_slice());
    Ok(())
}

#[test]
fn the_example_is_read(rt: HostRuntime) -> Result<(), Fail> {
    let wanted = example(rt.alloc())?;
    same(&rt, Checkpoint::read(rt.alloc(), &EXAMPLE), Ok(wanted));
    Ok(())
}

/// A cut is refused where the value begins that is cut.
#[test]
fn each_cut_is_refused(rt: HostRuntime) {
    for length in 0..LENGTH {
        let mut at = 0;
        for place in PLACES {
            if place <= length {
                at = place;
            }
        }
        is_damaged(&rt, rt.alloc(), length, &EXAMPLE[..length], at);
    }
}

/// A length that is too great is refused behind it, whatever it says: no memory is taken for it.
#[test]
fn each_length_that_lies_is_refused(rt: HostRuntime) {
    for first in [60, 70, 78] {
        for place in first..first + 8 {
            is_damaged(&rt, rt.alloc(), place, &with_byte(place, 0xff), first + 8);
        }
    }
}

/// A length that is one too small or too great moves what is behind it.
#[test]
fn lengths_beside_the_right_ones_are_refused(rt: HostRuntime) {
    for (place, byte, at) in [
        (60, 1, 77),
        (60, 3, 79),
        (70, 1, 87),
        (78, 0, 86),
        (78, 2, 86),
    ] {
        is_damaged(&rt, rt.alloc(), place, &with_byte(place, byte), at);
    }
}

/// Other bytes at the places where just some may stand.
#[test]
fn other_marks_are_refused(rt: HostRuntime) {
    for (place, byte) in [
        (42, 2),
        (43, 2),
        (43, 0xff),
        (41, 65),
        (41, 0xff),
        (8, 0),
        (8, 2),
    ] {
        is_damaged(&rt, rt.alloc(), place, &with_byte(place, byte), place);
    }
    is_damaged(&rt, rt.alloc(), 3, &with_byte(3, 0x68), 0);
    is_damaged(&rt, rt.alloc(), 7, &with_byte(7, 0x1a), 0);
}

#[test]
fn a_byte_behind_is_refused(rt: HostRuntime) -> Result<(), Fail> {
    let mut bytes = Vec::from_slice(rt.alloc(), &EXAMPLE)?;
    bytes.push(0)?;
    is_damaged(&rt, rt.alloc(), LENGTH, &bytes, LENGTH);
    Ok(())
}

#[test]
fn a_damaged_checkpoint_has_a_text(rt: HostRuntime) {
    let shown = CheckpointError::Damaged { at: 41 }.to_string(rt.alloc());
    same(
        &rt,
        shown.expect(&rt, "memory").as_str(),
        "the checkpoint is damaged at byte 41",
    );
}

#[test]
fn the_laws_of_checkpoints_are_called(_rt: HostRuntime) {
    written_is_read();
    read_is_written();
}
