//! Calls on disks: bytes that come back, and the law of records.

use crate::same::same;
use cpm_geom::{Format, GeomError, Image, records_lie_apart};
use std::alloc::{AllocError, Global};
use std::process::Abort;
use std::test::Fail;

/// The byte at a place, another one than those near it.
fn byte_at(place: usize) -> u8 {
    (place % 251) as u8
}

/// So many of those bytes.
fn numbered(alloc: Global, length: usize) -> Result<Vec<u8>, AllocError> {
    let mut bytes = Vec::with_capacity(alloc, length)?;
    for place in 0..length {
        bytes.push(byte_at(place))?;
    }
    Ok(bytes)
}

#[test]
fn other_lengths_come_back(rt: HostRuntime) -> Result<(), Fail> {
    for length in [0, 1, 256_255, 256_257, 2_105_343, 2_105_345] {
        comes_back(&rt, length, numbered(rt.alloc(), length)?);
    }
    Ok(())
}

/// Bytes that are no image come back whole.
fn comes_back(rt: &impl Abort, length: usize, given: Vec<u8>) {
    let Err((bytes, error)) = Image::from_bytes(given) else {
        panic!(rt; "{length} bytes are accepted");
    };
    same(rt, bytes.len(), length);
    same(rt, error, GeomError::WrongLength);
    are_numbered(rt, bytes.as_slice());
}

fn are_numbered(rt: &impl Abort, bytes: &[u8]) {
    for (place, byte) in bytes.iter().enumerate() {
        same(rt, *byte, byte_at(place));
    }
}

/// Writes two records that are neighbours.
fn write(rt: &impl Abort, image: &mut Image) {
    same(rt, image.put_record(1, &[0x41; 128]), Ok(()));
    same(rt, image.put_record(2, &[0x42; 128]), Ok(()));
}

#[test]
fn records_have_a_law(rt: HostRuntime) -> Result<(), Fail> {
    let mut image = Image::blank(rt.alloc(), Format::Ibm3740)?;
    records_lie_apart();
    write(&rt, &mut image);
    let record = image.record(1).expect(&rt, "record 1");
    assert!(rt; record.iter().all(|byte| *byte == 0x41));
    Ok(())
}
