//! The first line of a journal.
ghost use Rattle.std.specs.Prelude.{◌≡◌, option_and_then};
ghost use Rattle.hex.specs.Hex.{encode_lower};
ghost use Rattle.serde_json.specs.Find.{as_str, get};
ghost use Rattle.serde_json.specs.View.{view};
ghost use Rattle.cpm_journal.specs.Heads.{IsHeadRead, frames_fault, head_fault, member_number, system_text_fault};
ghost use Rattle.std.specs.Prelude.{None, codes};

use crate::entry::member_count;
use serde_json::Value;
use std::alloc::Global;
use thiserror::Error;

/// The number of this form.
pub(crate) const VERSION: u64 = 1;

/// Of which host a journal is.
#[derive(Clone, Copy, Debug, PartialEq, Eq, Drop)]
pub struct JournalHead {
    /// How many frames the host has.
    pub frames: u16,
    /// The digest of the system drive, by SHA-256.
    pub system: [u8; 32],
}

/// Why a file is not the journal of a host.
#[derive(Clone, Copy, Debug, PartialEq, Eq, Drop, Error)]
pub enum HeadFault {
    #[error("the file is no journal")]
    NoJournal,
    #[error("the journal is of another version")]
    OtherVersion,
    #[error("the journal is of another system drive")]
    OtherSystem,
    #[error("the journal is of a host with another number of frames")]
    OtherFrames,
    #[error("out of memory")]
    OutOfMemory,
}

/// The whole number of a member.
fn number_of(value: &Value, name: &str) -> Option<u64>
    ensures { result ≡ member_number name.now (view value.now) }
{
    match value.get(name) {
        Some(number) => number.as_u64(),
        None => None,
    }
}

/// Why the digest of a head is not these digits; or else the other fault, if there is one.
fn system_fault(value: &Value, digits: &str, other: Option<HeadFault>) -> Option<HeadFault>
    ensures { result ≡ system_text_fault digits.now (option_and_then as_str (get (codes "system") (view value.now))) other }
{
    match value.get("system") {
        Some(Value::String(text)) if text.as_str() == digits => other,
        Some(Value::String(_)) => Some(HeadFault::OtherSystem),
        _ => Some(HeadFault::NoJournal),
    }
}

/// Why the frames of a head are not so many.
fn frames_fault(value: &Value, frames: u16) -> Option<HeadFault>
    ensures { result ≡ frames_fault frames (member_number (codes "frames") (view value.now)) }
{
    match number_of(value, "frames") {
        Some(number) if number == frames as u64 => None,
        Some(_) => Some(HeadFault::OtherFrames),
        None => Some(HeadFault::NoJournal),
    }
}

impl JournalHead {
    /// Why a value is not this head, whose digest has these digits.
    fn fault_in(&self, value: &Value, digits: &str) -> Option<HeadFault>
        requires { digits.now ≡ encode_lower self.now.system }
        ensures { result ≡ head_fault self.now (view value.now) }
    {
        let Some(version) = number_of(value, "journal") else {
            return Some(HeadFault::NoJournal);
        };
        if version != VERSION {
            return Some(HeadFault::OtherVersion);
        }
        if member_count(value) != 3 {
            return Some(HeadFault::NoJournal);
        }
        system_fault(value, digits, frames_fault(value, self.frames))
    }

    /// Compares the first line of a journal with this head. It is refused where it is none; where it is one of another version, of another system drive or
    /// of another number of frames, in this order; or if out of memory.
    pub fn check(&self, alloc: Global, line: &[u8]) -> Result<(), HeadFault>
        ensures { IsHeadRead self.now line.now result }
    {
        let Ok(digits) = hex::encode(alloc, &self.system) else {
            return Err(HeadFault::OutOfMemory);
        };
        match Value::from_slice(alloc, line) {
            Ok(value) => match self.fault_in(&value, &digits) {
                Some(fault) => Err(fault),
                None => Ok(()),
            },
            Err(error) if error.is_memory() => Err(HeadFault::OutOfMemory),
            Err(_) => Err(HeadFault::NoJournal),
        }
    }
}
