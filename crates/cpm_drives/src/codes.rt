//! What the calls on files answer, and the records by number in a file control block.

ghost use Rattle.std.specs.Prelude.{◌≡◌, ◌<◌, Ok};
ghost use Rattle.cpm_drives.specs.Calls.{code_of_answer, code_or_none, code_or_fault};
ghost use Rattle.cpm_drives.specs.Files.{random_number, with_random};

use cpm_volume::{Answer, Fault, Fcb};

/// The directory code of no entry.
pub(crate) const NONE: u8 = 0xFF;

/// The code where the random record is past the end of any disk.
pub(crate) const PAST_ANY_DISK: u8 = 6;

/// The code of a call on a record.
pub(crate) fn code_of(answer: Answer) -> Result<u8, Fault>
    ensures { result ≡ code_of_answer answer }
{
    match answer {
        Answer::Done => Ok(0),
        Answer::NoRecord => Ok(1),
        Answer::NoBlock => Ok(2),
        Answer::CannotClose => Ok(3),
        Answer::NoExtent => Ok(4),
        Answer::NoEntryFree => Ok(5),
        Answer::Fault(which) => Err(which),
    }
}

/// A directory code, FFh for none.
pub(crate) fn code_or_none(code: Option<u8>) -> u8
    ensures { Ok result ≡ code_or_none code }
{
    code.unwrap_or(NONE)
}

pub(crate) fn code_or_fault(code: Result<Option<u8>, Fault>) -> Result<u8, Fault>
    ensures { result ≡ code_or_fault code }
{
    match code {
        Ok(code) => Ok(code_or_none(code)),
        Err(which) => Err(which),
    }
}

/// The number of the random record, which isn't past the end of any disk.
#[tactic(auto, unfolding(crate::specs::Files::random_number))]
pub(crate) fn random_number(fcb: &Fcb) -> u16
    ensures { result ≡ random_number fcb.now }
{
    u16::from(fcb.random_record[0]) + 256 * u16::from(fcb.random_record[1])
}

/// Makes a record the random record.
#[tactic(auto, unfolding(crate::specs::Files::with_random))]
pub(crate) fn put_random(fcb: &mut Fcb, number: u32)
    requires { number < 65664 }
    ensures { fcb.new ≡ with_random fcb.old number }
{
    fcb.random_record = [
        (number % 256) as u8,
        (number / 256 % 256) as u8,
        (number / 65536) as u8,
    ];
}
