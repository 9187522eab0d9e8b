//! Bytes that are read from the front, a value at a time.

ghost use Rattle.std.specs.Prelude.{◌≡◌, ◌≤◌, ◌<◌, IfOk, Err, drop, length, ◌==◌};
ghost use Rattle.cpm_checkpoint.specs.CheckpointReading.{IsParsed, byte_read, bytes_taken, long_read, run_read, these_read};

use crate::checkpoint::CheckpointError;
use std::marker::Model;

/// Bytes that are read from the front.
#[derive(Drop)]
pub struct CheckpointReader<'a> {
    bytes: &'a [u8],
    at: usize,
}

impl<'a> Model for CheckpointReader<'a> {
    ghost use Rattle.std.specs.Prelude.{◌≤◌, drop, length};
    ghost use Rattle.cpm_checkpoint.specs.CheckpointReading.{Unread, unread_at};

    ghost Value = { Unread };

    ghost view = { λ r. unread_at r.at (drop r.at r.bytes.now) };

    ghost invariant = { λ r. r.at ≤ length r.bytes.now };
}

impl<'a> CheckpointReader<'a> {
    ghost use Rattle.cpm_checkpoint.specs.CheckpointReading.{unread_at};

    /// All of these bytes are still to be read.
    pub fn new(bytes: &'a [u8]) -> CheckpointReader<'a>
        ensures { result ≡ unread_at 0 bytes.now }
    {
        CheckpointReader { bytes, at: 0 }
    }

    /// The place of what is still to be read, counted from 0.
    pub fn at(&self) -> usize
        ensures { result ≡ self.now.at }
    {
        self.at
    }

    /// Whether nothing is left to be read.
    pub fn is_at_end(&self) -> bool
        ensures { result ≡ (length self.now.bytes == 0) }
    {
        self.at == self.bytes.len()
    }

    /// The next bytes, just so many.
    pub fn take(&mut self, count: usize) -> Result<&'a [u8], CheckpointError>
        ensures read { IsParsed (λ b. b.now) (bytes_taken count self.old) self.new result }
        ensures length { IfOk result (λ b. length b.now ≡ count) }
    {
        if self.bytes.len() - self.at < count {
            return Err(CheckpointError::Damaged { at: self.at });
        }
        let taken = &self.bytes[self.at..self.at + count];
        self.at += count;
        Ok(taken)
    }

    /// The next bytes, as many as an array has.
    pub fn array<const N: usize>(&mut self) -> Result<[u8; N], CheckpointError>
        ensures { IsParsed (λ b. b) (bytes_taken N self.old) self.new result }
    {
        let mut bytes = [0; N];
        bytes.copy_from_slice(self.take(N)?);
        Ok(bytes)
    }

    /// Just these bytes.
    #[tactic(auto, unfolding(crate::specs::CheckpointReading::these_read))]
    pub fn these<const N: usize>(&mut self, wanted: &[u8; N]) -> Result<(), CheckpointError>
        ensures { IsParsed (λ _. wanted.now) (these_read wanted.now self.old) self.new result }
    {
        let at = self.at;
        let bytes: [u8; N] = self.array()?;
        if bytes == *wanted {
            Ok(())
        } else {
            Err(CheckpointError::Damaged { at })
        }
    }

    /// A byte below a limit.
    #[tactic(auto, unfolding(crate::specs::CheckpointReading::byte_read))]
    pub fn byte_below(&mut self, limit: u8) -> Result<u8, CheckpointError>
        ensures read { IsParsed (λ b. b) (byte_read limit self.old) self.new result }
        ensures below { IfOk result (λ b. b < limit) }
    {
        let at = self.at;
        let byte = self.take(1)?[0];
        if byte < limit {
            Ok(byte)
        } else {
            Err(CheckpointError::Damaged { at })
        }
    }

    /// A number of 64 bits.
    #[tactic(auto, unfolding(crate::specs::CheckpointReading::long_read))]
    pub fn long(&mut self) -> Result<u64, CheckpointError>
        ensures { IsParsed (λ n. n) (long_read self.old) self.new result }
    {
        Ok(u64::from_le_bytes(self.array()?))
    }

    /// How many bytes come, and then these.
    #[tactic(auto, unfolding(crate::specs::CheckpointReading::run_read))]
    pub fn run(&mut self) -> Result<&'a [u8], CheckpointError>
        ensures { IsParsed (λ b. b.now) (run_read self.old) self.new result }
    {
        let count = self.long()?;
        self.take(count as usize)
    }
}
