//! Bytes that are read from the front, a value at a time.

ghost use Rattle.std.specs.Prelude.{◌≡◌, ◌≤◌, ◌<◌, ℕ, true, MatchResult, IfOk, drop, length, ◌+◌, ◌==◌};
ghost use Rattle.cpm_flags.specs.Arithmetic.{bit};
ghost use Rattle.cpm_saved.specs.Layout.{Below, AnyByte, Fixed, Long, Run, Within, AnyWord, are_below, decoded, first_bytes};
ghost use Rattle.cpm_saved.specs.Reading.{IsPartUnread};

use crate::part::{SavingDamage, SavingPart};
use std::alloc::AllocError;
use std::marker::Model;

/// Why a saving is not read.
#[derive(Clone, Copy, Debug, PartialEq, Eq, Drop)]
pub enum RestoreError {
    Damaged(SavingDamage),
    OutOfMemory,
}

impl From<AllocError> for RestoreError {
    ghost use Rattle.std.specs.Prelude.{◌≡◌};
    ghost use Rattle.cpm_saved.specs.declared.reader.RestoreError.TheVariants.{OutOfMemory};

    ghost from_gives = { λ _ e. e ≡ OutOfMemory };

    fn from(_: AllocError) -> RestoreError {
        RestoreError::OutOfMemory
    }
}

/// Bytes that are read from the front. A value that can't be read changes nothing.
#[derive(Drop)]
pub struct Reader<'a> {
    bytes: &'a [u8],
    at: usize,
}

impl<'a> Model for Reader<'a> {
    ghost use Rattle.std.specs.Prelude.{◌≤◌, drop, length};
    ghost use Rattle.cpm_saved.specs.Layout.{Rest, rest_at};

    ghost Value = { Rest };

    ghost view = { λ r. rest_at r.at (drop r.at r.bytes.now) };

    ghost invariant = { λ r. r.at ≤ length r.bytes.now };
}

/// Whether each byte is below a limit.
fn are_below(limit: u16, bytes: &[u8]) -> bool
    ensures { result ≡ are_below limit bytes.now }
{
    bytes.iter().all(|byte| u16::from(*byte) < limit)
}

impl<'a> Reader<'a> {
    ghost use Rattle.cpm_saved.specs.Layout.{rest_at};

    /// All of these bytes are still to be read.
    pub fn new(bytes: &'a [u8]) -> Reader<'a>
        ensures { result ≡ rest_at 0 bytes.now }
    {
        Reader { bytes, at: 0 }
    }

    /// The place of what is still to be read, counted from 0.
    pub fn at(&self) -> usize
        ensures { result ≡ self.now.at }
    {
        self.at
    }

    /// Whether nothing is left to be read.
    pub fn is_at_end(&self) -> bool
        ensures { result ≡ (length self.now.bytes == 0) }
    {
        self.at == self.bytes.len()
    }

    /// The refusal of a part that begins at a place.
    pub fn damaged<T>(field: SavingPart, at: usize) -> Result<T, RestoreError>
        ensures { result ≡ Err (RestoreError.Damaged (record { field = field; at = at })) }
    {
        Err(RestoreError::Damaged(SavingDamage { field, at }))
    }

    /// The next bytes, just so many.
    pub fn take(&mut self, field: SavingPart, count: usize) -> Result<&'a [u8], RestoreError>
        ensures read { MatchResult result (λ b. first_bytes field count self.old ≡ Ok (b.now, self.new))
            (IsPartUnread (first_bytes field count self.old)) }
        ensures length { IfOk result (λ b. length b.now ≡ count) }
    {
        if self.bytes.len() - self.at < count {
            return Self::damaged(field, self.at);
        }
        let taken = &self.bytes[self.at..self.at + count];
        self.at += count;
        Ok(taken)
    }

    /// The next bytes, as many as an array has.
    pub fn array<const N: usize>(&mut self, field: SavingPart) -> Result<[u8; N], RestoreError>
        ensures read { MatchResult result (λ b. decoded (Fixed field N) self.old ≡ Ok (b, self.new)) (IsPartUnread (decoded (Fixed field N) self.old)) }
        ensures first { MatchResult result (λ b. first_bytes field N self.old ≡ Ok (b, self.new)) (IsPartUnread (first_bytes field N self.old)) }
    {
        let mut bytes = [0; N];
        bytes.copy_from_slice(self.take(field, N)?);
        Ok(bytes)
    }

    /// A byte below a limit.
    pub fn byte_below(&mut self, field: SavingPart, limit: u16) -> Result<u8, RestoreError>
        ensures read { MatchResult result (λ b. decoded (Below field limit) self.old ≡ Ok (b, self.new))
            (IsPartUnread (decoded (Below field limit) self.old)) }
        ensures below { IfOk result (λ b. b < limit) }
    {
        let at = self.at;
        let byte = self.take(field, 1)?[0];
        if u16::from(byte) < limit {
            Ok(byte)
        } else {
            Self::damaged(field, at)
        }
    }

    /// Any byte.
    pub fn byte(&mut self, field: SavingPart) -> Result<u8, RestoreError>
        ensures { MatchResult result (λ b. decoded (AnyByte field) self.old ≡ Ok (b, self.new)) (IsPartUnread (decoded (AnyByte field) self.old)) }
    {
        self.byte_below(field, 256)
    }

    /// A byte that says no or yes.
    pub fn flag(&mut self, field: SavingPart) -> Result<bool, RestoreError>
        ensures { MatchResult result (λ b. decoded (Below field 2) self.old ≡ Ok (bit b, self.new)) (IsPartUnread (decoded (Below field 2) self.old)) }
    {
        Ok(self.byte_below(field, 2)? == 1)
    }

    /// A number of 16 bits, from the least to the most.
    pub fn word_within(
        &mut self,
        field: SavingPart,
        least: u16,
        most: u16,
    ) -> Result<u16, RestoreError>
        ensures read { MatchResult result (λ n. decoded (Within field least most) self.old ≡ Ok (n, self.new))
            (IsPartUnread (decoded (Within field least most) self.old)) }
        ensures within { IfOk result (λ n. (least ≤ n) × (n ≤ most)) }
    {
        let at = self.at;
        let bytes = self.take(field, 2)?;
        let number = u16::from_le_bytes([bytes[0], bytes[1]]);
        if least <= number && number <= most {
            Ok(number)
        } else {
            Self::damaged(field, at)
        }
    }
}

impl<'a> Reader<'a> {
    /// Any number of 16 bits.
    pub fn word(&mut self, field: SavingPart) -> Result<u16, RestoreError>
        ensures { MatchResult result (λ n. decoded (AnyWord field) self.old ≡ Ok (n, self.new)) (IsPartUnread (decoded (AnyWord field) self.old)) }
    {
        self.word_within(field, 0, u16::MAX)
    }

    /// A number of 64 bits.
    pub fn long(&mut self, field: SavingPart) -> Result<u64, RestoreError>
        ensures { MatchResult result (λ n. decoded (Long field) self.old ≡ Ok (n, self.new)) (IsPartUnread (decoded (Long field) self.old)) }
    {
        let bytes = self.take(field, 8)?;
        Ok(u64::from_le_bytes([
            bytes[0], bytes[1], bytes[2], bytes[3], bytes[4], bytes[5], bytes[6], bytes[7],
        ]))
    }

    /// How many bytes come, and then these, each below a limit.
    pub fn run(
        &mut self,
        field: SavingPart,
        most: u16,
        limit: u16,
    ) -> Result<&'a [u8], RestoreError>
        ensures read { MatchResult result (λ b. decoded (Run field most limit) self.old ≡ Ok (b.now, self.new))
            (IsPartUnread (decoded (Run field most limit) self.old)) }
        ensures few { IfOk result (λ b. length b.now ≤ most) }
        ensures below { IfOk result (λ b. are_below limit b.now ≡ true) }
    {
        let at = self.at;
        let count = self.word_within(field, 0, most)?;
        let bytes = self.take(field, usize::from(count))?;
        if are_below(limit, bytes) {
            Ok(bytes)
        } else {
            Self::damaged(field, at)
        }
    }
}
