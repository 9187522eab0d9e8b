//! Tests by number, as rows of bits.

ghost use Rattle.std.specs.Prelude.{◌≡◌, ◌<◌, replicate, slice_set, slice_index_or, false, true};
ghost use Rattle.cpm_volume.specs.Reserved.{least_free};

use std::marker::Model;

/// 512 tests, each a bit: those of 64 numbers stand in a row, the lowest first.
#[derive(Drop)]
pub(crate) struct Bits {
    rows: [u64; 8],
}

impl Model for Bits {
    ghost use Rattle.std.specs.Prelude.{Bool, List};

    ghost Value = { List Bool };

    ghost use Rattle.cpm_directory.specs.Bits.{tests_of};

    ghost view = { λ bits. tests_of bits.rows };
}

impl Bits {
    /// No test holds.
    pub(crate) fn none() -> Bits
        ensures { result ≡ replicate 512 false }
    {
        Bits { rows: [0; 8] }
    }

    /// The same tests.
    pub(crate) fn copied(&self) -> Bits
        ensures { result ≡ self.now }
    {
        Bits { rows: self.rows }
    }

    /// Whether the test of a number holds.
    pub(crate) fn contains(&self, number: usize) -> bool
        requires { number < 512 }
        ensures { result ≡ slice_index_or self.now number false }
    {
        (self.rows[number / 64] >> (number % 64)) % 2 == 1
    }

    /// The test of a number holds from now on. A number from 512 on changes nothing.
    pub(crate) fn insert(&mut self, number: usize)
        ensures { self.new ≡ slice_set self.old number true }
    {
        if number < 64 * self.rows.len() {
            self.rows[number / 64] |= 1 << (number % 64);
        }
    }

    /// The test of a number holds no longer. A number from 512 on changes nothing.
    pub(crate) fn remove(&mut self, number: usize)
        ensures { self.new ≡ slice_set self.old number false }
    {
        if number < 64 * self.rows.len() {
            self.rows[number / 64] &= !(1 << (number % 64));
        }
    }

    /// The lowest number whose test doesn't hold, 512 where all hold. It looks at whole rows.
    pub(crate) fn lowest_clear(&self) -> usize
        ensures { result ≡ least_free self.now }
    {
        for row in 0..8 {
            let bits = self.rows[row];
            if bits != u64::MAX {
                return 64 * row + bits.trailing_ones() as usize;
            }
        }
        512
    }
}
