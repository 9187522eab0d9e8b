//! The bytes that a writer has got so far, as contracts see them. It takes no memory, and its methods do nothing when the program runs.

ghost use Rattle.std.specs.Prelude.{◌≡◌, ℕ, List, [], ◌++◌};
ghost use base.Fml.{ftrue};

use std::marker::Model;

/// All bytes so far, which only contracts read.
#[derive(Drop)]
pub struct ByteHistory {
    pub ghost bytes: { List ℕ },
}

impl Model for ByteHistory {
    ghost also_owns = { λ _. ftrue };
}

/// Bytes that come next.
#[derive(Clone, Copy, Drop)]
pub(crate) struct NextBytes<'a> {
    pub(crate) bytes: &'a [u8],
}

impl ByteHistory {
    /// No byte so far.
    pub(crate) fn new() -> ByteHistory
        ensures { result.bytes ≡ [] }
    {
        ByteHistory {}
    }

    /// With the bytes that come next.
    #[inline(always)]
    pub(crate) fn then(&self, _next: &NextBytes<'_>) -> ByteHistory
        ensures { result.bytes ≡ self.now.bytes ++ _next.now.bytes.now }
    {
        ByteHistory {}
    }
}
