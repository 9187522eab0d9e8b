//! What a machine sends to its printer: it is kept where a file is named for it, and else dropped.
ghost use Rattle.std.specs.Prelude.{◌≡◌, [], option_map};
ghost use Rattle.cpm_commands.specs.ListText.{MayBeDropped, kept_if};

use std::alloc::Global;
use std::io;
use std::io::Write;

/// What a machine sends to its printer, where it is kept; and whether some of it was dropped, where it isn't.
#[derive(Drop)]
pub(crate) struct ListText {
    bytes: Vec<u8>,
    is_kept: bool,
    has_dropped: bool,
}

impl ListText {
    /// Nothing so far.
    pub(crate) fn new(alloc: Global, is_kept: bool) -> ListText
        ensures { kept_if result.is_kept result.bytes.items ≡ kept_if is_kept [] }
    {
        ListText {
            bytes: Vec::new(alloc),
            is_kept,
            has_dropped: false,
        }
    }

    /// Whether some of it was dropped.
    pub(crate) fn has_dropped(&self) -> bool
        ensures { MayBeDropped (kept_if self.now.is_kept self.now.bytes.items) result }
    {
        !self.is_kept && self.has_dropped
    }

    /// All of it, where it was kept.
    pub(crate) fn into_kept(self) -> Option<Vec<u8>>
        ensures { option_map (λ v. v.items) result ≡ kept_if self.is_kept self.bytes.items }
    {
        let ListText { bytes, is_kept, .. } = self;
        if is_kept { Some(bytes) } else { None }
    }
}

impl Write for ListText {
    ghost contents = { λ t. kept_if t.is_kept t.bytes.items };

    fn write(&mut self, buf: &[u8]) -> io::Result<usize> {
        if self.is_kept {
            self.bytes.extend_from_slice(buf)?;
        } else {
            self.has_dropped = self.has_dropped || !buf.is_empty();
        }
        Ok(buf.len())
    }

    fn flush(&mut self) -> io::Result<()> {
        Ok(())
    }
}
