//! A writer that fails, or takes little.
ghost use Rattle.std.specs.Prelude.{Some};

use std::alloc::Global;
use std::io;
use std::io::{ErrorKind, Write};

/// Keeps what it is given, at most `most` bytes at a time, and fails once when it holds `fails_at` bytes.
#[derive(Drop)]
pub(crate) struct Recorder {
    pub bytes: Vec<u8>,
    pub most: usize,
    pub fails_at: Option<usize>,
}

impl Recorder {
    /// A writer that takes all.
    pub fn new(alloc: Global) -> Recorder {
        Recorder {
            bytes: Vec::new(alloc),
            most: usize::MAX,
            fails_at: None,
        }
    }
}

impl Write for Recorder {
    ghost contents = { λ r. Some r.bytes.items };

    fn write(&mut self, buf: &[u8]) -> io::Result<usize> {
        let room = match self.fails_at {
            Some(at) => at.saturating_sub(self.bytes.len()),
            None => usize::MAX,
        };
        if room == 0 {
            self.fails_at = None;
            return Err(io::Error::from(ErrorKind::StorageFull));
        }
        let count = buf.len().min(self.most).min(room);
        self.bytes.extend_from_slice(&buf[..count])?;
        Ok(count)
    }

    fn flush(&mut self) -> io::Result<()> {
        Ok(())
    }
}
