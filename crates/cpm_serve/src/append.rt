//! Bytes that are written. Where that fails, what was written is a beginning of them. (`write_all` doesn't say so.)
ghost use Rattle.cpm_serve.specs.Written.{AppendsFirst};
ghost use Rattle.std.specs.Io.KnownBytes.{Appends};
ghost use Rattle.std.specs.Prelude.{OnErr, OnOk};

use std::io;
use std::io::{ErrorKind, Write};

/// Writes bytes. Where that fails it has written a beginning of them, which may be nothing or all.
pub(crate) fn write_bytes<W: Write>(out: &mut W, bytes: &[u8]) -> io::Result<()>
    ensures whole { OnOk result (Appends (W.contents out.old) (W.contents out.new) bytes.now) }
    ensures begun { OnErr result (AppendsFirst (W.contents out.old) (W.contents out.new) bytes.now) }
{
    let mut rest = bytes;
    for _write in 0..u64::MAX {
        if rest.is_empty() {
            return Ok(());
        }
        match out.write(rest) {
            Ok(0) => return Err(io::Error::from(ErrorKind::WriteZero)),
            Ok(count) => rest = &rest[count..],
            Err(error) if error.kind() == ErrorKind::Interrupted => {}
            Err(error) => return Err(error),
        }
    }
    Err(io::Error::from(ErrorKind::Other))
}

/// Writes bytes, and flushes them. Where that fails it has written a beginning of them, which may be nothing or all.
pub(crate) fn write_flushed<W: Write>(out: &mut W, bytes: &[u8]) -> io::Result<()>
    ensures whole { OnOk result (Appends (W.contents out.old) (W.contents out.new) bytes.now) }
    ensures begun { OnErr result (AppendsFirst (W.contents out.old) (W.contents out.new) bytes.now) }
{
    write_bytes(out, bytes)?;
    out.flush()
}
