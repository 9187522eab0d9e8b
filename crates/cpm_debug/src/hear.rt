//! Hearing lines.
ghost use Rattle.std.specs.Prelude.{◌≡◌, IfErr, IfOk};
ghost use Rattle.cpm_debug.specs.Debug.{IsReadFailure};
ghost use Rattle.cpm_debug.specs.Hearing.{Hears, line_in, without_end};

use crate::error::DebugError;
use cpm_script::without_return;
use std::alloc::Global;
use std::io;
use std::io::BufRead;

/// A line without the newline that ends it, and without the carriage return before that.
pub(crate) fn without_end(line: &[u8]) -> &[u8]
    ensures { result.now ≡ without_end line.now }
{
    match line.split_last() {
        Some((b'\n', front)) => without_return(front),
        _ => line,
    }
}

/// The next line with its end, if it ends within so many bytes, which are then fewer.
fn next_line<R: BufRead>(
    alloc: Global,
    input: &mut R,
    room: &mut usize,
) -> io::Result<Option<Vec<u8>>>
    ensures { IfOk result (λ line. Hears room.old room.new (R.remaining input.old) (R.remaining input.new) (line_in line)) }
{
    let mut line = Vec::new(alloc);
    let count = input.read_until(b'\n', &mut line)?;
    if count == 0 {
        return Ok(None);
    }
    if count > *room {
        return Ok(None);
    }
    *room -= count;
    Ok(Some(line))
}

/// The next line with its end, if it ends within so many bytes, which are then fewer; an error says why it can't be read.
pub(crate) fn hear<R: BufRead>(
    alloc: Global,
    input: &mut R,
    room: &mut usize,
) -> Result<Option<Vec<u8>>, DebugError>
    ensures line { IfOk result (λ line. Hears room.old room.new (R.remaining input.old) (R.remaining input.new) (line_in line)) }
    ensures failed { IfErr result IsReadFailure }
{
    match next_line(alloc, input, room) {
        Ok(line) => Ok(line),
        Err(error) => Err(DebugError::of_read(error)),
    }
}
