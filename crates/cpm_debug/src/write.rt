//! Writing answers.
ghost use Rattle.std.specs.Prelude.{◌≡◌, ◌++◌, OnOk};
ghost use Rattle.std.specs.Io.KnownBytes.{Appends};
ghost use Rattle.cpm_debug.specs.Dialog.{ended_line, with_source, without_console};

use cpm_machine::Machine;
use std::io;
use std::io::Write;

/// How many bytes are taken at once.
const CHUNK: usize = 8192;

/// Writes a line and its end.
fn put_line<W: Write>(out: &mut W, line: &[u8]) -> io::Result<()>
    ensures { OnOk result (Appends (W.contents out.old) (W.contents out.new) (ended_line line.now)) }
{
    out.write_all(line)?;
    out.write_all(b"\n")?;
    Ok(())
}

/// Writes a line and its end, and flushes.
pub(crate) fn write_line<W: Write>(out: &mut W, line: &str) -> io::Result<()>
    ensures { OnOk result (Appends (W.contents out.old) (W.contents out.new) (ended_line line.now)) }
{
    put_line(out, line.as_bytes())?;
    out.flush()?;
    Ok(())
}

/// Writes a line, and the line of a listing after it, where it is no empty one.
pub(crate) fn write_with_source<W: Write>(out: &mut W, line: &str, source: &[u8]) -> io::Result<()>
    ensures { OnOk result (Appends (W.contents out.old) (W.contents out.new) (with_source line.now source.now)) }
{
    if source.is_empty() {
        return write_line(out, line);
    }
    put_line(out, line.as_bytes())?;
    put_line(out, source)?;
    out.flush()?;
    Ok(())
}

/// Moves all console bytes to the writer.
fn move_text<W: Write>(machine: &mut Machine, out: &mut W) -> io::Result<()>
    ensures state { OnOk result (machine.new ≡ without_console machine.old) }
    ensures text { OnOk result (Appends (W.contents out.old) (W.contents out.new)
        machine.old.session.console.screen) }
{
    let mut chunk = [0u8; CHUNK];
    loop {
        let count = machine.take(&mut chunk);
        if count == 0 {
            return Ok(());
        }
        out.write_all(&chunk[..count])?;
    }
}

/// Writes all console bytes and a line's end.
pub(crate) fn write_text<W: Write>(machine: &mut Machine, out: &mut W) -> io::Result<()>
    ensures state { OnOk result (machine.new ≡ without_console machine.old) }
    ensures text { OnOk result (Appends (W.contents out.old) (W.contents out.new)
        (ended_line machine.old.session.console.screen)) }
{
    move_text(machine, out)?;
    write_line(out, "")
}
