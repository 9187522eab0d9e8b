//! The command `list`.
ghost use Rattle.std.specs.Prelude.{◌≡◌, ◌++◌, ◌∷◌, [], IfErr, OnOk};
ghost use Rattle.std.specs.Io.KnownBytes.{Appends};
ghost use Rattle.cpm_host.specs.Listing.{IsListingRefusal, four, program_listing};

use crate::error::HostError;
use cpm_flags::Cpu;
use cpm_listing::{instruction_length, instruction_line};
use std::io;
use std::io::Write;

/// Where a program begins.
const FIRST: usize = 0x100;

/// The four bytes that a text begins with; bytes after its end are 0.
fn four(bytes: &[u8]) -> [u8; 4]
    ensures { result ≡ four bytes.now }
{
    match bytes {
        [] => [0, 0, 0, 0],
        [a] => [*a, 0, 0, 0],
        [a, b] => [*a, *b, 0, 0],
        [a, b, c] => [*a, *b, *c, 0],
        [a, b, c, d, ..] => [*a, *b, *c, *d],
    }
}

/// Writes a line and its end.
fn write_line<W: Write>(out: &mut W, line: &str) -> io::Result<()>
    ensures { OnOk result (Appends (W.contents out.old) (W.contents out.new) (line.now ++ 0x0A ∷ [])) }
{
    out.write_all(line.as_bytes())?;
    out.write_all(b"\n")?;
    Ok(())
}

/// Writes a line for each instruction of a processor that begins within the bytes, of which the first lies at 0100h.
fn write_listing<W: Write>(cpu: Cpu, bytes: &[u8], out: &mut W) -> io::Result<()>
    ensures { OnOk result (Appends (W.contents out.old) (W.contents out.new) (program_listing cpu 256 0 bytes.now)) }
{
    let mut rest = bytes;
    while !rest.is_empty() {
        let address = FIRST + (bytes.len() - rest.len());
        let instruction = four(rest);
        let line = instruction_line(cpu, (address % 0x1_0000) as u16, instruction);
        write_line(out, line.as_str())?;
        let length = instruction_length(cpu, instruction);
        rest = rest.split_at(length.min(rest.len())).1;
    }
    out.flush()?;
    Ok(())
}

/// Lists a program as instructions of a processor, a line for each that begins within it. Bytes after its end are 0, and
/// addresses go on at 0000h after FFFFh.
///
/// `OutputUnwritable` has the writer's error, who may have got the beginning. It comes only where there is something to write.
pub fn run_list<W: Write>(cpu: Cpu, program: &[u8], out: &mut W) -> Result<(), HostError>
    ensures text { OnOk result (Appends (W.contents out.old) (W.contents out.new) (program_listing cpu 256 0 program.now)) }
    ensures refusal { IfErr result (IsListingRefusal program.now) }
{
    if program.is_empty() {
        return Ok(());
    }
    match write_listing(cpu, program, out) {
        Ok(()) => Ok(()),
        Err(reason) => Err(HostError::OutputUnwritable(reason)),
    }
}
