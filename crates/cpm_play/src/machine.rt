//! The turns of one machine by itself, and the output that is taken after each.

ghost use Rattle.std.specs.Prelude.{◌≡◌, ◌<◌, OnOk, OnErr};
ghost use Rattle.std.specs.Io.KnownBytes.{Appends};
ghost use Rattle.cpm_play.specs.Playing.{HasList, HasText, without_list, without_text};

use cpm_machine::Machine;
use std::io;
use std::io::Write;

/// How many steps a turn has at most, so that output appears as it comes.
pub(crate) const QUANTUM: u64 = 100_000;

/// The same for a machine: where it waits for a key nothing comes before the next one, so all waits are one turn.
pub(crate) fn quantum_of(machine: &Machine) -> u64
    ensures { 0 < result }
{
    if machine.look().waiting {
        u64::MAX
    } else {
        QUANTUM
    }
}

/// How many bytes are taken at once. (They lie on the stack; no more than some 4,000 wait.)
pub(crate) const CHUNK: usize = 2048;

/// Writes bytes at once.
pub(crate) fn write_at_once<W: Write>(out: &mut W, bytes: &[u8]) -> io::Result<()>
    ensures { OnOk result (Appends (W.contents out.old) (W.contents out.new) bytes.now) }
{
    out.write_all(bytes)?;
    out.flush()
}

/// Moves all console bytes to the console.
pub(crate) fn move_text<W: Write>(machine: &mut Machine, out: &mut W) -> io::Result<()>
    ensures state { OnOk result (machine.new ≡ without_text machine.old) }
    ensures text { OnOk result (Appends (W.contents out.old) (W.contents out.new) machine.old.session.console.screen) }
    ensures refused { OnErr result (HasText machine.old) }
{
    let mut chunk = [0u8; CHUNK];
    loop {
        let count = machine.take(&mut chunk);
        if count == 0 {
            return Ok(());
        }
        write_at_once(out, &chunk[..count])?;
    }
}

/// Moves all list bytes to the list device.
pub(crate) fn move_list<L: Write>(machine: &mut Machine, list: &mut L) -> io::Result<()>
    ensures state { OnOk result (machine.new ≡ without_list machine.old) }
    ensures list { OnOk result (Appends (L.contents list.old) (L.contents list.new) machine.old.session.console.printer) }
    ensures refused { OnErr result (HasList machine.old) }
{
    let mut chunk = [0u8; CHUNK];
    loop {
        let count = machine.take_list(&mut chunk);
        if count == 0 {
            return Ok(());
        }
        write_at_once(list, &chunk[..count])?;
    }
}
