//! The text that a machine shows, as it is kept for what a script looks for.

ghost use Rattle.std.specs.Prelude.{◌≡◌, true, IfErr, IfOk, OnErr, OnOk};
ghost use Rattle.std.specs.Io.KnownBytes.{Appends};
ghost use Rattle.cpm_play.specs.Cued.{IsOutputTaken, IsUntaken};
ghost use Rattle.cpm_play.specs.Output.{output_state};
ghost use Rattle.cpm_play.specs.Playing.{HasText, without_text};
ghost use Rattle.cpm_play.specs.Shown.{HasGrown};

use crate::live::{LiveError, show};
use crate::machine::{CHUNK, move_list, write_at_once};
use crate::shown::Shown;
use cpm_machine::Machine;
use std::io;
use std::io::Write;

/// Keeps more bytes; says whether there was memory for all, where there was for those before.
fn keep(shown: &mut Shown<'_>, whole: bool, bytes: &[u8]) -> bool
    ensures whole { result ≡ true → whole ≡ true }
    ensures kept { result ≡ true → HasGrown shown.old shown.new bytes.now }
{
    shown.add(bytes) && whole
}

/// Moves all console bytes to the console, and keeps them; says whether there was memory for all.
fn move_kept<W: Write>(
    machine: &mut Machine,
    shown: &mut Shown<'_>,
    out: &mut W,
) -> io::Result<bool>
    ensures state { OnOk result (machine.new ≡ without_text machine.old) }
    ensures text { OnOk result (Appends (W.contents out.old) (W.contents out.new) machine.old.session.console.screen) }
    ensures kept { IfOk result (λ whole. whole ≡ true → HasGrown shown.old shown.new machine.old.session.console.screen) }
    ensures refused { OnErr result (HasText machine.old) }
{
    let mut chunk = [0u8; CHUNK];
    let mut whole = true;
    loop {
        let count = machine.take(&mut chunk);
        if count == 0 {
            return Ok(whole);
        }
        write_at_once(out, &chunk[..count])?;
        whole = keep(shown, whole, &chunk[..count]);
    }
}

/// Moves all console bytes to the console, and keeps them if so asked. Then it moves all list bytes to the list device.
pub(crate) fn show_kept<W: Write, L: Write>(
    machine: &mut Machine,
    keeps: bool,
    shown: &mut Shown<'_>,
    out: &mut W,
    list: &mut L,
) -> Result<(), LiveError>
    ensures taken { OnOk result (IsOutputTaken machine.old machine.new
        (output_state (W.contents out.old) (L.contents list.old)) (output_state (W.contents out.new) (L.contents list.new))) }
    ensures kept { OnOk result (keeps ≡ true → HasGrown shown.old shown.new machine.old.session.console.screen) }
    ensures refused { IfErr result (IsUntaken machine.old machine.new
        (output_state (W.contents out.old) (L.contents list.old)) (output_state (W.contents out.new) (L.contents list.new))) }
{
    if !keeps {
        return show(machine, out, list);
    }
    match move_kept(machine, shown, out) {
        Err(error) => Err(LiveError::Unwritable(error)),
        Ok(whole) => match move_list(machine, list) {
            Err(error) => Err(LiveError::Unprinted(error)),
            Ok(()) if whole => Ok(()),
            Ok(()) => Err(LiveError::OutOfMemory),
        },
    }
}
