//! A session without its memory, in a saving.

ghost use Rattle.std.specs.Prelude.{◌≡◌, OnOk, IfOk};
ghost use Rattle.cpm_saved.specs.Reading.{IsPartAppended, IsPartRead};
ghost use Rattle.cpm_saved.specs.SavedSession.{IsSessionFit, place_fields, place_layout, saved_session_fields, saved_session_layout};

use crate::append::{append_byte, append_word};
use crate::command_file::{append_file, read_file};
use crate::console::{append_console, append_line, read_console, read_line};
use crate::disks::{append_disks, disks_are_whole, read_disks};
use crate::mode::{append_mode, mode_bytes, read_mode};
use crate::part::SavingPart;
use crate::reader::{Reader, RestoreError};
use crate::registers::{append_registers, read_registers};
use cpm_bdos::{SectorPlace, Session};
use std::alloc::{AllocError, Global};

/// Appends the sector that the BIOS reads or writes next.
fn append_place(out: &mut Vec<u8>, place: SectorPlace) -> Result<(), AllocError>
    ensures { OnOk result (IsPartAppended place_layout (place_fields place) out.old.items out.new.items) }
{
    append_byte(out, place.drive)?;
    append_word(out, place.track)?;
    append_word(out, place.sector)?;
    append_word(out, place.buffer)?;
    Ok(())
}

/// Reads the sector that the BIOS reads or writes next.
fn read_place(reader: &mut Reader<'_>) -> Result<SectorPlace, RestoreError>
    ensures { IsPartRead place_layout place_fields reader.old reader.new result }
{
    Ok(SectorPlace {
        drive: reader.byte(SavingPart::SectorPlace)?,
        track: reader.word(SavingPart::SectorPlace)?,
        sector: reader.word(SavingPart::SectorPlace)?,
        buffer: reader.word(SavingPart::SectorPlace)?,
    })
}

/// Appends a session.
pub fn append_session(out: &mut Vec<u8>, session: &Session) -> Result<(), AllocError>
    ensures appended { OnOk result (IsPartAppended saved_session_layout (saved_session_fields session.now) out.old.items out.new.items) }
    ensures fits { IfOk result (λ _. IsSessionFit session.now) }
{
    append_registers(out, session.regs)?;
    append_mode(out, session.mode)?;
    append_word(out, session.buffer)?;
    append_place(out, session.place)?;
    append_file(out, &session.file)?;
    append_line(out, &session.line)?;
    append_console(out, &session.console)?;
    append_disks(out, &session.disks)?;
    Ok(())
}

/// Reads a session. It is refused if out of memory too.
pub fn read_session(alloc: Global, reader: &mut Reader<'_>) -> Result<Session, RestoreError>
    ensures { IsPartRead saved_session_layout saved_session_fields reader.old reader.new result }
{
    Ok(Session {
        regs: read_registers(reader)?,
        mode: read_mode(reader)?,
        buffer: reader.word(SavingPart::Buffer)?,
        place: read_place(reader)?,
        file: read_file(reader)?,
        line: read_line(reader)?,
        console: read_console(alloc, reader)?,
        disks: read_disks(alloc, reader)?,
    })
}

/// Does nothing, and says of every session that its mode's numbers fit, and that its drives have whole images.
pub fn session_is_fit(session: &Session)
    ensures { IsSessionFit session.now }
{
    let _ = mode_bytes(session.mode);
    disks_are_whole(&session.disks);
}
