//! A journal of a host's savings.
ghost use Rattle.std.specs.Prelude.{◌≡◌, IfSome, OnOk};
ghost use Rattle.cpm_slots.specs.Host.{slot_at};
ghost use Rattle.cpm_journal.specs.Entries.{KeptNumber, KeptSaving};
ghost use Rattle.cpm_serve.specs.Compact.{AreSlotsWritten, IsCompact, IsEntryWritten, IsHeadWritten, IsSlotWritten};

use crate::kept::append_saving;
use crate::server::Server;
use cpm_journal::{append_head, append_number};
use cpm_slots::{Host, MOST_SLOTS, SlotId};
use std::alloc::Global;
use std::io;
use std::io::{ErrorKind, Write};

/// Writes the head of a host's journals.
fn write_head<W: Write>(server: &mut Server, alloc: Global, out: &mut W) -> io::Result<()>
    ensures written { OnOk result (IsHeadWritten server.old.host.host (W.contents out.old) (W.contents out.new)) }
    ensures unchanged { server.new ≡ server.old }
{
    let head = server.head();
    let mut line = Vec::new(alloc);
    append_head(&mut line, alloc, &head)?;
    out.write_all(&line)
}

/// Writes the entry of the number that the next slot has.
fn write_number<W: Write>(alloc: Global, next: u64, out: &mut W) -> io::Result<()>
    ensures { OnOk result (IsEntryWritten (KeptNumber next) (W.contents out.old) (W.contents out.new)) }
{
    let mut line = Vec::new(alloc);
    append_number(&mut line, alloc, next)?;
    out.write_all(&line)
}

/// Writes the entry of a saving.
fn write_saving<W: Write>(alloc: Global, saving: &[u8], out: &mut W) -> io::Result<()>
    ensures { OnOk result (IsEntryWritten (KeptSaving saving.now) (W.contents out.old) (W.contents out.new)) }
{
    let mut line = Vec::new(alloc);
    append_saving(&mut line, alloc, saving)?;
    out.write_all(&line)
}

/// Writes the entries of an open slot: its number, and its saving.
fn write_slot<W: Write>(host: &mut Host, alloc: Global, id: SlotId, out: &mut W) -> io::Result<()>
    ensures written { OnOk result (IfSome (slot_at id.0 host.old.host.slots) (λ s. IsSlotWritten host.old.host (record { id = id.0; state = s })
        (W.contents out.old) (W.contents out.new))) }
    ensures unchanged { host.new ≡ host.old }
{
    let Ok(saving) = host.save(alloc, id) else {
        return Err(io::Error::from(ErrorKind::OutOfMemory));
    };
    write_number(alloc, id.0, out)?;
    write_saving(alloc, &saving, out)
}

/// Writes the entries of the open slots, in the order of their numbers.
fn write_slots<W: Write>(host: &mut Host, alloc: Global, out: &mut W) -> io::Result<()>
    ensures written { OnOk result (AreSlotsWritten host.old.host host.old.host.slots (W.contents out.old) (W.contents out.new)) }
    ensures unchanged { host.new ≡ host.old }
{
    host.slots_are_orderly();
    for place in 0..MOST_SLOTS {
        let Some(id) = host.id_at(place) else {
            return Ok(());
        };
        write_slot(host, alloc, id, out)?;
    }
    Ok(())
}

/// Writes a journal of a host's savings: done again, it makes the host with its sessions and the number of its next opening. It fails where it can't be
/// written, or if out of memory.
pub fn write_journal<W: Write>(server: &mut Server, alloc: Global, out: &mut W) -> io::Result<()>
    ensures made { OnOk result (IsCompact server.old.host.host (W.contents out.old) (W.contents out.new)) }
    ensures unchanged { server.new ≡ server.old }
{
    write_head(server, alloc, out)?;
    write_slots(&mut server.host, alloc, out)?;
    write_number(alloc, server.host.openings(), out)
}
