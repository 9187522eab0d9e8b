//! Sessions that are saved, and sessions that are closed.
ghost use Rattle.std.specs.Prelude.{◌≡◌, ◌++◌, ◌∷◌, [], IfOk, IfSome, List, Ok, Option, Some, false, map};
ghost use Rattle.std.specs.List.{concat, list_any};
ghost use Rattle.std.specs.Str.{bytes_eq};
ghost use Rattle.cpm_protocol.specs.Requests.{Close, Save, drive_names_of, text_if};
ghost use Rattle.cpm_slots.specs.Drives.{drive_image};
ghost use Rattle.cpm_slots.specs.Host.{after_ask, slot_at};
ghost use Rattle.cpm_slots.specs.Serving.{Closes};
ghost use Rattle.cpm_store.specs.Writes.{NamedBytes, named_output};
ghost use Rattle.cpm_serve.specs.DriveFiles.{stored_answer};
ghost use Rattle.cpm_serve.specs.Drives.{named_drive_outputs, with_output};
ghost use Rattle.cpm_serve.specs.Folder.{AccessesLead, write_answer};
ghost use Rattle.cpm_serve.specs.Owned.{owned_answer};
ghost use Rattle.cpm_serve.specs.Reading.{AreMade, AreOutputsWritten, outputs_had};
ghost use Rattle.cpm_serve.specs.Seen.{save_refusal};
ghost use Rattle.cpm_serve.specs.Served.{is_no_name};
ghost use Rattle.cpm_serve.specs.ServedWith.{IsRequestServedWith};
ghost use Rattle.cpm_serve.specs.Slot.{look_answer};

use crate::folder::{Folder, FolderError, write_file, write_refusal};
use crate::owned::{OwnedReply, refused};
use crate::seen::{look_seen, save_refusal};
use cpm_flags::Cpu;
use cpm_geom::Image;
use cpm_protocol::{DriveNames, WireRefusal, WireReply};
use cpm_slots::{Host, SlotId};
use cpm_store::Output;
use std::alloc::{AllocError, Global};

/// The reply where so many bytes were to be written.
pub(crate) fn stored(count: usize, outcome: Result<(), FolderError>) -> OwnedReply
    ensures { owned_answer result ≡ stored_answer count (write_answer outcome) }
{
    match outcome {
        Ok(()) => OwnedReply::Plain(WireReply::Written {
            bytes: count as u64,
        }),
        Err(error) => refused(write_refusal(error)),
    }
}

/// Writes the state of a session as a file.
pub(crate) fn save<F: Folder>(
    host: &mut Host,
    alloc: Global,
    folder: &mut F,
    slot: u64,
    file: &str,
) -> OwnedReply
    ensures { IsRequestServedWith (AccessesLead F.does folder.old folder.new) (Save slot file.now) host.old.host host.new.host (owned_answer result) }
{
    match host.save(alloc, SlotId(slot)) {
        Ok(bytes) => stored(bytes.as_slice().len(), write_file(folder, file, bytes)),
        Err(error) => refused(save_refusal(error)),
    }
}

/// Whether a file of a name is among these.
fn has_name(files: &[Output<'_>], name: &str) -> bool
    ensures { result ≡ list_any (λ file. bytes_eq name.now file.name.now) files.now }
{
    files.iter().any(|file| name == file.name)
}

/// Files, and an image as one more.
fn with_image<'a>(
    alloc: Global,
    mut files: Vec<Output<'a>>,
    name: &'a str,
    image: &Image,
) -> Result<Vec<Output<'a>>, AllocError>
    ensures { IfOk result (λ all. map named_output all.items ≡ map named_output files.entry.items ++ (name.entry.now, concat image.now.sectors) ∷ []) }
{
    let bytes = Vec::from_slice(alloc, image.bytes())?;
    files.push(Output { name, bytes })?;
    Ok(files)
}

/// Files, and the image of a slot's drive under a name.
fn with_one_output<'a>(
    host: &Host,
    alloc: Global,
    id: SlotId,
    files: Vec<Output<'a>>,
    drive: u8,
    name: &'a str,
) -> Result<Vec<Output<'a>>, WireRefusal>
    ensures { (wanted : Option (List NamedBytes)) → AreMade wanted (Ok (map named_output files.entry.items))
        → AreMade (with_output (Some name.entry.now) (drive_image drive (slot_at id.0 host.now.host.slots)) wanted) (outputs_had result) }
{
    let Some(image) = host.drive_image(id, drive) else {
        return Err(WireRefusal::BadDrives);
    };
    if has_name(&files, name) {
        return Err(WireRefusal::BadDrives);
    }
    match with_image(alloc, files, name, image) {
        Ok(files) => Ok(files),
        Err(AllocError) => Err(WireRefusal::OutOfMemory),
    }
}

/// The same, where there are files. A fault stays.
fn with_output_named<'a>(
    host: &Host,
    alloc: Global,
    id: SlotId,
    files: Result<Vec<Output<'a>>, WireRefusal>,
    drive: u8,
    name: &'a str,
) -> Result<Vec<Output<'a>>, WireRefusal>
    ensures { (wanted : Option (List NamedBytes)) → AreMade wanted (outputs_had files.entry)
        → AreMade (with_output (Some name.entry.now) (drive_image drive (slot_at id.0 host.now.host.slots)) wanted) (outputs_had result) }
{
    match files {
        Ok(files) => with_one_output(host, alloc, id, files, drive, name),
        Err(refusal) => Err(refusal),
    }
}

/// The same, where there is a name.
fn with_output<'a>(
    host: &Host,
    alloc: Global,
    id: SlotId,
    files: Result<Vec<Output<'a>>, WireRefusal>,
    drive: u8,
    name: Option<&'a str>,
) -> Result<Vec<Output<'a>>, WireRefusal>
    ensures { (wanted : Option (List NamedBytes)) → AreMade wanted (outputs_had files.entry)
        → AreMade (with_output (text_if name.entry) (drive_image drive (slot_at id.0 host.now.host.slots)) wanted) (outputs_had result) }
{
    match name {
        Some(name) => with_output_named(host, alloc, id, files, drive, name),
        None => files,
    }
}

/// The images of a slot's drives, under names.
fn named_drive_outputs<'a>(
    host: &Host,
    alloc: Global,
    id: SlotId,
    out: DriveNames<'a>,
) -> Result<Vec<Output<'a>>, WireRefusal>
    ensures { IfSome (slot_at id.0 host.now.host.slots) (λ s. AreMade (named_drive_outputs (drive_names_of out.entry) s) (outputs_had result)) }
{
    let files = with_output(host, alloc, id, Ok(Vec::new(alloc)), 0, out.a);
    let files = with_output(host, alloc, id, files, 1, out.b);
    let files = with_output(host, alloc, id, files, 2, out.c);
    with_output(host, alloc, id, files, 3, out.d)
}

/// Writes the images of a slot's drives under names.
fn write_named_outputs<F: Folder>(
    host: &Host,
    alloc: Global,
    folder: &mut F,
    id: SlotId,
    out: DriveNames<'_>,
) -> Result<(), WireRefusal>
    ensures { IfSome (slot_at id.0 host.now.host.slots) (λ s. AreOutputsWritten F.does false
        (named_drive_outputs (drive_names_of out.entry) s) folder.old folder.new result) }
{
    let files = match named_drive_outputs(host, alloc, id, out) {
        Ok(files) => files,
        Err(refusal) => return Err(refusal),
    };
    match folder.write(&files) {
        Ok(()) => Ok(()),
        Err(error) => Err(write_refusal(error)),
    }
}

/// The same, where there are names.
fn write_outputs<F: Folder>(
    host: &Host,
    alloc: Global,
    folder: &mut F,
    id: SlotId,
    out: DriveNames<'_>,
) -> Result<(), WireRefusal>
    ensures { IfSome (slot_at id.0 host.now.host.slots) (λ s. AreOutputsWritten F.does (is_no_name (text_if out.entry.a))
        (named_drive_outputs (drive_names_of out.entry) s) folder.old folder.new result) }
{
    match out.a {
        Some(_) => write_named_outputs(host, alloc, folder, id, out),
        None => Ok(()),
    }
}

/// Closes a slot of this processor, and says what is seen of it.
fn finish(host: &mut Host, id: SlotId, cpu: Cpu) -> OwnedReply
    ensures host { host.new.host ≡ after_ask host.old.host id.0 Closes }
    ensures reply { IfSome (slot_at id.0 host.old.host.slots) (λ s. cpu ≡ s.cpu → owned_answer result ≡ look_answer s) }
{
    match host.close(id) {
        Ok(closed) => OwnedReply::Plain(WireReply::Looked(look_seen(cpu, &closed.look))),
        Err(_) => refused(WireRefusal::NoSuchSlot),
    }
}

/// Closes a slot, and says what is seen of it. With names its drives are written first; where they aren't, it stays open.
pub(crate) fn close<F: Folder>(
    host: &mut Host,
    alloc: Global,
    folder: &mut F,
    slot: u64,
    out: DriveNames<'_>,
) -> OwnedReply
    ensures { IsRequestServedWith (AccessesLead F.does folder.old folder.new) (Close slot (drive_names_of out.entry))
        host.old.host host.new.host (owned_answer result) }
{
    let id = SlotId(slot);
    let Ok(cpu) = host.cpu(id) else {
        return refused(WireRefusal::NoSuchSlot);
    };
    match write_outputs(host, alloc, folder, id, out) {
        Ok(()) => finish(host, id, cpu),
        Err(refusal) => refused(refusal),
    }
}
