//! Machines that were saved in files.
ghost use Rattle.std.specs.Prelude.{◌≡◌, IfErr, IfOk, Ok, count_by, is_some};
ghost use Rattle.cpm_machine.specs.Saving.{IsUnrestored, bytes_of_saving, restored};
ghost use Rattle.cpm_batch.specs.Savings.{IsUnreadSaving, drive_count, saving_view, version_in};

use crate::error::ReadError;
use cpm_geom::Image;
use cpm_machine::saving::VERSION;
use cpm_machine::{Machine, RestoreError, SavingDamage, SavingPart, SystemDigest};
use cpm_shown::{ShownWord, shown};
use std::alloc::{AllocError, Global};
use std::fmt;

/// A machine that was saved, and the digest of the system drive over which it was.
#[derive(Drop)]
pub struct SavedMachine {
    pub digest: SystemDigest,
    pub machine: Machine,
}

/// How many drives there are.
fn count_drives(drives: &[Option<Image>]) -> usize
    ensures { result ≡ count_by is_some drives.now }
{
    let mut count = 0;
    for drive in drives {
        if drive.is_some() {
            count += 1;
        }
    }
    count
}

impl SavedMachine {
    /// The bytes of its saving.
    pub fn bytes(&self, alloc: Global) -> Result<Vec<u8>, AllocError>
        ensures bytes { IfOk result (λ bytes. bytes.items ≡ bytes_of_saving (saving_view self.now)) }
        ensures restores { IfOk result (λ bytes. restored bytes.items ≡ Ok (saving_view self.now)) }
    {
        self.machine.save(alloc, &self.digest)
    }

    /// One more machine like it.
    pub fn machine(&self, alloc: Global) -> Result<Machine, AllocError>
        ensures { IfOk result (λ m. m ≡ self.now.machine) }
    {
        let bytes = self.bytes(alloc)?;
        match Machine::restored(alloc, bytes.as_slice()) {
            Ok((_, machine)) => Ok(machine),
            Err(RestoreError::OutOfMemory) => Err(AllocError),
            Err(RestoreError::Damaged(_)) => unreachable!(),
        }
    }

    /// The count of steps that it was saved at.
    pub fn count(&self) -> u64
        ensures { result ≡ self.now.machine.count }
    {
        self.machine.look().count
    }

    /// How many drives it has, besides the system drive.
    pub(crate) fn drive_count(&self, alloc: Global) -> Result<usize, AllocError>
        ensures { IfOk result (λ count. count ≡ drive_count self.now.machine) }
    {
        let closed = self.machine(alloc)?.finish();
        Ok(count_drives(&closed.drives))
    }
}

/// Why the bytes of a file are no saving: the part that can't be read, and where it begins.
#[derive(Clone, Copy, Debug, Drop)]
pub struct SavingRefusal {
    /// The name of the file.
    pub name: ShownWord,
    pub damage: SavingDamage,
    /// The number of the format that stands in the file.
    pub version: u8,
}

/// The place of the number of the format.
const VERSION_PLACE: usize = 8;

/// The number of the format that stands in the bytes of a saving; 0 where none does.
pub fn version_in(bytes: &[u8]) -> u8
    ensures { result ≡ version_in bytes.now }
{
    match bytes.get(VERSION_PLACE) {
        Some(version) => *version,
        None => 0,
    }
}

impl fmt::Display for SavingRefusal {
    fn fmt<W: fmt::Write>(&self, f: &mut fmt::Formatter<W>) -> fmt::Result {
        let SavingRefusal {
            name,
            damage,
            version,
        } = *self;
        let at = damage.at;
        match damage.field {
            SavingPart::Magic => write!(f, "'{name}' is no saved machine"),
            SavingPart::Version => write!(
                f,
                "'{name}' is of version {version} of the format, and this program knows version {VERSION}"
            ),
            SavingPart::Rest => write!(
                f,
                "'{name}' has more behind the saved machine, from byte {at} on"
            ),
            part => {
                let part = part_name(part);
                write!(
                    f,
                    "'{name}' is damaged: at byte {at} are no {part} of a saved machine"
                )
            }
        }
    }
}

/// What a part of a saving is called.
fn part_name(part: SavingPart) -> &'static str {
    match part {
        SavingPart::Magic | SavingPart::Version | SavingPart::Rest => "head",
        SavingPart::SystemDigest => "digest",
        SavingPart::Processor => "processor",
        SavingPart::Program => "mark of a program",
        SavingPart::Quota => "quota",
        SavingPart::Count => "count of steps",
        SavingPart::End => "end",
        SavingPart::Registers => "registers",
        SavingPart::Page => "pages",
        SavingPart::Keys => "keys",
        SavingPart::ConsoleBytes => "console bytes",
        SavingPart::ListBytes => "list bytes",
        SavingPart::Column => "column",
        SavingPart::ListEcho => "echo",
        SavingPart::Line => "line",
        SavingPart::Mode => "step",
        SavingPart::Buffer => "buffer",
        SavingPart::SectorPlace => "sector",
        SavingPart::CommandFile => "command file",
        SavingPart::Drive => "drives",
        SavingPart::Image => "images",
        SavingPart::CurrentDrive => "current drive",
        SavingPart::User => "user",
        SavingPart::Search => "search",
    }
}

/// The refusal of the saving in a file of this name.
fn unread(name: &str, error: RestoreError, bytes: &[u8]) -> ReadError
    ensures { IsUnrestored (restored bytes.now) error → IsUnreadSaving name.now bytes.now result }
{
    match error {
        RestoreError::Damaged(damage) => ReadError::Saving(SavingRefusal {
            name: shown(name),
            damage,
            version: version_in(bytes),
        }),
        RestoreError::OutOfMemory => ReadError::OutOfMemory,
    }
}

/// The machine that was saved in a file of this name, by its bytes. `Saving` names the part that makes them no saving.
pub(crate) fn restored_machine(
    alloc: Global,
    name: &str,
    bytes: &[u8],
) -> Result<SavedMachine, ReadError>
    ensures read { IfOk result (λ s. restored bytes.now ≡ Ok (saving_view s)) }
    ensures refusal { IfErr result (IsUnreadSaving name.now bytes.now) }
{
    let (digest, machine) = match Machine::restored(alloc, bytes) {
        Ok(restored) => restored,
        Err(error) => return Err(unread(name, error, bytes)),
    };
    Ok(SavedMachine { digest, machine })
}
