//! The functions on a file control block in memory.

ghost use Rattle.std.specs.Prelude.{◌≡◌};
ghost use Rattle.cpm_drives.specs.Calls.{file_call};
ghost use Rattle.cpm_drives.specs.Functions.{dpb_named, new_name, file_function, file_function_bytes, bytes_call};

use crate::disks::Disks;
use cpm_geom::{Dpb, Image};
use cpm_volume::{Fault, Fcb};

/// A function of the BDOS on a file control block.
#[derive(Clone, Copy, Debug, PartialEq, Eq)]
pub enum FileFunction {
    OpenFile,
    CloseFile,
    SearchFirst,
    SearchNext,
    EraseFiles,
    ReadNext,
    WriteNext,
    MakeFile,
    RenameFiles,
    SetAttributes,
    ReadRandom,
    WriteRandom,
    ComputeSize,
    SetRandomRecord,
    WriteRandomCleared,
}

impl Disks {
    /// A function over the 36 bytes of a file control block and the buffer of a record, with its code, or the fault of
    /// the drive that the file control block names.
    pub fn call(
        &mut self,
        system: &Image,
        function: FileFunction,
        bytes: &mut [u8; 36],
        buffer: &mut [u8; 128],
    ) -> Result<u8, Fault>
        ensures { bytes_call result self.new bytes.new buffer.new ≡ file_function_bytes function self.old system.now bytes.old buffer.old }
    {
        let dpb = self.dpb_named(system, bytes[0]);
        let mut fcb = Fcb::from_bytes(&dpb, bytes);
        let answer = self.file_function(system, function, bytes, &mut fcb, buffer);
        *bytes = fcb.to_bytes(&dpb);
        answer
    }

    /// The parameters of the drive that a file control block names; of the system drive where there is none.
    #[tactic(auto, unfolding(crate::specs::Functions::dpb_named))]
    fn dpb_named(&self, system: &Image, name: u8) -> Dpb
        ensures { result ≡ dpb_named self.now system.now name }
    {
        let drive = self.drive_named(name);
        self.image_at(system, drive).format().dpb()
    }

    fn file_function(
        &mut self,
        system: &Image,
        function: FileFunction,
        bytes: &[u8; 36],
        fcb: &mut Fcb,
        buffer: &mut [u8; 128],
    ) -> Result<u8, Fault>
        ensures { file_call result self.new fcb.new buffer.new ≡ file_function function bytes.now self.old system.now fcb.old buffer.old }
    {
        match function {
            FileFunction::OpenFile => self.open_file(system, fcb),
            FileFunction::CloseFile => self.close_file(system, fcb),
            FileFunction::SearchFirst => self.search_first(system, fcb, buffer),
            FileFunction::SearchNext => Ok(self.search_next(system, buffer)),
            FileFunction::EraseFiles => self.erase_files(system, fcb),
            FileFunction::ReadNext => self.read_next(system, fcb, buffer),
            FileFunction::WriteNext => self.write_next(system, fcb, buffer),
            FileFunction::MakeFile => self.make_file(system, fcb),
            FileFunction::RenameFiles => self.rename_files(system, fcb, &new_name(bytes)),
            FileFunction::SetAttributes => self.set_attributes(system, fcb),
            FileFunction::ReadRandom => self.read_random(system, fcb, buffer),
            FileFunction::WriteRandom => self.write_random(system, fcb, buffer),
            FileFunction::ComputeSize => self.compute_size(system, fcb),
            FileFunction::SetRandomRecord => self.set_random_record(system, fcb),
            FileFunction::WriteRandomCleared => self.write_random_cleared(system, fcb, buffer),
        }
    }
}

/// The new name in the second half of a file control block.
fn new_name(bytes: &[u8; 36]) -> [u8; 11]
    ensures { result ≡ new_name bytes.now }
{
    let mut name = [0; 11];
    name.copy_from_slice(&bytes[17..28]);
    name
}
