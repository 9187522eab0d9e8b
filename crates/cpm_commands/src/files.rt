//! The files of a command.
ghost use Rattle.std.specs.Prelude.{◌≡◌, Bool, List, Option, Some, None, IfErr, IfOk, OnOk, map, string_bytes};
ghost use Rattle.cpm_commands.specs.Files.{AreUnwritten, AreWritten, IsUnread, IsUnwritten, IsWritingStopped};
ghost use Rattle.cpm_commands.specs.Plan.{Plan, plan_view};
ghost use Rattle.cpm_host.specs.Refusals.{IsFileRefusal};
ghost use Rattle.cpm_host.specs.declared.error.HostError.{HostError};
ghost use Rattle.cpm_store.specs.Files.{StoreName};
ghost use Rattle.cpm_store.specs.Log.{AreWrites, Gave, LogLeadsBy, Missed};
ghost use Rattle.cpm_store.specs.Writes.{named_output};

use crate::plan::FilePlan;
use cpm_host::{HostError, ReadError, RunError, Store, StoreError, shown};
use cpm_store::{Output, write_all};
use std::alloc::Global;

/// The files of a command: a store that sees to all that the command names before any of it is read, and gives what was written its names together in the end.
pub trait CommandFiles: Store {
    // From this state to that one by seeing to the files of a plan, which is refused so, or isn't.
    ghost sees_to: { Self → Plan → Option HostError → Self → Type 0 };

    // From this state to that one by giving what was written its names, which is refused so, or isn't.
    ghost gives_names: { Self → Option HostError → Self → Type 0 };

    /// Sees to the files of a plan, of which none is read or written meanwhile: whether they may be written, and none of them twice or over another one, and
    /// holds those that are read and then written.
    fn see_to(&mut self, plan: &FilePlan<'_>) -> Result<(), HostError>
        ensures seen { OnOk result (sees_to self.old (plan_view plan.now) None self.new) }
        ensures refused { IfErr result (λ e. sees_to self.old (plan_view plan.now) (Some e) self.new) };

    // That something has a name, or nothing has it.
    ghost tells_name: { Self → StoreName → Bool → Type 0 };

    // That a folder has it, or none.
    ghost tells_folder: { Self → StoreName → Bool → Type 0 };

    /// Whether something has a name.
    fn has(&self, name: &str) -> bool
        ensures { tells_name self.now name.now result };

    /// Whether a folder has a name.
    fn is_folder(&self, name: &str) -> bool
        ensures { tells_folder self.now name.now result };

    // That a folder has files of these names.
    ghost lists: { Self → StoreName → List StoreName → Type 0 };

    // That the files of a folder can't be listed, as this refusal says.
    ghost unlists: { Self → StoreName → HostError → Type 0 };

    /// The names of the files in a folder, in their order. Other folders in it aren't among them, nor what is hidden, whose name begins with a dot.
    fn files_in(&self, alloc: Global, folder: &str) -> Result<Vec<String>, HostError>
        ensures listed { IfOk result (λ names. lists self.now folder.now (map string_bytes names.items)) }
        ensures refused { IfErr result (λ e. unlists self.now folder.now e × IsFileRefusal folder.now e) };

    /// Gives what was written its names: to all files of the plan, or where one can't have its own it says which.
    fn give_names(&mut self) -> Result<(), HostError>
        ensures named { OnOk result (gives_names self.old None self.new) }
        ensures refused { IfErr result (λ e. gives_names self.old (Some e) self.new) };
}

/// All bytes of a file.
pub(crate) fn read_file<F: CommandFiles>(
    alloc: Global,
    files: &mut F,
    name: &str,
) -> Result<Vec<u8>, HostError>
    ensures read { IfOk result (λ v. F.does files.old (Gave name.now v.items) files.new) }
    ensures refusal { IfErr result (λ e. IsUnread name.now e × F.does files.old (Missed name.now) files.new) }
{
    match files.read(alloc, name) {
        Ok(bytes) => Ok(bytes),
        Err(StoreError::Device) => {
            Err(HostError::RunRefused(RunError::FileRefused(ReadError::File(shown(name)))))
        }
        Err(StoreError::OutOfMemory) => Err(HostError::OutOfMemory),
    }
}

/// How a file that can't be written is refused.
fn unwritten(name: &str, cause: StoreError) -> HostError
    ensures { IsUnwritten name.now result }
{
    match cause {
        StoreError::Device => HostError::RunRefused(RunError::WriteFault(shown(name))),
        StoreError::OutOfMemory => HostError::OutOfMemory,
    }
}

/// Writes files in order, up to the first that can't be written.
pub(crate) fn write_outputs<F: CommandFiles>(
    outputs: &[Output<'_>],
    files: &mut F,
) -> Result<(), HostError>
    ensures wrote { OnOk result (LogLeadsBy F.does (AreWrites (map named_output outputs.now)) files.old files.new) }
    ensures refusal { IfErr result (IsWritingStopped F.does (map named_output outputs.now) files.old files.new) }
{
    match write_all(outputs, files) {
        Ok(()) => Ok(()),
        Err(error) => Err(unwritten(outputs[error.place].name, error.cause)),
    }
}

/// Writes files in order, and gives them their names.
pub(crate) fn write_named<F: CommandFiles>(
    outputs: &[Output<'_>],
    files: &mut F,
) -> Result<(), HostError>
    ensures written { OnOk result (AreWritten F.does F.gives_names (map named_output outputs.now) files.old files.new) }
    ensures refusal { IfErr result (AreUnwritten F.does F.gives_names (map named_output outputs.now) files.old files.new) }
{
    write_outputs(outputs, files)?;
    files.give_names()
}
