//! The files of the machine that the program runs on.
ghost use Rattle.std.specs.Prelude.{⊤, ◌≡◌, ◌≤◌, None, IfErr, IfOk, vec_len};
ghost use Rattle.cpm_host.specs.Refusals.{IsFileRefusal, IsOutRefusal};
ghost use Rattle.cpm_store.specs.Files.{CountsFailure};

use crate::batch::{Batch, NamingRule};
use crate::beside::is_missing;
use crate::bounds::FileRules;
use crate::folder::names_in;
use crate::held::LockableFiles;
use crate::output::Outputs;
use crate::plan::SeenFiles;
use crate::refused::{CommandRefusal, RefusalDetail};
use crate::repeated::RepeatedFiles;
use crate::screen::{is_own_terminal, write_shown};
use cpm_commands::{CommandFiles, FilePlan, OutputNaming};
use cpm_host::{HostError, MOST_FILE, Store, StoreError, read_whole, shown};
use std::alloc::Global;
use std::io::ErrorKind;
use std::path::Path;
use std::rt::Files;
use std::{fs, io};

/// All bytes of a file.
pub fn whole_file(rt: &impl Files, alloc: Global, name: &str) -> io::Result<Vec<u8>>
    ensures small { IfOk result (λ bytes. vec_len bytes ≤ MOST_FILE) }
{
    let mut file = fs::open(rt, name)?;
    read_whole(alloc, &mut file)
}

/// What was found at the name of a file that is read. It fails where the file couldn't be looked at. But nothing was found of one that can't be opened
/// either: that is refused where it is read, in its turn.
pub fn found_of_input<T: Drop>(
    rt: &impl Files,
    name: &str,
    looked: io::Result<Option<T>>,
) -> Result<Option<T>, HostError> {
    match looked {
        Ok(found) => Ok(found),
        Err(reason) if reason.kind() != ErrorKind::OutOfMemory && fs::open(rt, name).is_err() => {
            Ok(None)
        }
        Err(reason) => Err(unreadable(name, reason)),
    }
}

/// Fails where a file of this name can't be written.
pub fn check_file(rt: &impl LockableFiles, outputs: Outputs, name: &str) -> Result<(), HostError>
    ensures refusal { IfErr result (IsOutRefusal name.now) }
{
    outputs
        .check(rt, name)
        .map_err(|reason| unwritable(name, reason))
}

/// Fails where no files can be written into a folder of this name, or those there can't be listed.
pub fn check_folder(
    rt: &impl LockableFiles,
    outputs: Outputs,
    folder: &str,
) -> Result<(), HostError>
    ensures refusal { IfErr result (IsOutRefusal folder.now) }
{
    if let Err(reason) = names_in(rt, rt.alloc(), folder) {
        return Err(unwritable(folder, reason));
    }
    outputs
        .check_folder(rt, folder)
        .map_err(|reason| unwritable(folder, reason))
}

/// Why a file was not written.
pub fn unwritable(name: &str, reason: io::Error) -> HostError
    ensures { IsOutRefusal name.now result }
{
    if reason.kind() == ErrorKind::OutOfMemory {
        HostError::OutOfMemory
    } else {
        HostError::FileUnwritable {
            name: shown(name),
            reason,
        }
    }
}

/// Why a file was not read.
pub fn unreadable(name: &str, reason: io::Error) -> HostError
    ensures { IsFileRefusal name.now result }
{
    if reason.kind() == ErrorKind::OutOfMemory {
        HostError::OutOfMemory
    } else {
        HostError::FileUnreadable {
            name: shown(name),
            reason,
        }
    }
}

/// The files of the machine as those of a command. They don't tell what they hold, since others can write them. What is written has its name once all have
/// taken theirs.
#[derive(Drop)]
pub struct MachineFiles<'a, R: LockableFiles> {
    rt: &'a R,
    outputs: Outputs,
    rules: FileRules<'a>,
    /// Whether the terminal gets control bytes as text.
    shows_controls: bool,
    seen: SeenFiles,
    batch: Batch,
    failures: u64,
    /// What is said of the last call that failed.
    detail: RefusalDetail,
    /// The files that are read more than once.
    repeated: RepeatedFiles,
}

impl<'a, R: LockableFiles> MachineFiles<'a, R> {
    /// The files, of which no call has failed yet, with those that are written so.
    pub fn new(
        rt: &'a R,
        outputs: Outputs,
        rules: FileRules<'a>,
        shows_controls: bool,
        batch: Batch,
    ) -> MachineFiles<'a, R>
        ensures { result.failures ≡ 0 }
    {
        MachineFiles {
            rt,
            outputs,
            rules,
            shows_controls,
            seen: SeenFiles::none(rt),
            batch,
            failures: 0,
            detail: RefusalDetail::Nothing,
            repeated: RepeatedFiles::none(rt.alloc()),
        }
    }

    /// The files of a command that plays nothing.
    pub fn plain(rt: &'a R, outputs: Outputs) -> MachineFiles<'a, R> {
        let batch = Batch::new(rt, outputs);
        MachineFiles::new(rt, outputs, FileRules::none(), false, batch)
    }

    /// The files of one request of a service, which lie in these folders.
    pub fn in_folders(rt: &'a R, outputs: Outputs, folders: &'a [&'a str]) -> MachineFiles<'a, R> {
        let batch = Batch::new(rt, outputs);
        MachineFiles::new(rt, outputs, FileRules::of_service(folders), false, batch)
    }

    /// What is said of a command that ended so. Nothing is left then of what was made and has no name: a command may end after some of its files were, where
    /// memory is refused between two of them.
    pub fn end<T: Drop>(self, ended: Result<T, HostError>) -> Result<T, CommandRefusal> {
        let MachineFiles {
            rt,
            mut batch,
            detail,
            ..
        } = self;
        match ended {
            Ok(done) => Ok(done),
            Err(error) => {
                batch.remove(rt);
                Err(CommandRefusal {
                    error,
                    behind: detail,
                })
            }
        }
    }

    /// Keeps what is said of a refusal, which is its error.
    fn keep(&mut self, refused: CommandRefusal) -> HostError
        ensures { self.new.failures ≡ self.old.failures }
    {
        let CommandRefusal { error, behind } = refused;
        self.detail = behind;
        error
    }

    /// What a call answers that failed so. That is counted unless it is out of memory.
    fn fault(&mut self, reason: io::Error) -> StoreError
        ensures device { result ≡ StoreError.Device → CountsFailure self.old.failures self.new.failures }
        ensures memory { result ≡ StoreError.OutOfMemory → self.new.failures ≡ self.old.failures }
        ensures rises { self.old.failures ≤ self.new.failures }
    {
        if reason.kind() == ErrorKind::OutOfMemory {
            return StoreError::OutOfMemory;
        }
        self.failures = self.failures.saturating_add(1);
        self.detail = RefusalDetail::Reason(reason);
        StoreError::Device
    }

    /// All bytes of a file. What was read before is given again; else the file is looked at once more, as its links may have changed since it was seen to.
    fn read_seen(&mut self, alloc: Global, name: &str) -> io::Result<Vec<u8>>
        ensures { self.new.failures ≡ self.old.failures }
    {
        if let Some(bytes) = self.repeated.give(alloc, name)? {
            return Ok(bytes);
        }
        self.seen.bounds.admit(self.rt, name)?;
        let bytes = whole_file(self.rt, alloc, name)?;
        self.repeated.keep(alloc, name, bytes.as_slice())?;
        Ok(bytes)
    }

    /// Sees to the files of a plan. What was held for one before it is held on.
    fn see(&mut self, plan: &FilePlan<'_>) -> Result<(), CommandRefusal> {
        let seen = SeenFiles::of(self.rt, self.outputs, self.rules, plan)?;
        self.seen.add(seen)?;
        self.repeated = RepeatedFiles::of(self.rt.alloc(), &plan.inputs)?;
        Ok(())
    }

    /// Makes a file of these bytes, whose name is looked at once more. The terminal gets control bytes as text, if that is asked.
    fn write_seen(&mut self, name: &str, bytes: &[u8]) -> io::Result<()>
        ensures { self.new.failures ≡ self.old.failures }
    {
        self.seen.bounds.admit(self.rt, name)?;
        if self.shows_controls && is_own_terminal(self.rt, name) {
            return write_shown(self.rt, name, bytes);
        }
        let rule = self.rule_of(name)?;
        self.batch.add(self.rt, name, rule, bytes)
    }

    /// How the file of a name takes it.
    fn rule_of(&self, name: &str) -> io::Result<NamingRule> {
        let mark = match self.seen.held.mark_of(name) {
            Some(mark) => Some(mark),
            None => self.seen.marks.mark_of(self.rt, name)?,
        };
        Ok(match self.seen.naming {
            OutputNaming::Replaces => NamingRule::Replacing(mark),
            OutputNaming::ReplacesPlain => NamingRule::ReplacingPlain(mark),
            OutputNaming::New => NamingRule::New,
        })
    }
}

impl<R: LockableFiles> Store for MachineFiles<'_, R> {
    ghost files = { λ _. None };

    ghost failed = { λ s. s.failures };

    // Nothing can be said of what a file of the machine holds. What was read and written is said by the calls of whoever calls.
    ghost does = { λ _ _ _. ⊤ };

    fn read(&mut self, alloc: Global, name: &str) -> Result<Vec<u8>, StoreError> {
        match self.read_seen(alloc, name) {
            Ok(bytes) => Ok(bytes),
            Err(reason) => Err(self.fault(reason)),
        }
    }

    fn write(&mut self, name: &str, bytes: &[u8]) -> Result<(), StoreError> {
        match self.write_seen(name, bytes) {
            Ok(()) => Ok(()),
            Err(reason) => Err(self.fault(reason)),
        }
    }

    fn failures(&self) -> u64 {
        self.failures
    }
}

impl<R: LockableFiles> CommandFiles for MachineFiles<'_, R> {
    ghost sees_to = { λ _ _ _ _. ⊤ };

    ghost gives_names = { λ _ _ _. ⊤ };

    ghost tells_name = { λ _ _ _. ⊤ };

    ghost tells_folder = { λ _ _ _. ⊤ };

    ghost lists = { λ _ _ _. ⊤ };

    ghost unlists = { λ _ _ _. ⊤ };

    fn see_to(&mut self, plan: &FilePlan<'_>) -> Result<(), HostError> {
        match self.see(plan) {
            Ok(()) => Ok(()),
            Err(refused) => Err(self.keep(refused)),
        }
    }

    fn has(&self, name: &str) -> bool {
        !is_missing(fs::symlink_metadata(self.rt, name))
    }

    fn is_folder(&self, name: &str) -> bool {
        Path::new(name).is_dir(self.rt)
    }

    fn files_in(&self, alloc: Global, folder: &str) -> Result<Vec<String>, HostError> {
        names_in(self.rt, alloc, folder).map_err(|reason| unreadable(folder, reason))
    }

    fn give_names(&mut self) -> Result<(), HostError> {
        match self.batch.take_names(self.rt) {
            Ok(()) => Ok(()),
            Err(refused) => Err(self.keep(refused)),
        }
    }
}
