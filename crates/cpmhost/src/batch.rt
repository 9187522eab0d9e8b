//! Files that are written together: each is made whole beside the one that it is to replace, and only then they take their names. So a full device leaves all
//! of them as they were.

use crate::beside::Replacement;
use crate::held::{LockableFiles, Mark};
use crate::output::{Outputs, PERMISSIONS, PLAIN_PERMISSIONS};
use crate::patient::{PatientError, StandardError};
use crate::refused::{CommandRefusal, PathLine, RefusalDetail};
use cpm_host::{HostError, ShownWord, shown};
use std::rt::Files;
use std::{io, mem};

/// How a file takes its name.
#[derive(Clone, Copy, Debug, Drop)]
pub enum NamingRule {
    /// It replaces what has the name; where that was read it must still be what it was then.
    Replacing(Option<Mark>),
    /// The same, and nobody can execute it.
    ReplacingPlain(Option<Mark>),
    /// It replaces nothing.
    New,
}

impl NamingRule {
    /// The permissions that it keeps of the file that it replaces.
    fn mask(self) -> u32 {
        match self {
            NamingRule::ReplacingPlain(_) => PLAIN_PERMISSIONS,
            NamingRule::Replacing(_) | NamingRule::New => PERMISSIONS,
        }
    }
}

/// A file that is whole beside the one that it is to replace.
#[derive(Drop)]
struct WholeFile {
    /// The name by which it is written.
    name: ShownWord,
    beside: Replacement,
    naming: NamingRule,
}

impl WholeFile {
    /// Why it can't have its name.
    fn unwritable(&self, reason: io::Error) -> HostError {
        HostError::FileUnwritable {
            name: self.name,
            reason,
        }
    }

    /// Fails where the file that it is to replace is no longer what it was when it was read.
    fn check(&self, rt: &impl Files) -> Result<(), HostError> {
        match self.naming {
            NamingRule::Replacing(Some(mark)) | NamingRule::ReplacingPlain(Some(mark)) => mark
                .check(rt, self.beside.target())
                .map_err(|reason| self.unwritable(reason)),
            _ => Ok(()),
        }
    }

    /// Gives it its name. Where it can't replace what has that, it stays beside it. Where that has changed it stays if so asked, and else it goes.
    fn take_name(
        self,
        rt: &(impl Files + AllocGlobal),
        keeps_played: bool,
    ) -> Result<(), CommandRefusal> {
        if let Err(error) = self.check(rt) {
            if keeps_played {
                return Err(self.kept(rt, error));
            }
            let _ = self.beside.remove(rt);
            return Err(CommandRefusal {
                error,
                behind: RefusalDetail::RunAgain,
            });
        }
        let taken = match self.naming {
            NamingRule::New => self.beside.take_new_name(rt),
            NamingRule::Replacing(_) | NamingRule::ReplacingPlain(_) => self.beside.take_name(rt),
        };
        let Err(reason) = taken else {
            return Ok(());
        };
        let error = self.unwritable(reason);
        Err(self.kept(rt, error))
    }

    /// Why it hasn't its name, and where it is then.
    fn kept(self, rt: &(impl Files + AllocGlobal), error: HostError) -> CommandRefusal {
        match self.beside.keep(rt) {
            Some(path) => CommandRefusal {
                error,
                behind: RefusalDetail::Kept(path),
            },
            None => CommandRefusal::from(error),
        }
    }

    /// Leaves it beside the one that it was to replace, and says where.
    fn keep(self, rt: &(impl Files + StandardError + AllocGlobal)) {
        let name = self.name;
        if let Some(path) = self.beside.keep(rt) {
            let path = PathLine(path.as_path().as_str());
            let _ = eprintln!(PatientError::new(rt);
                "cpmhost: the new bytes of '{name}' are in '{path}'; move them yourself"
            );
        }
    }
}

/// Files that are written together, by those of them that are made so far.
#[derive(Drop)]
pub struct Batch {
    outputs: Outputs,
    all: Vec<WholeFile>,
    /// Whether they are of what was played, which nobody can do again as it was.
    keeps_played: bool,
}

impl Batch {
    /// None yet.
    pub fn new(rt: &impl AllocGlobal, outputs: Outputs) -> Batch {
        Batch {
            outputs,
            all: Vec::new(rt.alloc()),
            keeps_played: false,
        }
    }

    /// None yet of what was played. Its files are left beside those that they were to replace, where one of these has changed.
    pub fn of_played(rt: &impl AllocGlobal, outputs: Outputs) -> Batch {
        Batch {
            outputs,
            all: Vec::new(rt.alloc()),
            keeps_played: true,
        }
    }

    /// Makes one more file of these bytes, down to the device, which has its name once all have theirs. A pipe or a device gets them at once. Where it fails
    /// nothing is left of all of them.
    pub fn add(
        &mut self,
        rt: &impl LockableFiles,
        name: &str,
        naming: NamingRule,
        bytes: &[u8],
    ) -> io::Result<()> {
        let added = self.try_add(rt, name, naming, bytes);
        if added.is_err() {
            self.remove(rt);
        }
        added
    }

    /// Makes one more file of these bytes. Where it fails nothing is left of that one.
    fn try_add(
        &mut self,
        rt: &impl LockableFiles,
        name: &str,
        naming: NamingRule,
        bytes: &[u8],
    ) -> io::Result<()> {
        self.all.reserve(1)?;
        let outputs = self.outputs.nth(self.all.len());
        if let Some(beside) = outputs.make(rt, name, naming.mask(), bytes)? {
            self.all.push(WholeFile {
                name: shown(name),
                beside,
                naming,
            })?;
        }
        Ok(())
    }

    /// Takes away all that was made.
    pub fn remove(&mut self, rt: &impl Files) {
        for whole in &self.all {
            let _ = whole.beside.remove(rt);
        }
        self.all.clear();
    }

    /// Gives all their names, if those that they replace are still what they were when they were read; else none gets its name. One that can't have its
    /// name then stays beside it, which is said of each.
    pub fn take_names(&mut self, rt: &impl LockableFiles) -> Result<(), CommandRefusal> {
        if let Err(error) = self.check(rt) {
            return Err(self.give_up(rt, error));
        }
        let keeps_played = self.keeps_played;
        let mut taken = Ok(());
        for whole in mem::replace(&mut self.all, Vec::new(rt.alloc())) {
            if let Err(refused) = whole.take_name(rt, keeps_played) {
                if let Err(before) = &taken {
                    let _ = eprintln!(PatientError::new(rt); "cpmhost: {before}");
                }
                taken = Err(refused);
            }
        }
        taken
    }

    /// What is said where none gets its name. What was played stays beside; the others go, since they lack the change and can be made again.
    fn give_up(&mut self, rt: &impl LockableFiles, error: HostError) -> CommandRefusal {
        if !self.keeps_played {
            self.remove(rt);
            return CommandRefusal {
                error,
                behind: RefusalDetail::RunAgain,
            };
        }
        for whole in mem::replace(&mut self.all, Vec::new(rt.alloc())) {
            whole.keep(rt);
        }
        CommandRefusal::from(error)
    }

    /// Fails where one of the files that they are to replace is no longer what it was when it was read.
    fn check(&self, rt: &impl Files) -> Result<(), HostError> {
        for whole in &self.all {
            whole.check(rt)?;
        }
        Ok(())
    }
}
