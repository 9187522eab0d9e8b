//! Where keys are recorded that are typed: in a file beside that of the record, which takes its name when typing has ended. So a record is whole or as it was.

ghost use Rattle.std.specs.Prelude.{⊤};

use crate::held::LockableFiles;
use crate::output::{OutputFile, Outputs};
use crate::patient::PatientError;
use crate::refused::{CommandRefusal, PathLine, RefusalDetail};
use cpm_commands::KeyRecord;
use cpm_host::HostError;
use std::cell::Cell;
use std::io;
use std::io::Write;

/// Where typed keys are recorded: in a file, or nowhere.
#[derive(Drop)]
pub struct Record<'a, R: LockableFiles> {
    rt: &'a R,
    outputs: Outputs,
    name: Option<&'a str>,
    /// What is written beside the file of the name, from the first key on.
    begun: Option<OutputFile<'a, R>>,
    /// How many keys it got.
    keys: &'a Cell<usize>,
    /// Where the keys are if they can't have their name.
    left: RefusalDetail,
}

impl<'a, R: LockableFiles> Record<'a, R> {
    /// The record in the file of a name, which stays as it is until the record has ended; or none. Its keys are counted.
    pub fn new(
        rt: &'a R,
        outputs: Outputs,
        name: Option<&'a str>,
        keys: &'a Cell<usize>,
    ) -> Record<'a, R> {
        Record {
            rt,
            outputs,
            name,
            begun: None,
            keys,
            left: RefusalDetail::Nothing,
        }
    }

    /// What is written beside the file, which is begun where it isn't yet.
    fn take_begun(&mut self, name: &str) -> io::Result<OutputFile<'a, R>> {
        match self.begun.take() {
            Some(begun) => Ok(begun),
            None => self.outputs.begin(self.rt, name),
        }
    }

    /// What a command is refused for that ended so. Keys that were not to be found under their name by then are left beside, which is said.
    pub fn finish<T: Drop>(self, ended: Result<T, CommandRefusal>) -> Result<T, CommandRefusal> {
        let Record {
            rt,
            begun,
            keys,
            left,
            ..
        } = self;
        let Err(refused) = ended else {
            return ended;
        };
        if let Some(begun) = begun
            && let RefusalDetail::Kept(path) = leave(rt, begun, keys.get() > 0)
        {
            let path = PathLine(path.as_path().as_str());
            let _ = eprintln!(PatientError::new(rt); "cpmhost: the keys so far are in '{path}'");
        }
        match (refused.error, left) {
            (error @ HostError::RecordUnwritable(_), behind @ RefusalDetail::Kept(_)) => {
                Err(CommandRefusal { error, behind })
            }
            _ => Err(refused),
        }
    }
}

impl<R: LockableFiles> KeyRecord for Record<'_, R> {
    // What becomes of the file of a record is the machine's.
    ghost ends = { λ _ _ _. ⊤ };

    /// It takes its name. A record without a key replaces none.
    fn end(&mut self) -> Result<(), HostError> {
        let Some(name) = self.name else {
            return Ok(());
        };
        let has_keys = self.keys.get() > 0;
        let begun = self.take_begun(name).map_err(HostError::RecordUnwritable)?;
        if !has_keys && begun.is_to_replace() {
            let _ = eprintln!(PatientError::new(self.rt);
                "cpmhost: no key came, so the record is as it was"
            );
            let _ = begun.remove();
            return Ok(());
        }
        match begun.take_name() {
            Ok(()) => Ok(()),
            Err(reason) => {
                self.left = leave(self.rt, begun, has_keys);
                Err(HostError::RecordUnwritable(reason))
            }
        }
    }
}

/// Leaves the file of a record beside where it has keys, under a name that a person can see, and takes it away where it has none.
fn leave<R: LockableFiles>(rt: &R, begun: OutputFile<'_, R>, has_keys: bool) -> RefusalDetail {
    let Some(beside) = begun.close() else {
        return RefusalDetail::Nothing;
    };
    if !has_keys {
        let _ = beside.remove(rt);
        return RefusalDetail::Nothing;
    }
    match beside.keep(rt) {
        Some(path) => RefusalDetail::Kept(path),
        None => RefusalDetail::Nothing,
    }
}

impl<R: LockableFiles> Record<'_, R> {
    /// Writes some of the bytes, and says how many.
    fn write_some(&mut self, buf: &[u8]) -> io::Result<usize> {
        let Some(name) = self.name else {
            return Ok(buf.len());
        };
        let mut begun = self.take_begun(name)?;
        let written = begun.write(buf);
        self.begun = Some(begun);
        written
    }
}

impl<R: LockableFiles> Write for Record<'_, R> {
    fn write(&mut self, buf: &[u8]) -> io::Result<usize> {
        let written = self.write_some(buf)?;
        let written = written.min(buf.len());
        // (each key is a line)
        let lines = buf[..written].iter().filter(|byte| **byte == b'\n').count();
        self.keys.set(self.keys.get().saturating_add(lines));
        Ok(written)
    }

    fn flush(&mut self) -> io::Result<()> {
        Ok(())
    }
}
