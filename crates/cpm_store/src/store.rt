//! What a store of named files offers.
ghost use Rattle.std.specs.Prelude.{◌≡◌, ◌≤◌, ℕ, Option, IfOk, OnOk, OnErr, IsErrOf};
ghost use Rattle.cpm_store.specs.Files.{CountsFailure, StoreFiles, Finds, KeepsOthers, WhereTold, Writes};
ghost use Rattle.cpm_store.specs.Log.{StoreAccess, Gave, Missed, Wrote};

use std::alloc::Global;
use thiserror::Error;

/// Why a call of a store failed.
#[derive(Clone, Copy, Debug, Drop, Error)]
pub enum StoreError {
    /// The file is not there, is too long, or cannot be read or written.
    #[error("the file can't be read or written")]
    Device,
    /// Memory was refused.
    #[error("out of memory")]
    OutOfMemory,
}

/// Files by their names.
pub trait Store {
    // What the files hold, where the store tells it. A store over files that others can write does not.
    ghost files: { Self → Option StoreFiles };

    // The number of calls that failed.
    ghost failed: { Self → ℕ };

    // From this state, by this call, to that state. Every store has it, and a body that is proved for each of
    // them can know no step but those that its own calls made.
    ghost does: { Self → StoreAccess → Self → Type 0 };

    /// The bytes of a file. `Device` where it can't be read, which counts a failure; no other answer counts one.
    fn read(&mut self, alloc: Global, name: &str) -> Result<Vec<u8>, StoreError>
        ensures found { IfOk result (λ v. Finds (files self.old) name.now v.items) }
        ensures same { files self.new ≡ files self.old }
        ensures gave { IfOk result (λ v. does self.old (Gave name.now v.items) self.new) }
        ensures missed { OnErr result (does self.old (Missed name.now) self.new) }
        ensures device { IsErrOf result StoreError.Device → CountsFailure (failed self.old) (failed self.new) }
        ensures uncounted { OnOk result (failed self.new ≡ failed self.old) }
        ensures memory { IsErrOf result StoreError.OutOfMemory → failed self.new ≡ failed self.old }
        ensures counted { failed self.old ≤ failed self.new };

    /// Makes a file hold these bytes. `Device` where it can't be written, which counts a failure; no other
    /// answer counts one. After an error this file may hold anything, and no other file has changed.
    fn write(&mut self, name: &str, bytes: &[u8]) -> Result<(), StoreError>
        ensures written { OnOk result (WhereTold (files self.old) (files self.new) (Writes name.now bytes.now)) }
        ensures others { OnErr result (WhereTold (files self.old) (files self.new) (KeepsOthers name.now)) }
        ensures wrote { OnOk result (does self.old (Wrote name.now bytes.now) self.new) }
        ensures missed { OnErr result (does self.old (Missed name.now) self.new) }
        ensures device { IsErrOf result StoreError.Device → CountsFailure (failed self.old) (failed self.new) }
        ensures uncounted { OnOk result (failed self.new ≡ failed self.old) }
        ensures memory { IsErrOf result StoreError.OutOfMemory → failed self.new ≡ failed self.old }
        ensures counted { failed self.old ≤ failed self.new };

    /// How many calls answered `Device`, as far as 64 bits count.
    fn failures(&self) -> u64
        ensures { result ≡ failed self.now };
}
