//! A store over memory, of which one call can be made to fail.
ghost use Rattle.std.specs.Prelude.{◌≡◌, ◌+◌, ◌≤◌, ◌⊎◌, Some, None, Ok, Err, IfErr, IfOk, IfSome, IsErrOf, IsSome, OnErr, OnOk, option_map, true};
ghost use Rattle.cpm_store.specs.Files.{CountsFailure, Finds, WhereTold, KeepsOthers, Writes, file_at};
ghost use Rattle.cpm_store.specs.Log.{StoreAccess, Does, Gave, Missed, Wrote};
ghost use Rattle.cpm_store.specs.Memory.{calls_left, failures_of, files_in, is_failing_call, one_call_less};

use crate::store::{Store, StoreError};
use std::alloc::{AllocError, Global};
use std::collections::BTreeMap;

/// Files in memory.
#[derive(Drop)]
pub struct MemoryStore {
    alloc: Global,
    files: BTreeMap<String, Vec<u8>>,
    failures: u64,
    calls_left: Option<u64>,
}

impl MemoryStore {
    /// A store with no file, of which no call is to fail.
    pub fn new(alloc: Global) -> MemoryStore
        ensures files { files_in result ≡ (λ name. None) }
        ensures failures { failures_of result ≡ 0 }
        ensures calls { calls_left result ≡ None }
    {
        MemoryStore {
            alloc,
            files: BTreeMap::new(alloc),
            failures: 0,
            calls_left: None,
        }
    }

    /// Makes one call fail, as a fault of a device: the one with this number, the next being 1.
    pub fn fail_call(&mut self, number: u64)
        requires { 1 ≤ number }
        ensures files { files_in self.new ≡ files_in self.old }
        ensures failures { failures_of self.new ≡ failures_of self.old }
        ensures calls { IfSome (calls_left self.new) (λ left. left + 1 ≡ number) }
        ensures set { IsSome (calls_left self.new) }
    {
        self.calls_left = Some(number - 1);
    }

    /// The bytes of a file that is there, without a call of the store.
    pub fn file(&self, name: &str) -> Option<&[u8]>
        ensures { option_map (λ bytes. bytes.now) result ≡ files_in self.now name.now }
    {
        match self.files.get(name) {
            Some(bytes) => Some(bytes.as_slice()),
            None => None,
        }
    }

    fn count_failure(&mut self)
        ensures files { self.new.files ≡ self.old.files }
        ensures calls { self.new.calls_left ≡ self.old.calls_left }
        ensures counted { CountsFailure self.old.failures self.new.failures }
        ensures rises { self.old.failures ≤ self.new.failures }
    {
        self.failures = self.failures.saturating_add(1);
    }

    /// Counts a call, and tells whether it is to fail.
    fn is_failing(&mut self) -> bool
        ensures files { self.new.files ≡ self.old.files }
        ensures failures { self.new.failures ≡ self.old.failures }
        ensures calls { self.new.calls_left ≡ one_call_less self.old.calls_left }
        ensures fails { result ≡ is_failing_call self.old.calls_left }
    {
        match self.calls_left {
            Some(0) => {
                self.calls_left = None;
                true
            }
            Some(calls) => {
                self.calls_left = Some(calls - 1);
                false
            }
            None => false,
        }
    }
}

/// A copy of the bytes of a file.
fn copy_of(alloc: Global, bytes: &[u8]) -> Result<Vec<u8>, StoreError>
    ensures copy { IfOk result (λ v. v.items ≡ bytes.now) }
    ensures err { IfErr result (λ e. e ≡ StoreError.OutOfMemory) }
{
    match Vec::from_slice(alloc, bytes) {
        Ok(copy) => Ok(copy),
        Err(_) => Err(StoreError::OutOfMemory),
    }
}

/// Makes a name hold bytes.
fn put(
    alloc: Global,
    files: &mut BTreeMap<String, Vec<u8>>,
    name: &str,
    bytes: &[u8],
) -> Result<(), AllocError>
    ensures written { OnOk result (Writes name.now bytes.now (file_at files.old) (file_at files.new)) }
    ensures kept { OnErr result (file_at files.new ≡ file_at files.old) }
{
    let key = String::from_str(alloc, name)?;
    let copy = Vec::from_slice(alloc, bytes)?;
    files.insert(key, copy)?;
    Ok(())
}

impl Store for MemoryStore {
    ghost files = { λ s. Some (files_in s) };

    ghost failed = { λ s. failures_of s };

    ghost does = { λ s a t. Does a (files_in s) (files_in t) };

    fn read(&mut self, alloc: Global, name: &str) -> Result<Vec<u8>, StoreError>
        ensures found { IfOk result (λ v. Finds (Some (files_in self.old)) name.now v.items) }
        ensures same { Some (files_in self.new) ≡ Some (files_in self.old) }
        ensures gave { IfOk result (λ v. Does (Gave name.now v.items) (files_in self.old) (files_in self.new)) }
        ensures missed { OnErr result (Does (Missed name.now) (files_in self.old) (files_in self.new)) }
        ensures device { IsErrOf result StoreError.Device → CountsFailure (failures_of self.old) (failures_of self.new) }
        ensures uncounted { OnOk result (failures_of self.new ≡ failures_of self.old) }
        ensures memory { IsErrOf result StoreError.OutOfMemory → failures_of self.new ≡ failures_of self.old }
        ensures counted { failures_of self.old ≤ failures_of self.new }
        // It fails exactly at the call that is to fail, or where there is no such file.
        ensures calls { calls_left self.new ≡ one_call_less (calls_left self.old) }
        ensures failing { is_failing_call (calls_left self.old) ≡ true → result ≡ Err StoreError.Device }
        ensures absent { files_in self.old name.now ≡ None → result ≡ Err StoreError.Device }
        ensures refused { IsErrOf result StoreError.Device
            → (is_failing_call (calls_left self.old) ≡ true) ⊎ (files_in self.old name.now ≡ None) }
    {
        if self.is_failing() {
            self.count_failure();
            return Err(StoreError::Device);
        }
        if let Some(bytes) = self.files.get(name) {
            return copy_of(alloc, bytes.as_slice());
        }
        self.count_failure();
        Err(StoreError::Device)
    }

    fn write(&mut self, name: &str, bytes: &[u8]) -> Result<(), StoreError>
        ensures written { OnOk result (WhereTold (Some (files_in self.old)) (Some (files_in self.new)) (Writes name.now bytes.now)) }
        ensures others { OnErr result (WhereTold (Some (files_in self.old)) (Some (files_in self.new)) (KeepsOthers name.now)) }
        ensures wrote { OnOk result (Does (Wrote name.now bytes.now) (files_in self.old) (files_in self.new)) }
        ensures missed { OnErr result (Does (Missed name.now) (files_in self.old) (files_in self.new)) }
        ensures device { IsErrOf result StoreError.Device → CountsFailure (failures_of self.old) (failures_of self.new) }
        ensures uncounted { OnOk result (failures_of self.new ≡ failures_of self.old) }
        ensures memory { IsErrOf result StoreError.OutOfMemory → failures_of self.new ≡ failures_of self.old }
        ensures counted { failures_of self.old ≤ failures_of self.new }
        // It fails exactly at the call that is to fail, memory aside, and then changes no file.
        ensures calls { calls_left self.new ≡ one_call_less (calls_left self.old) }
        ensures failing { is_failing_call (calls_left self.old) ≡ true → result ≡ Err StoreError.Device }
        ensures refused { IsErrOf result StoreError.Device → is_failing_call (calls_left self.old) ≡ true }
        ensures kept { OnErr result (files_in self.new ≡ files_in self.old) }
    {
        if self.is_failing() {
            self.count_failure();
            return Err(StoreError::Device);
        }
        match put(self.alloc, &mut self.files, name, bytes) {
            Ok(()) => Ok(()),
            Err(_) => Err(StoreError::OutOfMemory),
        }
    }

    fn failures(&self) -> u64 {
        self.failures
    }
}
