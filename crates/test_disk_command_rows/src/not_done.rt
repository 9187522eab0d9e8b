//! Why a line of a command gives no answer.

use cpm_disk_commands::DiskCommandError;
use std::alloc::AllocFailed;
use test_language::RowFault;

/// Why a line gives no answer: it can't be done, or what it asks for is refused.
#[derive(Clone, Copy, Drop)]
pub enum NotDone {
    Fault(RowFault),
    Refused(DiskCommandError),
}

impl From<RowFault> for NotDone {
    fn from(fault: RowFault) -> NotDone {
        NotDone::Fault(fault)
    }
}

impl From<DiskCommandError> for NotDone {
    fn from(error: DiskCommandError) -> NotDone {
        NotDone::Refused(error)
    }
}

impl<T: Drop> From<AllocFailed<T>> for NotDone {
    fn from(_error: AllocFailed<T>) -> NotDone {
        NotDone::Fault(RowFault::OutOfMemory)
    }
}
