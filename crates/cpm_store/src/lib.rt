//! Stores of named files, and the batch of writes with which a run ends.
#![tactic(auto)]

mod laws;
mod memory;
mod store;
mod writes;

pub use laws::writes_are_kept;
pub use memory::MemoryStore;
pub use store::{Store, StoreError};
pub use writes::{Output, WriteError, write_all};
