//! The command line of `cpmhost`: its words, the task that they name, the help and the version.
#![tactic(auto)]

mod boot_page;
mod build;
mod disk;
mod disk_pages;
mod entries;
mod fault;
mod options;
mod pages;
mod read;
mod serve_page;
mod task;
mod usage;

pub use fault::{UsageError, UsageFault, UsageRefusal};
pub use pages::{page_line, page_text};
pub use read::command;
pub use task::{DebugTask, DiskTask, PlayTask, RunTask, ServeTask, Task};
pub use usage::{Page, VERSION, asks_version};
