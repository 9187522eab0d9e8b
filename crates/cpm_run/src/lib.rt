//! A run of the sessions of a configuration: what they need is read; what each is played by is settled; they are opened in a host and played by turns; and
//! what they leave is written and reported. Or it is refused, with its exit status.
#![tactic(auto)]

mod alone;
mod beginning;
mod checkpoint;
mod digits;
mod ending;
mod error;
mod finish;
mod going_on;
mod joining;
mod keeper;
mod keeping;
pub mod laws;
mod openings;
mod options;
mod part;
mod play;
mod pressable;
mod quotas;
mod records;
mod report;
mod rest;
mod run;
mod settle;
mod settled;
mod stages;
mod standing;
mod typed;
mod watcher;
mod written;

pub use ending::{Ending, IllegalBytes, end_word};
pub use error::RunError;
pub use keeping::keep_sessions;
pub use options::{RecordFile, RunOptions};
pub use report::{Report, SessionReport, SessionStop};
pub use run::run_host;
pub use standing::KeptSession;
pub use watcher::{RunStage, RunWatcher};
