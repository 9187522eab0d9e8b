//! The commands of `cpmhost`: what each does, over the bytes of its files and a writer, and the
//! refusals with their codes.
#![tactic(auto)]

mod asm;
mod asm_listing;
mod debug;
mod error;
mod input;
pub mod laws;
mod list;
mod program;
mod saved;
mod saved_step;
mod saved_text;
mod start;
mod tail;

pub use asm::{ProgramListing, run_asm, run_asm_listed};
pub use cpm_batch::{ReadError, Replay, SavedMachine, SavingRefusal};
pub use cpm_check::{CheckError, run_check};
pub use cpm_command_line::{
    DebugTask, DiskTask, Page, PlayTask, RunTask, ServeTask, Task, UsageError, UsageFault,
    UsageRefusal, VERSION, asks_version, command, page_text,
};
pub use cpm_config::{Config, ConfigError, Origin, SessionConfig};
pub use cpm_debug::{DebugError, run_debug};
pub use cpm_machine::{End, Tail};
pub use cpm_play::{
    CuedKeys, Heard, KeyNeed, KeyReader, NoWatcher, PlayEnd, Progress, TypingEnd, Typist, Watcher,
};
pub use cpm_refusals::RefusalCode;
pub use cpm_run::{
    Ending, IllegalBytes, RecordFile, Report, RunError, RunOptions, RunStage, RunWatcher,
    SessionReport, SessionStop, end_word, run_host,
};
pub use cpm_script::{
    Cue, Key, LineFault, MOST_KEYS, ScriptError, key_line, read_keys, read_recording,
};
pub use cpm_shown::{ShownWord, shown};
pub use cpm_store::{MemoryStore, Store, StoreError};
pub use debug::debug_start;
pub use error::{HostError, JournalRefusal};
pub use input::{MOST_FILE, read_whole};
pub use list::run_list;
pub use program::{ProgramPlay, Source, cues_of, recorded_cues_of, run_program};
pub use saved::saved_machine_of;
pub use saved_text::run_saved;
pub use start::ProgramStart;
pub use tail::tail_of;
