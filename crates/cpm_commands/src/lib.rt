//! The commands of `cpmhost`, each over the files of a store and the standard streams: what it reads, in which order, what it writes and what it prints.
#![tactic(auto)]

mod asm;
mod begin;
mod check;
mod debug;
mod disk;
mod drives;
mod files;
mod get;
pub mod laws;
mod left;
mod list;
mod list_text;
mod messages;
mod out_folder;
mod plan;
mod play;
mod record;
mod replays;
mod report;
mod run;
mod saved;
mod serve;
mod task;
mod typed;
mod words;

pub use asm::assemble_file;
pub use check::check_image;
pub use debug::{debug_program, debug_saved, do_debug_task};
pub use disk::{PutOptions, list_disk, new_disk, put_files, remove_from_disk, rename_on_disk};
pub use files::CommandFiles;
pub use get::{GetOptions, get_files};
pub use list::list_program;
pub use messages::Messages;
pub use plan::{FilePlan, FileRole, OutputNaming, PlannedFile};
pub use play::do_play_task;
pub use record::KeyRecord;
pub use report::LineWriter;
pub use run::{SessionsWatcher, run_sessions};
pub use saved::tell_saved;
pub use serve::{ServedFolder, serve_requests};
pub use task::do_task;
pub use words::{TaskDoer, do_line, do_words, outcome_status};
