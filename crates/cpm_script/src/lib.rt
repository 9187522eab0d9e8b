//! Key scripts: which keys come at which count of steps.
#![tactic(auto)]

mod count;
mod cue;
mod fault;
mod fork;
mod forked_cue;
mod keys;
pub mod laws;
mod lines;
mod recording;
mod script;
mod writing;

pub use count::count_of;
pub use cue::{Cue, read_cues};
pub use fault::{LineFault, ScriptError};
pub use fork::keys_before;
pub use forked_cue::read_forked_cues;
pub use keys::{are_keys, first_key};
pub use lines::{first_line, without_return};
pub use recording::read_recording;
pub use script::{Key, MOST_KEYS, read_keys};
pub use writing::key_line;
