//! Sessions that are played by their key scripts: many of a host in turns, or one machine.
#![tactic(auto)]

mod attendant;
mod cued;
mod error;
mod forks;
mod kept;
pub mod laws;
mod live;
mod machine;
mod pace;
mod player;
mod progress;
mod rounds;
mod scripted_slot;
mod shown;
mod turn;
mod typing;
mod typist;
mod watch;

pub use cued::{CuedKeys, play_cues};
pub use error::PlayError;
pub use live::{LiveError, LivePlay, PlayEnd, TypedPlay, play_live};
pub use player::{Fork, Player};
pub use progress::{NoWatcher, Progress, Watcher};
pub use rounds::play;
pub use scripted_slot::ScriptedSlot;
pub use typist::{Heard, KeyNeed, KeyReader, TypingEnd, Typist};
