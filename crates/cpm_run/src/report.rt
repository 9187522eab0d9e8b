//! What is reported of a run.

use crate::ending::Ending;
use cpm_play::PlayEnd;
use std::fmt;

/// How a session ended. Its text is `NAME END COUNT BYTES`.
#[derive(Drop)]
pub struct SessionReport {
    pub name: String,
    pub ending: Ending,
    /// How many bytes its console got.
    pub bytes: u64,
}

/// How a session stopped where it was played by itself.
#[derive(Clone, Copy, Drop)]
pub struct SessionStop {
    /// Whether sessions were to stop idle, and it stopped where it waits for a key that doesn't come.
    pub is_idle: bool,
    /// Why no more was typed at it, where one typed.
    pub typing: Option<PlayEnd>,
}

/// How each session of a run ended, in their order.
#[derive(Drop)]
pub struct Report {
    pub sessions: Vec<SessionReport>,
    /// Of each, how it stopped where it was played by itself.
    pub stops: Vec<SessionStop>,
}

impl fmt::Display for SessionReport {
    fn fmt<W: fmt::Write>(&self, f: &mut fmt::Formatter<W>) -> fmt::Result {
        let name = self.name.as_str();
        let ended = self.ending.ended;
        let count = self.ending.count;
        let bytes = self.bytes;
        write!(f, "{name} {ended:?} {count} {bytes}")
    }
}
