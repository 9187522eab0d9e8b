//! A session of a run with what it is played by.

use cpm_batch::Start;
use cpm_config::SessionConfig;
use cpm_play::PlayEnd;
use cpm_script::Key;

/// A session with what it is played by.
#[derive(Drop)]
pub(crate) struct SettledInput<'a> {
    pub(crate) session: &'a SessionConfig,
    pub(crate) start: Start,
    /// All its keys: those that the session that it is forked from had before, and then its own.
    pub(crate) keys: Vec<Key>,
    /// How many of them that session had.
    pub(crate) before: usize,
    /// How many steps it executes in all.
    pub(crate) steps: u64,
    /// Whether it stopped idle where it was played by itself.
    pub(crate) is_idle: bool,
    /// Why no more was typed at it, where one typed.
    pub(crate) typing: Option<PlayEnd>,
}
