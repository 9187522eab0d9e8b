//! Keys that are typed on standard input: at which terminals, and what is told of them.

use crate::patient::{PatientError, StandardError};

/// Which of the program's own streams are terminals.
#[derive(Clone, Copy, Debug, Drop)]
pub struct Terminals<'a> {
    /// Standard output.
    pub is_output_terminal: bool,
    /// Standard error.
    pub is_error_terminal: bool,
    /// The file whose coming ends typing, where standard input is a terminal that gives each key as it is typed.
    pub end: Option<&'a str>,
}

impl Terminals<'_> {
    /// Whether standard output gets control bytes as text.
    pub fn shows_controls(&self, is_raw: bool) -> bool {
        self.is_output_terminal && !is_raw
    }

    /// Whether standard output and standard error are on a screen, and so on the same as far as a person sees.
    pub fn are_one(&self) -> bool {
        self.is_output_terminal && self.is_error_terminal
    }
}

/// Says how typing ends: at a terminal that gives each key, or elsewhere.
pub fn tell_quit(rt: &impl StandardError, is_each_key: bool) {
    let told = if is_each_key {
        "^] ends it, ^\\ too; ^^ ^] types it"
    } else {
        "keys come from standard input; ^] ends"
    };
    let _ = eprintln!(PatientError::new(rt); "cpmhost: {told}");
}
