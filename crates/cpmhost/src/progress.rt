//! How far sessions have come, and how a command ended, told on standard error.

ghost use Rattle.std.specs.Prelude.{⊤};

use crate::held::LockableFiles;
use crate::kept::CheckpointFile;
use crate::patient::{PatientError, PatientOutput};
use crate::refused::PathLine;
use crate::tempo::{Tempo, micros};
use crate::typing::{Terminals, tell_quit};
use arrayvec::{ArrayString, ArrayVec};
use cpm_commands::{Messages, SessionsWatcher};
use cpm_host::{Config, Progress, RunStage, RunWatcher, Watcher};
use std::cell::Cell;
use std::fmt;
use std::io::Write;

/// How often it is told at most: each time that they are so much of the whole further.
const PARTS: u128 = 50;

/// After how many seconds it is told of a program without a limit of steps, and then again and again; on one line of a terminal after each.
const SECONDS: u64 = 10;

/// How many sessions a run has at most, and how long their names are.
const MOST_SESSIONS: usize = 64;

const MOST_NAME: usize = 16;

/// How progress is told.
#[derive(Clone, Copy, Debug, PartialEq, Eq, Drop)]
pub enum Form {
    Silent,
    /// A line each time.
    Lines,
    /// One line of a terminal, written over.
    InPlace,
}

impl Form {
    /// How it is told where it is asked for or not, on a terminal or elsewhere.
    pub fn of(is_asked: bool, is_terminal: bool) -> Form {
        match (is_asked, is_terminal) {
            (false, _) => Form::Silent,
            (true, false) => Form::Lines,
            (true, true) => Form::InPlace,
        }
    }
}

/// Of whom it is told.
#[derive(Clone, Copy, Debug, Drop)]
enum Audience {
    /// A program, or all sessions of a run.
    All,
    /// The session at a place, which is played by itself.
    Alone(usize),
}

/// Tells how a run goes on: how far its sessions have come, and how typing begins and ends where one types.
#[derive(Drop)]
pub struct Teller<'a, R: LockableFiles> {
    rt: &'a R,
    form: Form,
    terminals: Terminals<'a>,
    whom: Audience,
    /// The names of the sessions; none where a program is run.
    names: ArrayVec<ArrayString<MOST_NAME>, MOST_SESSIONS>,
    /// How many parts were told.
    told: u128,
    /// When that began of which it is told.
    begun: u64,
    /// The pace of a program that is played by a script.
    tempo: Tempo,
    /// Whether one types.
    is_typing: bool,
    /// Whether what comes next on standard output begins a line.
    is_at_line_start: &'a Cell<bool>,
    /// How many keys were typed.
    keys: &'a Cell<usize>,
    /// Where the sessions stand is kept there, if it is.
    checkpoints: Option<CheckpointFile>,
}

impl<'a, R: LockableFiles> Teller<'a, R> {
    /// Nothing is told yet.
    pub fn new(
        rt: &'a R,
        form: Form,
        terminals: Terminals<'a>,
        is_at_line_start: &'a Cell<bool>,
        keys: &'a Cell<usize>,
        pace: Option<u64>,
        checkpoints: Option<CheckpointFile>,
    ) -> Teller<'a, R> {
        Teller {
            rt,
            form,
            terminals,
            whom: Audience::All,
            names: ArrayVec::new(),
            told: 0,
            begun: 0,
            tempo: Tempo::new(pace),
            is_typing: false,
            is_at_line_start,
            keys,
            checkpoints,
        }
    }

    /// Notes whether what comes next begins a line, where standard output is on the same screen.
    fn note(&self, is_at_line_start: bool) {
        if self.terminals.are_one() {
            self.is_at_line_start.set(is_at_line_start);
        }
    }

    /// Whether the line of a terminal on which it is told isn't ended. One who wrote there since may have ended it.
    fn is_in_line(&self) -> bool {
        let is_ended = self.terminals.are_one() && self.is_at_line_start.get();
        self.form == Form::InPlace && self.told > 0 && !is_ended
    }

    /// Ends what is told. At a terminal what comes after a session that was typed at begins on a line of its own.
    pub fn end_stage(&mut self) {
        if self.is_typing {
            self.is_typing = false;
            self.end_typing();
        }
        if self.is_in_line() {
            let _ = eprintln!(PatientError::new(self.rt));
            self.note(true);
        }
        self.told = 0;
    }

    /// Ends all that is told: what comes next begins a line.
    pub fn end_all(&mut self) {
        self.end_stage();
        if self.terminals.are_one() && !self.is_at_line_start.get() {
            let _ = eprintln!(PatientError::new(self.rt));
            self.is_at_line_start.set(true);
        }
    }

    /// Tells a person what may help where ESC was shown as text.
    pub fn tell_shown_escape(&mut self) {
        if self.is_read() {
            self.tell(&"hint: ESC is shown as ^[; --raw sends it to the terminal as it is");
        }
    }

    /// Ends a task that was done: tells a person where disks at which one typed are written nowhere; and a run needs its checkpoints no more.
    pub fn end_task(&mut self, drops_disks: bool) {
        if drops_disks && self.is_read() {
            self.tell(
                &"hint: its disks are dropped; --out-disk IMAGE or --out-folder FOLDER keeps them",
            );
        }
        if let Some(checkpoints) = &self.checkpoints {
            checkpoints.remove(self.rt);
        }
    }

    /// Ends the line of a session that was typed at.
    fn end_typing(&self) {
        if self.terminals.is_output_terminal && !self.is_at_line_start.get() {
            // (where this fails, so does the report, which says it)
            let _ = PatientOutput::new(self.rt).write_all(b"\n");
            self.is_at_line_start.set(true);
        }
    }

    /// Tells of so many parts.
    fn tell_parts(&self, progress: Progress) {
        let percent = self.told.saturating_mul(2);
        self.note(self.form != Form::InPlace);
        let (before, behind) = match self.form {
            Form::InPlace => ("\r", "\x1b[K"),
            _ => ("", "\n"),
        };
        let place = match self.whom {
            Audience::Alone(place) => place,
            Audience::All => progress.slowest,
        };
        match (self.whom, self.names.get(place)) {
            (Audience::Alone(_), Some(name)) => {
                self.tell_alone(before, percent, name.as_str(), behind);
            }
            (Audience::All, Some(name)) if progress.ended < progress.sessions => {
                self.tell_slowest(before, percent, progress, name.as_str(), behind);
            }
            (Audience::All, Some(_)) => self.tell_ended(before, percent, progress, behind),
            (_, None) => self.tell_program(before, percent, behind),
        }
    }

    fn tell_program(&self, before: &str, percent: u128, behind: &str) {
        let _ = eprint!(PatientError::new(self.rt); "{before}progress {percent}%{behind}");
    }

    fn tell_alone(&self, before: &str, percent: u128, name: &str, behind: &str) {
        let _ = eprint!(PatientError::new(self.rt);
            "{before}progress {percent}% of {name} by itself{behind}"
        );
    }

    fn tell_ended(&self, before: &str, percent: u128, progress: Progress, behind: &str) {
        let (ended, sessions) = (progress.ended, progress.sessions);
        let _ = eprint!(PatientError::new(self.rt);
            "{before}progress {percent}%: {ended} of {sessions} sessions have ended{behind}"
        );
    }

    fn tell_slowest(
        &self,
        before: &str,
        percent: u128,
        progress: Progress,
        slowest: &str,
        behind: &str,
    ) {
        let (ended, sessions) = (progress.ended, progress.sessions);
        let _ = eprint!(PatientError::new(self.rt);
            "{before}progress {percent}%: {ended} of {sessions} sessions have ended, {slowest} has the most left{behind}"
        );
    }

    /// Whether a person is told that a program has no limit, if it has none, and goes on and on.
    fn hints(&self) -> bool {
        self.terminals.is_error_terminal && self.names.is_empty() && self.told == 0
    }

    /// Sees so many steps of what has no limit.
    fn see_unlimited(&mut self, done: u64) {
        if self.form == Form::Silent && !self.hints() {
            return;
        }
        let seconds = micros(self.rt).saturating_sub(self.begun) / 1_000_000;
        let parts = match self.form {
            Form::InPlace => seconds,
            Form::Lines | Form::Silent => seconds / SECONDS,
        };
        if u128::from(parts) > self.told {
            self.tell_unlimited(seconds, done);
            self.told = u128::from(parts);
        }
    }

    /// Tells of so many steps of what has no limit.
    fn tell_unlimited(&mut self, seconds: u64, done: u64) {
        match self.form {
            Form::Silent => {
                self.end_all();
                let _ = eprintln!(PatientError::new(self.rt);
                    "hint: {seconds} s and {done} steps so far, without a limit; ^C ends it and writes no disk"
                );
            }
            Form::Lines => {
                self.note(true);
                let _ = eprintln!(PatientError::new(self.rt); "progress {seconds} s, {done} steps");
            }
            Form::InPlace => {
                self.note(false);
                let _ = eprint!(PatientError::new(self.rt);
                    "\rprogress {seconds} s, {done} steps\x1b[K"
                );
            }
        }
    }

    /// Sees so many steps of those that there are in all.
    fn see_share(&mut self, progress: Progress) {
        if self.form == Form::Silent || progress.all == 0 {
            return;
        }
        let parts = u128::from(progress.done) * PARTS / u128::from(progress.all);
        if parts > self.told {
            self.told = parts;
            self.tell_parts(progress);
        }
    }
}

impl<R: LockableFiles> Watcher for Teller<'_, R> {
    fn is_watching(&self) -> bool {
        let is_told = self.form != Form::Silent || self.hints();
        is_told || self.tempo.is_kept() || self.checkpoints.is_some()
    }

    fn most_steps(&self) -> u64 {
        self.tempo.most_steps()
    }

    fn see(&mut self, progress: Progress) {
        self.tempo.hold(self.rt, progress.done);
        if let Some(checkpoints) = &mut self.checkpoints {
            checkpoints.see(progress.done);
        }
        if progress.all == u64::MAX && progress.done < progress.all {
            self.see_unlimited(progress.done);
        } else {
            self.see_share(progress);
        }
    }
}

impl<R: LockableFiles> RunWatcher for Teller<'_, R> {
    fn begin(&mut self, stage: RunStage) {
        self.end_stage();
        self.told = 0;
        self.begun = micros(self.rt);
        if let Some(checkpoints) = &mut self.checkpoints {
            checkpoints.begin();
        }
        self.whom = match stage {
            RunStage::Typing => {
                self.is_typing = true;
                tell_quit(self.rt, self.terminals.end.is_some());
                Audience::All
            }
            RunStage::Alone(place) => Audience::Alone(place),
            RunStage::All => Audience::All,
        };
    }

    fn keeps_checkpoints(&self) -> bool {
        self.checkpoints.is_some()
    }

    fn tell_kept(&mut self, goes_on: bool) {
        self.end_stage();
        if let Some(checkpoints) = &self.checkpoints {
            checkpoints.tell_kept(self.rt, goes_on);
        }
    }

    fn wants_checkpoint(&self) -> bool {
        match &self.checkpoints {
            Some(checkpoints) => checkpoints.is_due(),
            None => false,
        }
    }

    fn keep_checkpoint(&mut self, bytes: &[u8]) {
        if let Some(checkpoints) = &mut self.checkpoints {
            checkpoints.keep(self.rt, bytes);
        }
    }
}

impl<R: LockableFiles> Messages for Teller<'_, R> {
    // What becomes of a line is the machine's.
    ghost tells = { λ _ _ _. ⊤ };

    ghost is_read = { λ s. s.terminals.is_error_terminal };

    fn is_read(&self) -> bool {
        self.terminals.is_error_terminal
    }

    fn tell<D: fmt::Display>(&mut self, line: &D) {
        self.end_all();
        let _ = eprintln!(PatientError::new(self.rt); "{line}");
    }
}

impl<R: LockableFiles> SessionsWatcher for Teller<'_, R> {
    fn meet(&mut self, config: &Config) {
        for session in &config.sessions {
            // (a configuration has no more sessions, and no longer names)
            if let Ok(name) = ArrayString::from(session.name.as_str()) {
                let _ = self.names.try_push(name);
            }
        }
    }

    fn end(&mut self, kept: Option<&str>) {
        self.end_stage();
        if let Some(script) = kept
            && self.keys.get() == 0
        {
            let path = PathLine(script);
            let _ = eprintln!(PatientError::new(self.rt);
                "cpmhost: no key came, so '{path}' is as it was"
            );
        }
    }
}
