//! Machines that are played: by keys that are typed, by a script that may wait, and by what was recorded.

use crate::machines::{MachineParts, Machines};
use crate::timed_typist::TimedTypist;
use cpm_geom::Image;
use cpm_machine::Machine;
use cpm_play::{
    CuedKeys, KeyReader, LivePlay, NoWatcher, PlayEnd, TypedPlay, TypingEnd, Typist, play_cues,
    play_live,
};
use cpm_script::laws::cues_in_order;
use cpm_script::read_cues;
use std::alloc::Global;
use test_language::{RowAnswer, RowFault, RowLine, Word, number};

/// A machine that was played, what it showed and printed and the record of its keys, and why that ended where one typed.
#[derive(Drop)]
struct PlayedMachine {
    machine: Machine,
    text: Vec<u8>,
    printed: Vec<u8>,
    record: Vec<u8>,
    steps: u64,
    end: Option<PlayEnd>,
}

impl Machines {
    /// Whether a line is about playing.
    pub fn is_of_play(&self, verb: &str) -> bool {
        matches!(
            verb,
            "waits-from"
                | "stops-idle"
                | "script"
                | "breaks-in"
                | "play"
                | "live"
                | "listen"
                | "live-end"
                | "replay"
                | "shown"
                | "printed"
                | "recorded"
                | "left"
        )
    }

    /// A line about playing.
    pub fn act_play(&mut self, alloc: Global, line: &RowLine<'_>) -> Result<RowAnswer, RowFault> {
        match (line.verb(), line.arguments()) {
            ("waits-from", [steps]) => {
                self.play.waits_from = number(*steps)?;
                Ok(RowAnswer::Done)
            }
            ("stops-idle", []) => {
                self.play.stops_idle = true;
                Ok(RowAnswer::Done)
            }
            ("play", [steps, script @ ..]) => {
                let script = line.given(alloc, script)?;
                self.play(alloc, number(*steps)?, script.as_slice())
            }
            ("script", script) => {
                self.play.script = line.given(alloc, script)?;
                Ok(RowAnswer::Done)
            }
            ("breaks-in", [steps]) => {
                self.play.breaks_in = Some(number(*steps)?);
                Ok(RowAnswer::Done)
            }
            ("live", arguments) => self.live(alloc, line, arguments),
            ("listen", arguments) => self.listen(alloc, arguments),
            ("live-end", []) => self.live_end(alloc),
            ("replay", []) => self.replay(alloc),
            ("shown", []) => RowAnswer::bytes(alloc, self.play.text.as_slice()),
            ("printed", []) => RowAnswer::bytes(alloc, self.play.printed.as_slice()),
            ("recorded", []) => RowAnswer::bytes(alloc, self.play.record.as_slice()),
            ("left", []) => RowAnswer::bytes(alloc, self.play.left.as_slice()),
            _ => Err(RowFault::Words),
        }
    }

    /// Keeps what was played, and answers its steps.
    fn keep(&mut self, alloc: Global, played: PlayedMachine) -> Result<RowAnswer, RowFault> {
        let PlayedMachine {
            machine,
            text,
            printed,
            record,
            steps,
            end,
        } = played;
        self.put(machine);
        self.play.text = text;
        self.play.printed = printed;
        self.play.record = record;
        self.play.steps = steps;
        self.play.end = end;
        RowAnswer::words(alloc, steps)
    }

    /// `play STEPS SCRIPT`.
    fn play(&mut self, alloc: Global, steps: u64, script: &[u8]) -> Result<RowAnswer, RowFault> {
        let Some(start) = &self.start else {
            return Err(RowFault::Absent);
        };
        let (waits_from, stops_idle) = (self.play.waits_from, self.play.stops_idle);
        let played = by_script(
            alloc,
            &self.system,
            start,
            steps,
            script,
            (waits_from, stops_idle),
        );
        self.keep(alloc, played?)
    }

    /// `live STEPS BYTES`: by the script, if there is one, and then by these bytes, which are read where a key is wanted.
    fn live(
        &mut self,
        alloc: Global,
        line: &RowLine<'_>,
        arguments: &[Word<'_>],
    ) -> Result<RowAnswer, RowFault> {
        let [steps, typed @ ..] = arguments else {
            return Err(RowFault::Words);
        };
        let typed = line.given(alloc, typed)?;
        let mut reader = KeyReader::new(typed.as_slice());
        let played = self.by_typist(alloc, number(*steps)?, &mut reader)?;
        self.play.left = Vec::from_slice(alloc, reader.into_input())?;
        self.keep(alloc, played)
    }

    /// `listen STEPS HEARING..`: by the script, if there is one, and then by one who types at these counts, and breaks in on the script where `breaks-in` says
    /// so.
    fn listen(&mut self, alloc: Global, arguments: &[Word<'_>]) -> Result<RowAnswer, RowFault> {
        let [steps, hearings @ ..] = arguments else {
            return Err(RowFault::Words);
        };
        let mut typist = TimedTypist::of(alloc, hearings, self.play.breaks_in)?;
        let played = self.by_typist(alloc, number(*steps)?, &mut typist)?;
        self.play.left = typist.left(alloc)?;
        self.keep(alloc, played)
    }

    /// `live-end`: why the last play ended at which one typed.
    fn live_end(&self, alloc: Global) -> Result<RowAnswer, RowFault> {
        match self.play.end {
            Some(end) => RowAnswer::words(alloc, end_word(end)),
            None => Err(RowFault::Absent),
        }
    }

    /// Plays a machine by the script and then by a typist.
    fn by_typist<T: Typist>(
        &self,
        alloc: Global,
        steps: u64,
        typist: &mut T,
    ) -> Result<PlayedMachine, RowFault> {
        match &self.start {
            Some(start) => typed_at(
                alloc,
                &self.system,
                start,
                steps,
                self.play.script.as_slice(),
                typist,
            ),
            None => Err(RowFault::Absent),
        }
    }

    /// `replay`: the machine from its beginning by what was recorded. What it shows.
    fn replay(&mut self, alloc: Global) -> Result<RowAnswer, RowFault> {
        let Some(start) = &self.start else {
            return Err(RowFault::Absent);
        };
        let played = by_script(
            alloc,
            &self.system,
            start,
            self.play.steps,
            self.play.record.as_slice(),
            (0, false),
        )?;
        self.put(played.machine);
        Ok(RowAnswer::Bytes(played.text))
    }
}

/// Plays a machine by a script.
fn by_script(
    alloc: Global,
    system: &Image,
    start: &MachineParts,
    steps: u64,
    script: &[u8],
    (waits_from, stops_idle): (u64, bool),
) -> Result<PlayedMachine, RowFault> {
    let Ok(cues) = read_cues(alloc, script) else {
        return Err(RowFault::Unready);
    };
    let Ok(mut machine) = start.machine(alloc)? else {
        return Err(RowFault::Unready);
    };
    cues_in_order();
    let cued = CuedKeys {
        cues: cues.as_slice(),
        waits_from,
        stops_idle,
    };
    let (mut text, mut printed) = (Vec::new(alloc), Vec::new(alloc));
    let mut record = Vec::new(alloc);
    let played = play_cues(
        alloc,
        system,
        &mut machine,
        steps,
        cued,
        &mut text,
        &mut printed,
        &mut record,
        &mut NoWatcher,
    );
    let LivePlay { steps, .. } = played.map_err(|_| RowFault::OutOfMemory)?;
    Ok(PlayedMachine {
        machine,
        text,
        printed,
        record,
        steps,
        end: None,
    })
}

/// Plays a machine by a script and then by a typist.
fn typed_at<T: Typist>(
    alloc: Global,
    system: &Image,
    start: &MachineParts,
    steps: u64,
    script: &[u8],
    typist: &mut T,
) -> Result<PlayedMachine, RowFault> {
    let Ok(cues) = read_cues(alloc, script) else {
        return Err(RowFault::Unready);
    };
    let Ok(mut machine) = start.machine(alloc)? else {
        return Err(RowFault::Unready);
    };
    cues_in_order();
    let cues = cues.as_slice();
    let (mut text, mut printed) = (Vec::new(alloc), Vec::new(alloc));
    let mut record = Vec::new(alloc);
    match play_live(
        alloc,
        system,
        &mut machine,
        steps,
        cues,
        typist,
        &mut text,
        &mut printed,
        &mut record,
    ) {
        Ok(TypedPlay { live, end }) => Ok(PlayedMachine {
            machine,
            text,
            printed,
            record,
            steps: live.steps,
            end: Some(end),
        }),
        Err(_) => Err(RowFault::OutOfMemory),
    }
}

/// Why a play ended, as a word.
fn end_word(end: PlayEnd) -> &'static str {
    match end {
        PlayEnd::Steps => "steps",
        PlayEnd::Ended => "ended",
        PlayEnd::Typing(TypingEnd::Quit) => "quit",
        PlayEnd::Typing(TypingEnd::InputEnd) => "input-end",
        PlayEnd::Typing(TypingEnd::Signal) => "signal",
    }
}
