//! The rows of runs: sessions of a configuration over files in memory.

use crate::asked::{Asked, TypingOutcome, stops_idle};
use crate::config::changed;
use crate::given::{bytes_given, count_of};
use crate::looks::typing_word;
use cpm_geom::Image;
use cpm_host::{
    Config, HostError, KeyReader, MemoryStore, NoWatcher, PlayEnd, Report, Store, run_host,
};
use std::alloc::{AllocError, Global};
use test_images::Images;
use test_language::{RowAnswer, RowFault, RowLine, Scene, Word, number};

/// The exit status of a configuration that is refused.
const CONFIG_REFUSED: u8 = 2;

/// The files and the configuration of a run, and the result of the last one.
#[derive(Drop)]
pub struct Runs {
    images: Images,
    store: MemoryStore,
    config: String,
    asked: Asked,
    heard: TypingOutcome,
    report: Report,
    status: u8,
}

impl Scene for Runs {
    fn new(alloc: Global) -> Result<Runs, AllocError> {
        Ok(Runs {
            images: Images::new(alloc),
            store: MemoryStore::new(alloc),
            config: String::new(alloc),
            asked: Asked::new(alloc),
            heard: TypingOutcome::before(alloc, &[])?,
            report: Report {
                sessions: Vec::new(alloc),
                stops: Vec::new(alloc),
            },
            status: 0,
        })
    }

    fn is_alone(verb: &str) -> bool {
        matches!(
            verb,
            "config" | "clear" | "shown" | "recorded" | "left" | "cuts" | "status"
        )
    }

    fn takes_text(verb: &str) -> bool {
        matches!(verb, "config" | "file")
    }

    fn act(&mut self, alloc: Global, line: &RowLine<'_>) -> Result<RowAnswer, RowFault> {
        let arguments = line.arguments();
        match line.verb() {
            "config" => self.add(line),
            "clear" => self.clear(alloc),
            "set" => self.set(alloc, arguments),
            "file" => self.file(alloc, line),
            "length" => self.length(alloc, arguments),
            "same" => self.same(alloc, arguments),
            "load" => self.load(alloc, arguments),
            "fail-call" => self.fail_call(arguments),
            "type" => self.asked.type_keys(alloc, line),
            "keys-to" => self.asked.keys_to(alloc, arguments),
            "replay" => self.asked.replay(alloc, arguments),
            "run" => self.run(alloc, arguments),
            "shown" => RowAnswer::bytes(alloc, self.heard.shown.as_slice()),
            "recorded" => RowAnswer::bytes(alloc, self.heard.recorded.as_slice()),
            "left" => RowAnswer::bytes(alloc, self.heard.left.as_slice()),
            "cuts" => self.cuts(alloc),
            "illegal" => self.illegal(alloc, arguments),
            "status" => RowAnswer::words(alloc, self.status),
            _ => self.images.act(alloc, line),
        }
    }
}

/// Runs the sessions of a configuration, one of them by the keys that are typed if that is asked.
fn run(
    alloc: Global,
    config: &[u8],
    asked: &Asked,
    stops_idle: bool,
    store: &mut MemoryStore,
    heard: &mut TypingOutcome,
) -> Result<Report, HostError> {
    let config = Config::read(alloc, config)?;
    let records = asked.records(alloc)?;
    let replays = asked.replays(alloc)?;
    let options = asked.options(records.as_slice(), replays.as_slice(), stops_idle);
    let mut reader = KeyReader::new(asked.keys.as_slice());
    let (out, record) = (&mut heard.shown, &mut heard.recorded);
    let ran = run_host(
        alloc,
        &config,
        options,
        store,
        &mut reader,
        out,
        record,
        &mut NoWatcher,
    );
    heard.left = Vec::from_slice(alloc, reader.into_input())?;
    Ok(ran?)
}

/// The status of the result of a run, 0 where it was run.
fn status_of(outcome: &Result<Report, HostError>) -> u8 {
    match outcome {
        Ok(_) => 0,
        Err(error) => error.code().status(),
    }
}

/// The lines of a report, as the command prints them.
fn report_lines(alloc: Global, report: &Report) -> Result<String, RowFault> {
    let mut lines = String::new(alloc);
    for (session, stop) in report.sessions.iter().zip(&report.stops) {
        if !lines.as_str().is_empty() {
            lines.push('\n')?;
        }
        lines.push_str(session.to_string(alloc)?.as_str())?;
        lines.push_str(if stop.is_idle { " waiting" } else { "" })?;
        if let Some(PlayEnd::Typing(end)) = stop.typing {
            lines.push(' ')?;
            lines.push_str(typing_word(end))?;
        }
    }
    Ok(lines)
}

impl Runs {
    /// `config`, with lines after it: adds them to the configuration.
    fn add(&mut self, line: &RowLine<'_>) -> Result<RowAnswer, RowFault> {
        self.config.push_str(line.text.as_str())?;
        Ok(RowAnswer::Done)
    }

    /// `clear`: the configuration has no line.
    fn clear(&mut self, alloc: Global) -> Result<RowAnswer, RowFault> {
        self.config = String::new(alloc);
        Ok(RowAnswer::Done)
    }

    /// `set KEY VALUE`: the first line of the configuration with this key gives it this value.
    fn set(&mut self, alloc: Global, arguments: &[Word<'_>]) -> Result<RowAnswer, RowFault> {
        let [key, value @ ..] = arguments else {
            return Err(RowFault::Words);
        };
        match changed(alloc, self.config.as_str(), key.text, value)? {
            Some(config) => {
                self.config = config;
                Ok(RowAnswer::Done)
            }
            None => Err(RowFault::Absent),
        }
    }

    /// `file NAME BYTES`, or `file NAME image IMAGE`: the file of this name. Without bytes: what it holds, or `none`.
    fn file(&mut self, alloc: Global, line: &RowLine<'_>) -> Result<RowAnswer, RowFault> {
        let [name, words @ ..] = line.arguments() else {
            return Err(RowFault::Words);
        };
        if line.asks(words)? {
            return match self.store.file(name.text) {
                Some(bytes) => RowAnswer::bytes(alloc, bytes),
                None => RowAnswer::words(alloc, "none"),
            };
        }
        let given = bytes_given(alloc, &self.images, line, words)?;
        match self.store.write(name.text, given.as_slice()) {
            Ok(()) => Ok(RowAnswer::Done),
            Err(error) => RowAnswer::refused(alloc, error),
        }
    }

    /// The bytes of a file.
    fn bytes_of(&self, name: Word<'_>) -> Result<&[u8], RowFault> {
        match self.store.file(name.text) {
            Some(bytes) => Ok(bytes),
            None => Err(RowFault::Absent),
        }
    }

    /// `length NAME`: how many bytes a file has.
    fn length(&self, alloc: Global, arguments: &[Word<'_>]) -> Result<RowAnswer, RowFault> {
        let [name] = arguments else {
            return Err(RowFault::Words);
        };
        RowAnswer::words(alloc, self.bytes_of(*name)?.len())
    }

    /// `same NAME OTHER`: whether two files hold the same bytes.
    fn same(&self, alloc: Global, arguments: &[Word<'_>]) -> Result<RowAnswer, RowFault> {
        let [name, other] = arguments else {
            return Err(RowFault::Words);
        };
        RowAnswer::truth(alloc, self.bytes_of(*name)? == self.bytes_of(*other)?)
    }

    /// `load IMAGE NAME`: the image is the one that the file holds.
    fn load(&mut self, alloc: Global, arguments: &[Word<'_>]) -> Result<RowAnswer, RowFault> {
        let [image, name] = arguments else {
            return Err(RowFault::Words);
        };
        let bytes = Vec::from_slice(alloc, self.bytes_of(*name)?)?;
        match Image::from_bytes(bytes) {
            Ok(loaded) => self.images.put(alloc, image.text, loaded)?,
            Err(_) => return Err(RowFault::Absent),
        }
        Ok(RowAnswer::Done)
    }

    /// `fail-call N`: the Nth call of the store from here on fails.
    fn fail_call(&mut self, arguments: &[Word<'_>]) -> Result<RowAnswer, RowFault> {
        let [call] = arguments else {
            return Err(RowFault::Words);
        };
        let call = number(*call)?;
        if call == 0 {
            return Err(RowFault::Unready);
        }
        self.store.fail_call(call);
        Ok(RowAnswer::Done)
    }

    /// Keeps the status of a refusal, and answers its code and its text.
    fn refuse(&mut self, alloc: Global, error: HostError) -> Result<RowAnswer, RowFault> {
        let code = error.code();
        self.status = code.status();
        Ok(RowAnswer::Refused(format!(in alloc; "{code} {error}")?))
    }

    /// Runs the sessions of so many bytes of the configuration.
    fn ran(
        &mut self,
        alloc: Global,
        length: usize,
        stops_idle: bool,
    ) -> Result<Result<Report, HostError>, RowFault> {
        self.heard = TypingOutcome::before(alloc, self.asked.keys.as_slice())?;
        let bytes = self.config.as_bytes();
        let config = &bytes[..length.min(bytes.len())];
        let (store, heard) = (&mut self.store, &mut self.heard);
        Ok(run(alloc, config, &self.asked, stops_idle, store, heard))
    }

    /// `run`: runs the sessions. `run stop-idle`: each ends where it waits and no key will come. The line that reports each.
    fn run(&mut self, alloc: Global, arguments: &[Word<'_>]) -> Result<RowAnswer, RowFault> {
        let stops_idle = stops_idle(arguments)?;
        let length = self.config.as_str().len();
        match self.ran(alloc, length, stops_idle)? {
            Ok(report) => {
                let lines = report_lines(alloc, &report)?;
                self.report = report;
                self.status = 0;
                Ok(RowAnswer::Words(lines))
            }
            Err(error) => self.refuse(alloc, error),
        }
    }

    /// `cuts`: runs each beginning of the configuration, from no byte up to all. How many were run, and how many refused as configurations.
    fn cuts(&mut self, alloc: Global) -> Result<RowAnswer, RowFault> {
        let (mut runs, mut refusals) = (0u64, 0u64);
        for end in 0..=self.config.as_str().len() {
            let outcome = self.ran(alloc, end, false)?;
            match status_of(&outcome) {
                0 => runs = runs.saturating_add(1),
                CONFIG_REFUSED => refusals = refusals.saturating_add(1),
                _ => return RowAnswer::refused_text(alloc, "a beginning is refused otherwise"),
            }
        }
        Ok(RowAnswer::Words(format!(in alloc; "{runs} run, {refusals} refused")?))
    }

    /// `illegal N`: the bytes that are no instruction at which the Nth session ended, or `none`.
    fn illegal(&self, alloc: Global, arguments: &[Word<'_>]) -> Result<RowAnswer, RowFault> {
        let place = count_of(arguments)?.saturating_sub(1);
        match self.report.sessions.get(place) {
            Some(session) => match session.ending.illegal() {
                Some(bytes) => RowAnswer::words(alloc, bytes),
                None => RowAnswer::words(alloc, "none"),
            },
            None => Err(RowFault::Absent),
        }
    }
}
