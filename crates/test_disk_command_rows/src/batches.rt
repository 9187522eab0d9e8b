//! What a run reads for the sessions of a configuration, and what it writes after them.

use crate::files::{refused_with, shown_status};
use crate::stores::Stores;
use cpm_batch::{Input, ReadError, SessionFiles, Start, outputs_of, read_inputs};
use cpm_config::{Config, SessionConfig};
use cpm_flags::Cpu;
use cpm_geom::{Format, Image};
use cpm_machine::{LEAST_QUOTA, Machine, Opening, digest_of};
use cpm_script::Cue;
use cpm_store::{MemoryStore, Output, Store};
use std::alloc::{AllocError, Global};
use test_images::Images;
use test_language::{RowAnswer, RowFault, RowLine, Scene, Word, bytes_of, number};

/// A configuration, the images and the store that its files are in, and the status of the last refusal.
#[derive(Drop)]
pub struct Batches {
    config: Option<Config>,
    images: Images,
    files: Stores,
    status: Option<u8>,
}

impl Scene for Batches {
    fn new(alloc: Global) -> Result<Batches, AllocError> {
        Ok(Batches {
            config: None,
            images: Images::new(alloc),
            files: Stores::new(alloc)?,
            status: None,
        })
    }

    fn is_alone(verb: &str) -> bool {
        [
            "config",
            "inputs",
            "status",
            "failures",
            "write-all",
            "told",
        ]
        .contains(&verb)
    }

    fn takes_text(verb: &str) -> bool {
        matches!(verb, "config")
    }

    fn act(&mut self, alloc: Global, line: &RowLine<'_>) -> Result<RowAnswer, RowFault> {
        match line.verb() {
            "config" => self.take(alloc, line),
            "drive" => self.put(alloc, line.arguments()),
            "saving" => self.save(alloc, line.arguments()),
            "inputs" => self.inputs(alloc),
            "status" => shown_status(alloc, self.status),
            "outputs" => self.outputs(alloc, line.arguments(), false),
            "saved-outputs" => self.outputs(alloc, line.arguments(), true),
            "image" | "entry" | "record" | "sector" => self.images.act(alloc, line),
            _ => self.files.act(alloc, line),
        }
    }
}

impl Batches {
    /// `config`, with a text between marks: the configuration, whose forks must break no rule.
    fn take(&mut self, alloc: Global, line: &RowLine<'_>) -> Result<RowAnswer, RowFault> {
        let text = line.given(alloc, line.arguments())?;
        match Config::read(alloc, text.as_slice()) {
            Ok(config) => {
                self.config = Some(config);
                Ok(RowAnswer::Done)
            }
            Err(error) => RowAnswer::refused_text(alloc, error),
        }
    }

    /// `drive NAME IMAGE`: the file holds an image.
    fn put(&mut self, alloc: Global, arguments: &[Word<'_>]) -> Result<RowAnswer, RowFault> {
        let [name, image] = arguments else {
            return Err(RowFault::Words);
        };
        let bytes = self.images.copy(alloc, image.text)?.into_bytes();
        match self.files.store.write(name.text, bytes.as_slice()) {
            Ok(()) => Ok(RowAnswer::Done),
            Err(error) => RowAnswer::refused(alloc, error),
        }
    }

    /// `saving NAME STEPS IMAGE ..`: the file holds the saving of a machine with these drives that executed so many steps over a blank
    /// system drive.
    fn save(&mut self, alloc: Global, arguments: &[Word<'_>]) -> Result<RowAnswer, RowFault> {
        let [name, steps, images @ ..] = arguments else {
            return Err(RowFault::Words);
        };
        let mut drives = Vec::new(alloc);
        for image in images {
            drives.push(self.images.copy(alloc, image.text)?)?;
        }
        let bytes = saving_of(alloc, drives, number(*steps)?)?;
        match self.files.store.write(name.text, bytes.as_slice()) {
            Ok(()) => Ok(RowAnswer::Done),
            Err(error) => RowAnswer::refused(alloc, error),
        }
    }

    /// `inputs`: what is read for the configuration, a line for each session.
    fn inputs(&mut self, alloc: Global) -> Result<RowAnswer, RowFault> {
        let Some(config) = &self.config else {
            return Err(RowFault::Absent);
        };
        match read(alloc, config, &mut self.files.store)? {
            Ok(lines) => Ok(RowAnswer::Words(lines)),
            Err(error) => self.refuse(alloc, error),
        }
    }

    /// Answers a refusal with its code, and keeps its status.
    fn refuse(&mut self, alloc: Global, error: ReadError) -> Result<RowAnswer, RowFault> {
        let code = error.code();
        self.status = Some(code.status());
        refused_with(alloc, code, error)
    }

    /// `outputs CONSOLE LIST IMAGES`: the files that are written, each with its length, where each session left these texts and
    /// drives; `saved-outputs` where each is saved too, as the bytes of its console.
    fn outputs(
        &self,
        alloc: Global,
        arguments: &[Word<'_>],
        is_saved: bool,
    ) -> Result<RowAnswer, RowFault> {
        let [console, list, images @ ..] = arguments else {
            return Err(RowFault::Words);
        };
        let Some(config) = &self.config else {
            return Err(RowFault::Absent);
        };
        let mut all = Vec::new(alloc);
        for session in &config.sessions {
            let saved = if is_saved {
                Some(bytes_of(alloc, &[*console])?)
            } else {
                None
            };
            all.push(self.left_by(alloc, session, [*console, *list], images, saved)?)?;
        }
        shown_outputs(alloc, outputs_of(alloc, all)?.as_slice())
    }

    /// What a session left: the texts of its console and its list device, its drives and its saving.
    fn left_by<'a>(
        &self,
        alloc: Global,
        session: &'a SessionConfig,
        texts: [Word<'_>; 2],
        images: &[Word<'_>],
        saved: Option<Vec<u8>>,
    ) -> Result<SessionFiles<'a>, RowFault> {
        let [console, list] = texts;
        Ok(SessionFiles {
            session,
            console: bytes_of(alloc, &[console])?,
            list: bytes_of(alloc, &[list])?,
            drives: self.drives(alloc, images)?,
            saved,
        })
    }

    /// Copies of images as the drives from A on.
    fn drives(&self, alloc: Global, names: &[Word<'_>]) -> Result<[Option<Image>; 4], RowFault> {
        let a = self.drive(alloc, names.first())?;
        let b = self.drive(alloc, names.get(1))?;
        let c = self.drive(alloc, names.get(2))?;
        let d = self.drive(alloc, names.get(3))?;
        Ok([a, b, c, d])
    }

    /// A copy of an image, where one is named.
    fn drive(&self, alloc: Global, name: Option<&Word<'_>>) -> Result<Option<Image>, RowFault> {
        match name {
            Some(name) => Ok(Some(self.images.copy(alloc, name.text)?)),
            None => Ok(None),
        }
    }
}

/// The saving of a machine with these drives that executed so many steps over a blank system drive.
fn saving_of(alloc: Global, drives: Vec<Image>, steps: u64) -> Result<Vec<u8>, RowFault> {
    let system = Image::blank(alloc, Format::Ibm3740)?;
    let opening = Opening {
        cpu: Cpu::I8080,
        quota: LEAST_QUOTA,
        drives,
    };
    let Ok(mut machine) = Machine::new(alloc, opening) else {
        return Err(RowFault::Unready);
    };
    machine.grant(&system, steps);
    Ok(machine.save(alloc, &digest_of(&system))?)
}

/// What is read for a configuration, in lines, or the refusal.
fn read(
    alloc: Global,
    config: &Config,
    store: &mut MemoryStore,
) -> Result<Result<String, ReadError>, RowFault> {
    if config.fork_fault().is_some() {
        return Err(RowFault::Unready);
    }
    match read_inputs(alloc, config, &[], store) {
        Ok((_, sessions)) => Ok(Ok(shown_inputs(alloc, sessions.as_slice())?)),
        Err(error) => Ok(Err(error)),
    }
}

/// The names of the files that are written, each with its length.
fn shown_outputs(alloc: Global, outputs: &[Output<'_>]) -> Result<RowAnswer, RowFault> {
    let mut out = String::new(alloc);
    let mut separator = "";
    for output in outputs {
        out.push_str(separator)?;
        write!(out, "{} {}", output.name, output.bytes.len())?;
        separator = ", ";
    }
    Ok(RowAnswer::Words(out))
}

/// What was read for sessions, each on a line.
fn shown_inputs(alloc: Global, inputs: &[Input<'_>]) -> Result<String, RowFault> {
    let mut out = String::new(alloc);
    let mut separator = "";
    for input in inputs {
        out.push_str(separator)?;
        write_input(&mut out, input)?;
        separator = "\n";
    }
    Ok(out)
}

/// Adds what was read for a session.
fn write_input(out: &mut String, input: &Input<'_>) -> Result<(), RowFault> {
    out.push_str(input.session.name.as_str())?;
    write_start(out, &input.start)?;
    let steps = input.steps;
    write!(out, ", steps {steps}; cues ")?;
    if input.cues.is_empty() {
        return Ok(out.push_str("none")?);
    }
    write_cues(out, input.cues.as_slice())
}

/// Adds how a session begins.
fn write_start(out: &mut String, start: &Start) -> Result<(), AllocError> {
    match start {
        Start::Opened { cpu, quota, drives } => {
            let drives = drives.len();
            write!(out, ": opened on {cpu:?}, quota {quota}, drives {drives}")
        }
        Start::Forked { parent, at } => {
            write!(
                out,
                ": forked from session {parent}, counted from 0, at {at}"
            )
        }
        Start::Restored(saved) => {
            let count = saved.count();
            write!(out, ": saved at {count}")
        }
    }
}

/// Adds what a script says, one cue after another.
fn write_cues(out: &mut String, cues: &[Cue]) -> Result<(), RowFault> {
    let mut separator = "";
    for cue in cues {
        out.push_str(separator)?;
        write_cue(out, cue)?;
        separator = ", ";
    }
    Ok(())
}

/// Adds a cue: `key COUNT BYTE`, `wait TEXT` or `press BYTE`.
fn write_cue(out: &mut String, cue: &Cue) -> Result<(), RowFault> {
    match cue {
        Cue::Key(key) => write!(out, "key {} {:02X}", key.count, key.byte)?,
        Cue::Wait(text) => write_wait(out, text.as_slice())?,
        Cue::Press(byte) => write!(out, "press {byte:02X}")?,
    }
    Ok(())
}

fn write_wait(out: &mut String, text: &[u8]) -> Result<(), RowFault> {
    let text = str::from_utf8(text).map_err(|_| RowFault::Unready)?;
    Ok(write!(out, "wait {text:?}")?)
}
