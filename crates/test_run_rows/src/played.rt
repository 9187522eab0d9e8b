//! Programs that are run, typed at, and played again.

use crate::programs::Programs;
use cpm_geom::Image;
use cpm_host::{
    CuedKeys, HostError, KeyReader, NoWatcher, ProgramPlay, ProgramStart, SavedMachine, Source,
    cues_of, run_program, saved_machine_of,
};
use std::alloc::Global;
use std::io;
use std::io::Write;
use test_language::{RowAnswer, RowFault, RowLine, Word};

/// The file of the key script.
const KEYS: &str = "a.keys";

impl Programs {
    /// Does a line that plays a program.
    pub(crate) fn play(
        &mut self,
        alloc: Global,
        line: &RowLine<'_>,
    ) -> Result<RowAnswer, RowFault> {
        match line.verb() {
            "com" => self.com(alloc, line.arguments()),
            "type" => self.type_keys(alloc, line),
            "go-on" => self.go_on(),
            _ => self.replay(alloc),
        }
    }

    /// Copies of the drives.
    fn drives(&self, alloc: Global) -> Result<Vec<Image>, RowFault> {
        let mut drives = Vec::new(alloc);
        for drive in &self.drives {
            drives.push(drive.copy(alloc)?)?;
        }
        Ok(drives)
    }

    /// The program, if the machine begins one, and not at the prompt.
    fn program_if_any(&self, alloc: Global) -> Result<Option<Vec<u8>>, RowFault> {
        if self.at_prompt || self.saving.is_some() {
            return Ok(None);
        }
        Ok(Some(Vec::from_slice(alloc, self.program.as_slice())?))
    }

    /// A copy of the system drive, if there is one.
    fn system_if_any(&self, alloc: Global) -> Result<Option<Image>, RowFault> {
        match &self.system {
            Some(image) => Ok(Some(image.copy(alloc)?)),
            None => Ok(None),
        }
    }

    /// The saved machine that goes on, if there is one.
    pub(crate) fn saved_if_any(
        &self,
        alloc: Global,
    ) -> Result<Option<Box<SavedMachine>>, RowFault> {
        let Some(saving) = &self.saving else {
            return Ok(None);
        };
        match saved_machine_of(alloc, "a.sav", saving.as_slice()) {
            Ok(saved) => Ok(Some(saved)),
            Err(_) => Err(RowFault::Unready),
        }
    }

    /// `go-on`: commands go on with the machine that was saved at the end of the last one, which shows nothing any more.
    fn go_on(&mut self) -> Result<RowAnswer, RowFault> {
        let saved = match &mut self.played {
            Some(play) => play.saved.take(),
            None => None,
        };
        if saved.is_none() {
            return Err(RowFault::Absent);
        }
        self.saving = saved;
        self.keys.clear();
        self.drives.clear();
        Ok(RowAnswer::Done)
    }

    /// What a machine is played with.
    pub(crate) fn start(&self, alloc: Global) -> Result<ProgramStart, RowFault> {
        Ok(ProgramStart {
            cpu: self.cpu,
            program: self.program_if_any(alloc)?,
            tail: self.tail.clone()?,
            drives: self.drives(alloc)?,
            system: self.system_if_any(alloc)?,
            saved: self.saved_if_any(alloc)?,
            is_saved: self.is_saved,
        })
    }

    /// Keeps the result of a program, and answers how it ended.
    fn keep(
        &mut self,
        alloc: Global,
        outcome: Result<ProgramPlay, HostError>,
    ) -> Result<RowAnswer, RowFault> {
        match outcome {
            Ok(typed) => {
                let ending = typed.ending;
                self.played = Some(typed);
                self.status = 0;
                RowAnswer::words(alloc, ending)
            }
            Err(error) => self.refuse(alloc, error),
        }
    }

    /// `com`: runs the program by its script. `com stop-idle`: and it stops where it waits for a key and none will come. How it ended.
    fn com(&mut self, alloc: Global, arguments: &[Word<'_>]) -> Result<RowAnswer, RowFault> {
        let stops_idle = match arguments {
            [] => false,
            [word] if word.text == "stop-idle" => true,
            _ => return Err(RowFault::Words),
        };
        let start = self.start(alloc)?;
        self.out.bytes.clear();
        self.record.clear();
        let outcome = by_script(
            alloc,
            start,
            self.steps,
            KEYS,
            self.keys.as_slice(),
            stops_idle,
            &mut self.out,
            &mut self.record,
        );
        self.keep(alloc, outcome)
    }

    /// `type BYTES`: the script is played, if there is one, and then these keys are typed at the program. How it ended.
    fn type_keys(&mut self, alloc: Global, line: &RowLine<'_>) -> Result<RowAnswer, RowFault> {
        let keys = line.given(alloc, line.arguments())?;
        let start = self.start(alloc)?;
        self.out.bytes.clear();
        self.record.clear();
        let outcome = by_keys(
            alloc,
            start,
            self.steps,
            self.keys.as_slice(),
            keys.as_slice(),
            &mut self.out,
            &mut self.record,
        );
        self.keep(alloc, outcome)
    }

    /// `replay`: whether the record of the keys, as a script, gives the same end and the same text.
    fn replay(&mut self, alloc: Global) -> Result<RowAnswer, RowFault> {
        let start = self.start(alloc)?;
        let typed = self.played()?;
        let (mut again, mut keys) = (Vec::new(alloc), Vec::new(alloc));
        match by_script(
            alloc,
            start,
            typed.steps,
            "record",
            self.record.as_slice(),
            false,
            &mut again,
            &mut keys,
        ) {
            Ok(played) => {
                let is_same = played.ending == typed.ending
                    && again.as_slice() == self.out.bytes.as_slice();
                RowAnswer::truth(alloc, is_same)
            }
            Err(error) => self.refuse(alloc, error),
        }
    }
}

/// Runs a program by the script in a file of this name, with this text.
fn by_script<W: Write>(
    alloc: Global,
    start: ProgramStart,
    steps: u64,
    name: &str,
    text: &[u8],
    stops_idle: bool,
    out: &mut W,
    record: &mut Vec<u8>,
) -> Result<ProgramPlay, HostError> {
    // (a program is judged before its script)
    start.check()?;
    let cues = cues_of(alloc, name, text)?;
    let source = Source::Cues(CuedKeys {
        cues: cues.as_slice(),
        waits_from: 0,
        stops_idle,
    });
    let nothing: &[u8] = &[];
    run_program(
        alloc,
        start,
        steps,
        source,
        &mut KeyReader::new(nothing),
        out,
        &mut io::sink(),
        record,
        &mut NoWatcher,
    )
}

/// Runs a program by this script and then by the keys that are typed.
fn by_keys<W: Write>(
    alloc: Global,
    start: ProgramStart,
    steps: u64,
    script: &[u8],
    typed: &[u8],
    out: &mut W,
    record: &mut Vec<u8>,
) -> Result<ProgramPlay, HostError> {
    // (a program is judged before its script)
    start.check()?;
    let cues = cues_of(alloc, KEYS, script)?;
    let source = Source::Typed {
        cues: cues.as_slice(),
    };
    run_program(
        alloc,
        start,
        steps,
        source,
        &mut KeyReader::new(typed),
        out,
        &mut io::sink(),
        record,
        &mut NoWatcher,
    )
}
