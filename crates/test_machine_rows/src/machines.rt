//! Rows of machines by themselves.

ghost use Rattle.std.specs.Prelude.{IfOk};
ghost use Rattle.cpm_play.specs.Playing.{IsFresh};

use crate::look::{field, granted};
use crate::shown::{TakenBytes, room};
use cpm_flags::Cpu;
use cpm_geom::{Format, Image};
use cpm_machine::{Machine, OpenError, Opening, Tail};
use cpm_play::PlayEnd;
use std::alloc::{AllocError, Global};
use test_images::Images;
use test_language::{
    RowAnswer, RowFault, RowLine, Scene, Word, address, bytes_if_any, bytes_of, memory_length,
    number,
};

/// What a machine is made of.
#[derive(Drop)]
pub struct MachineParts {
    cpu: Cpu,
    quota: u16,
    drives: Vec<Image>,
    program: Option<Vec<u8>>,
}

/// The machine of a row.
#[derive(Drop)]
pub struct Machines {
    pub system: Image,
    images: Images,
    program: Option<Vec<u8>>,
    tail: Option<Tail>,
    pub start: Option<MachineParts>,
    pub machine: Option<Machine>,
    /// The one that was made before it.
    pub earlier: Option<Machine>,
    pub shown: TakenBytes,
    pub play: Play,
}

/// How a machine is played, and the result.
#[derive(Drop)]
pub struct Play {
    pub waits_from: u64,
    pub stops_idle: bool,
    /// What is played before who types.
    pub script: Vec<u8>,
    /// After how many steps one who doesn't wait breaks in on it.
    pub breaks_in: Option<u64>,
    pub steps: u64,
    pub text: Vec<u8>,
    pub printed: Vec<u8>,
    pub record: Vec<u8>,
    pub left: Vec<u8>,
    /// Why it ended, where one typed.
    pub end: Option<PlayEnd>,
}

impl Play {
    /// Nothing was played yet.
    fn new(alloc: Global) -> Play {
        Play {
            waits_from: 0,
            stops_idle: false,
            script: Vec::new(alloc),
            breaks_in: None,
            steps: 0,
            text: Vec::new(alloc),
            printed: Vec::new(alloc),
            record: Vec::new(alloc),
            left: Vec::new(alloc),
            end: None,
        }
    }
}

impl MachineParts {
    /// A machine of this, with no key pending and no byte to be taken.
    pub fn machine(&self, alloc: Global) -> Result<Result<Machine, OpenError>, RowFault>
        ensures { IfOk result (λ made. IfOk made IsFresh) }
    {
        let opening = self.opening(alloc)?;
        let Some(program) = &self.program else {
            return match Machine::new(alloc, opening) {
                Ok(machine) => Ok(Ok(machine)),
                Err((_opening, error)) => Ok(Err(error)),
            };
        };
        let program = Vec::from_slice(alloc, program.as_slice())?;
        match Machine::with_program(alloc, opening, program) {
            Ok(machine) => Ok(Ok(machine)),
            Err((_opening, _program, error)) => Ok(Err(error)),
        }
    }

    /// The opening, with copies of the drives.
    fn opening(&self, alloc: Global) -> Result<Opening, RowFault> {
        let mut drives = Vec::new(alloc);
        for image in &self.drives {
            drives.push(image.copy(alloc)?)?;
        }
        Ok(Opening {
            cpu: self.cpu,
            quota: self.quota,
            drives,
        })
    }
}

impl Scene for Machines {
    fn new(alloc: Global) -> Result<Machines, AllocError> {
        Ok(Machines {
            system: Image::blank(alloc, Format::Ibm3740)?,
            images: Images::new(alloc),
            program: None,
            tail: None,
            start: None,
            machine: None,
            earlier: None,
            shown: TakenBytes::new(alloc),
            play: Play::new(alloc),
        })
    }

    fn is_alone(verb: &str) -> bool {
        matches!(
            verb,
            "step"
                | "finish"
                | "alike"
                | "shown"
                | "recorded"
                | "left"
                | "replay"
                | "stops-idle"
                | "live-end"
        )
    }

    fn takes_text(verb: &str) -> bool {
        matches!(verb, "live" | "play" | "script")
    }

    fn act(&mut self, alloc: Global, line: &RowLine<'_>) -> Result<RowAnswer, RowFault> {
        let arguments = line.arguments();
        match line.verb() {
            "8080" => self.begin(alloc, Cpu::I8080, arguments),
            "z80" => self.begin(alloc, Cpu::Z80, arguments),
            "program" => self.program(alloc, arguments),
            "tail" => self.tail(alloc, arguments),
            "open" => self.open(alloc, arguments),
            "finish" => self.finish(alloc),
            "alike" => self.alike(alloc),
            "same-image" => self.same_image(alloc, arguments),
            "ending" | "has" => self.shown.act(alloc, line.verb(), arguments),
            "image" | "entry" | "record" | "sector" => self.images.act(alloc, line),
            _ if self.is_of_play(line.verb()) => self.act_play(alloc, line),
            _ => self.act_machine(alloc, line.verb(), arguments),
        }
    }
}

impl Machines {
    /// `8080 BYTES`, or `z80 BYTES`.
    fn begin(
        &mut self,
        alloc: Global,
        cpu: Cpu,
        bytes: &[Word<'_>],
    ) -> Result<RowAnswer, RowFault> {
        self.program = Some(bytes_if_any(alloc, bytes)?);
        let mut drives = Vec::new(alloc);
        drives.push(Image::blank(alloc, Format::Ibm3740)?)?;
        self.make(alloc, cpu, 256, drives)
    }

    /// `program BYTES`.
    fn program(&mut self, alloc: Global, bytes: &[Word<'_>]) -> Result<RowAnswer, RowFault> {
        self.program = Some(bytes_of(alloc, bytes)?);
        Ok(RowAnswer::Done)
    }

    /// `tail BYTES`.
    fn tail(&mut self, alloc: Global, bytes: &[Word<'_>]) -> Result<RowAnswer, RowFault> {
        let bytes = bytes_of(alloc, bytes)?;
        self.tail = Tail::new(bytes.as_slice());
        RowAnswer::truth(alloc, self.tail.is_some())
    }

    /// `open CPU PAGES IMAGE..`.
    fn open(&mut self, alloc: Global, arguments: &[Word<'_>]) -> Result<RowAnswer, RowFault> {
        let [cpu, quota, names @ ..] = arguments else {
            return Err(RowFault::Words);
        };
        let cpu = cpu_of(*cpu)?;
        let Ok(quota) = u16::try_from(number(*quota)?) else {
            return Err(RowFault::Number);
        };
        let drives = self.images.copies(alloc, names)?;
        self.make(alloc, cpu, quota, drives)
    }

    /// Makes a machine of this, with the program and the tail that were given before.
    fn make(
        &mut self,
        alloc: Global,
        cpu: Cpu,
        quota: u16,
        drives: Vec<Image>,
    ) -> Result<RowAnswer, RowFault> {
        let program = match &self.program {
            Some(program) => Some(Vec::from_slice(alloc, program.as_slice())?),
            None => None,
        };
        let start = MachineParts {
            cpu,
            quota,
            drives,
            program,
        };
        let made = match (&self.tail, &self.program) {
            (Some(tail), Some(program)) => with_tail(alloc, &start, program.as_slice(), tail)?,
            _ => start.machine(alloc)?,
        };
        self.start = Some(start);
        match made {
            Ok(machine) => {
                self.put(machine);
                Ok(RowAnswer::Done)
            }
            Err(error) => RowAnswer::refused(alloc, error),
        }
    }

    /// Puts a machine in the place of the one before, which is kept.
    pub fn put(&mut self, machine: Machine) {
        self.earlier = self.machine.take();
        self.machine = Some(machine);
    }

    /// `finish`: ends the machine. Its steps, and its drives, which are images from now on.
    fn finish(&mut self, alloc: Global) -> Result<RowAnswer, RowFault> {
        let Some(machine) = self.machine.take() else {
            return Err(RowFault::Absent);
        };
        let closed = machine.finish();
        let mut answer = format!(in alloc; "{}", closed.look.count)?;
        for (name, drive) in ["A", "B", "C", "D"].into_iter().zip(closed.drives) {
            if let Some(image) = drive {
                self.images.put(alloc, name, image)?;
                answer.push(' ')?;
                answer.push_str(name)?;
            }
        }
        Ok(RowAnswer::Words(answer))
    }

    /// `alike`: whether the machine and the one before it show the same and have the same memory.
    fn alike(&self, alloc: Global) -> Result<RowAnswer, RowFault> {
        let (Some(one), Some(other)) = (&self.machine, &self.earlier) else {
            return Err(RowFault::Absent);
        };
        RowAnswer::truth(
            alloc,
            one.look() == other.look() && (0..=0xFFFFu16).all(|at| one.peek(at) == other.peek(at)),
        )
    }

    /// `same-image NAME OTHER`.
    fn same_image(&self, alloc: Global, arguments: &[Word<'_>]) -> Result<RowAnswer, RowFault> {
        let [name, other] = arguments else {
            return Err(RowFault::Words);
        };
        let one = self.images.copy(alloc, name.text)?.into_bytes();
        let other = self.images.copy(alloc, other.text)?.into_bytes();
        RowAnswer::truth(alloc, one.as_slice() == other.as_slice())
    }

    /// A line to the machine itself.
    fn act_machine(
        &mut self,
        alloc: Global,
        verb: &str,
        arguments: &[Word<'_>],
    ) -> Result<RowAnswer, RowFault> {
        let Some(machine) = &mut self.machine else {
            return Err(RowFault::Absent);
        };
        let system = &self.system;
        match (verb, arguments) {
            ("key", keys) => press(alloc, machine, keys),
            ("grant", [steps]) => granted(alloc, machine.grant(system, number(*steps)?)),
            ("until", [steps, pc]) => granted(
                alloc,
                machine.grant_until(system, number(*steps)?, address(*pc)?),
            ),
            ("to-wait", [steps]) => {
                RowAnswer::words(alloc, machine.grant_to_wait(system, number(*steps)?))
            }
            ("step", []) => RowAnswer::truth(alloc, machine.step(system)),
            ("look", [name]) => field(alloc, &machine.look(), *name),
            ("peek", [at]) => RowAnswer::byte(alloc, machine.peek(address(*at)?)),
            ("peek", [at, length]) => peek(alloc, machine, address(*at)?, memory_length(*length)?),
            ("take", _) => take(alloc, machine, &mut self.shown, arguments),
            ("list", _) => take_list(alloc, machine, &mut self.shown, arguments),
            _ => Err(RowFault::Unknown),
        }
    }
}

/// The processor of a name.
pub fn cpu_of(word: Word<'_>) -> Result<Cpu, RowFault> {
    match word.text {
        "8080" => Ok(Cpu::I8080),
        "z80" => Ok(Cpu::Z80),
        _ => Err(RowFault::Words),
    }
}

/// A machine with the tail of a command.
fn with_tail(
    alloc: Global,
    start: &MachineParts,
    program: &[u8],
    tail: &Tail,
) -> Result<Result<Machine, OpenError>, RowFault> {
    let opening = start.opening(alloc)?;
    let program = Vec::from_slice(alloc, program)?;
    Ok(Machine::with_command(alloc, opening, program, tail).map_err(|(_, _, error)| error))
}

/// `key BYTES`.
fn press(alloc: Global, machine: &mut Machine, keys: &[Word<'_>]) -> Result<RowAnswer, RowFault> {
    for key in &bytes_of(alloc, keys)? {
        if let Err(error) = machine.key(*key) {
            return RowAnswer::refused(alloc, error);
        }
    }
    Ok(RowAnswer::Done)
}

/// So many bytes of the machine's memory.
fn peek(alloc: Global, machine: &Machine, at: u16, length: usize) -> Result<RowAnswer, RowFault> {
    let mut bytes = Vec::new(alloc);
    let mut at = at;
    for _ in 0..length {
        bytes.push(machine.peek(at))?;
        at = at.wrapping_add(1);
    }
    Ok(RowAnswer::Bytes(bytes))
}

/// `take`, or `take N`.
fn take(
    alloc: Global,
    machine: &mut Machine,
    shown: &mut TakenBytes,
    arguments: &[Word<'_>],
) -> Result<RowAnswer, RowFault> {
    let mut out = room(alloc, arguments)?;
    let count = machine.take(&mut out);
    shown.keep(alloc, out, count)
}

/// `list`, or `list N`.
fn take_list(
    alloc: Global,
    machine: &mut Machine,
    shown: &mut TakenBytes,
    arguments: &[Word<'_>],
) -> Result<RowAnswer, RowFault> {
    let mut out = room(alloc, arguments)?;
    let count = machine.take_list(&mut out);
    shown.keep(alloc, out, count)
}
