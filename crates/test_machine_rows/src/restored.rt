//! Rows of machines each of which goes on by itself, and beside it in slots of another host, one more from its bytes before each line.

use crate::hosts::{act_slot, take, take_list};
use crate::machines::Machines;
use crate::shown::TakenBytes;
use cpm_geom::Image;
use cpm_machine::{Machine, SystemDigest, digest_of};
use cpm_slots::{Host, SlotId};
use std::alloc::{AllocError, Global};
use test_language::{RowAnswer, RowFault, RowLine, Scene, Word, number};

/// How many slots go on beside the machine at most: those that were restored last.
const MOST_BESIDE: usize = 6;

/// The frames of the other host: of so many slots that may write all pages, and some that nobody has.
const FRAMES: u16 = 2_048;

/// The machine of a row, which nobody restores, and the slots that do what it does.
#[derive(Drop)]
pub struct RestoredSlots {
    machines: Machines,
    beside: Option<Beside>,
}

/// The other host, and the digest of its system drive, with its slots in the order of their beginning.
#[derive(Drop)]
struct Beside {
    host: Host,
    digest: SystemDigest,
    slots: Vec<SlotId>,
    /// Whether the next slot is forked, and the fork goes on in its place.
    forks: bool,
}

impl Scene for RestoredSlots {
    fn new(alloc: Global) -> Result<RestoredSlots, AllocError> {
        Ok(RestoredSlots {
            machines: Machines::new(alloc)?,
            beside: None,
        })
    }

    fn is_alone(verb: &str) -> bool {
        Machines::is_alone(verb)
    }

    fn takes_text(verb: &str) -> bool {
        Machines::takes_text(verb)
    }

    fn act(&mut self, alloc: Global, line: &RowLine<'_>) -> Result<RowAnswer, RowFault> {
        match (line.verb(), line.arguments()) {
            ("each", [steps]) => self.each(alloc, number(*steps)?),
            ("key" | "grant" | "until" | "to-wait" | "step" | "take" | "list", _) => {
                self.follow(alloc, line)
            }
            ("look" | "peek" | "ending" | "has" | "image" | "entry" | "record" | "sector", _) => {
                self.machines.act(alloc, line)
            }
            _ => {
                self.beside = None;
                self.machines.act(alloc, line)
            }
        }
    }
}

impl RestoredSlots {
    /// Has one more slot go on from the bytes of the machine, in the place of the oldest where there are many.
    fn restore(&mut self, alloc: Global) -> Result<(), RowFault> {
        if self.beside.is_none() {
            self.beside = Some(Beside::new(alloc, &self.machines.system)?);
        }
        match (&self.machines.machine, &mut self.beside) {
            (Some(machine), Some(beside)) => beside.add(alloc, machine),
            _ => Err(RowFault::Absent),
        }
    }

    /// Whether each slot is the machine: it has the same bytes.
    fn are_same(&mut self, alloc: Global) -> Result<bool, RowFault> {
        match (&self.machines.machine, &mut self.beside) {
            (Some(machine), Some(beside)) => beside.are(alloc, machine),
            _ => Err(RowFault::Absent),
        }
    }

    /// How many steps the machine has made.
    fn count(&self) -> u64 {
        match &self.machines.machine {
            Some(machine) => machine.look().count,
            None => 0,
        }
    }

    /// A line that the machine does, and then the slots: each must answer the same and be the same afterwards.
    fn follow(&mut self, alloc: Global, line: &RowLine<'_>) -> Result<RowAnswer, RowFault> {
        self.restore(alloc)?;
        let before = self.count();
        let answer = self.machines.act(alloc, line)?;
        let went = self.count().wrapping_sub(before);
        if let Some(beside) = &mut self.beside {
            let is_followed = beside.follow(alloc, line.verb(), line.arguments(), went, &answer)?;
            if !is_followed {
                return Err(RowFault::Unready);
            }
        }
        if self.are_same(alloc)? {
            Ok(answer)
        } else {
            Err(RowFault::Unready)
        }
    }

    /// `each N`: so many steps, one at a time, each from bytes too. How many there were.
    fn each(&mut self, alloc: Global, steps: u64) -> Result<RowAnswer, RowFault> {
        let mut made = 0u64;
        for _ in 0..steps {
            self.restore(alloc)?;
            let went = self.step()?;
            if !self.are_same(alloc)? {
                return Err(RowFault::Unready);
            }
            made = made.wrapping_add(went);
        }
        RowAnswer::words(alloc, made)
    }

    /// A step of the machine and of each slot: whether there was one, as a number.
    fn step(&mut self) -> Result<u64, RowFault> {
        let system = &self.machines.system;
        let went = match &mut self.machines.machine {
            Some(machine) => u64::from(machine.step(system)),
            None => return Err(RowFault::Absent),
        };
        if let Some(beside) = &mut self.beside {
            for id in &beside.slots {
                let Ok(granted) = beside.host.grant(*id, 1) else {
                    return Err(RowFault::Absent);
                };
                if granted.executed != went {
                    return Err(RowFault::Unready);
                }
            }
        }
        Ok(went)
    }
}

impl Beside {
    /// No slot yet, in a host with this system drive.
    fn new(alloc: Global, system: &Image) -> Result<Beside, RowFault> {
        let digest = digest_of(system);
        match Host::new(alloc, system.copy(alloc)?, FRAMES) {
            Ok(host) => Ok(Beside {
                host,
                digest,
                slots: Vec::new(alloc),
                forks: false,
            }),
            Err(_) => Err(RowFault::Unready),
        }
    }

    /// One more slot, from the bytes of the machine: each second one is a fork of the slot that was restored.
    fn add(&mut self, alloc: Global, machine: &Machine) -> Result<(), RowFault> {
        if self.slots.len() >= MOST_BESIDE {
            let oldest = self.slots.remove(0);
            if self.host.close(oldest).is_err() {
                return Err(RowFault::Absent);
            }
        }
        let bytes = machine.save(alloc, &self.digest)?;
        let Ok(id) = self.host.restore(alloc, bytes.as_slice()) else {
            return Err(RowFault::Unready);
        };
        let id = if self.forks {
            self.fork_of(alloc, id)?
        } else {
            id
        };
        self.forks = !self.forks;
        self.slots.push(id)?;
        Ok(())
    }

    /// A fork of a slot, in its place.
    fn fork_of(&mut self, alloc: Global, id: SlotId) -> Result<SlotId, RowFault> {
        let Ok(fork) = self.host.fork(alloc, id) else {
            return Err(RowFault::Unready);
        };
        if self.host.close(id).is_err() {
            return Err(RowFault::Absent);
        }
        Ok(fork)
    }

    /// Whether all slots have the bytes of the machine.
    fn are(&mut self, alloc: Global, machine: &Machine) -> Result<bool, RowFault> {
        let bytes = machine.save(alloc, &self.digest)?;
        for id in &self.slots {
            let Ok(own) = self.host.save(alloc, *id) else {
                return Err(RowFault::Absent);
            };
            if own.as_slice() != bytes.as_slice() {
                return Ok(false);
            }
        }
        Ok(true)
    }

    /// Has all slots do a line, by which the machine went so many steps, and says whether they answer as it did.
    fn follow(
        &mut self,
        alloc: Global,
        verb: &str,
        arguments: &[Word<'_>],
        went: u64,
        answer: &RowAnswer,
    ) -> Result<bool, RowFault> {
        for id in &self.slots {
            let own = follow_one(alloc, &mut self.host, *id, verb, arguments, went)?;
            if !is_same(answer, &own) {
                return Ok(false);
            }
        }
        Ok(true)
    }
}

/// What a slot answers to a line, by which the machine went so many steps.
fn follow_one(
    alloc: Global,
    host: &mut Host,
    id: SlotId,
    verb: &str,
    arguments: &[Word<'_>],
    went: u64,
) -> Result<RowAnswer, RowFault> {
    match verb {
        "take" => take(alloc, host, &mut TakenBytes::new(alloc), id, arguments),
        "list" => take_list(alloc, host, &mut TakenBytes::new(alloc), id, arguments),
        "step" => match host.grant(id, 1) {
            Ok(granted) => RowAnswer::truth(alloc, granted.executed == 1),
            Err(refusal) => RowAnswer::refused(alloc, refusal),
        },
        "to-wait" => match host.grant(id, went) {
            Ok(granted) => RowAnswer::words(alloc, granted.executed),
            Err(refusal) => RowAnswer::refused(alloc, refusal),
        },
        _ => act_slot(alloc, host, verb, id, arguments),
    }
}

/// Whether two answers are one.
fn is_same(one: &RowAnswer, other: &RowAnswer) -> bool {
    match (one, other) {
        (RowAnswer::Done, RowAnswer::Done) => true,
        (RowAnswer::Words(one), RowAnswer::Words(other)) => one.as_str() == other.as_str(),
        (RowAnswer::Bytes(one), RowAnswer::Bytes(other)) => one.as_slice() == other.as_slice(),
        (RowAnswer::Refused(one), RowAnswer::Refused(other)) => one.as_str() == other.as_str(),
        _ => false,
    }
}
