//! How a session ended, and where.
ghost use Rattle.std.specs.Prelude.{◌≡◌, Some};
ghost use Rattle.cpm_memory.specs.Contents.{byte_at, run_at};
ghost use Rattle.cpm_slots.specs.Host.{slot_at};
ghost use Rattle.cpm_machine.specs.MachineState.{MachineState};
ghost use Rattle.cpm_run.specs.Ending.{end_word, ending_of, ending_text, illegal_of, illegal_text};

use crate::digits::{FourDigits, TwoDigits};
use cpm_machine::{End, Machine};
use cpm_slots::{Host, SlotId};
use std::fmt;

/// How a session ended, and where. Its text is `end END count N pc HHHH`.
#[derive(Clone, Copy, PartialEq, Eq)]
pub struct Ending {
    /// How it ended, or that it still runs.
    pub ended: End,
    /// How many steps it executed.
    pub count: u64,
    /// The program counter.
    pub pc: u16,
    /// The four bytes from there on, where 0000h follows FFFFh.
    pub at_pc: [u8; 4],
}

/// The bytes at which a session ended that are no instruction. Its text is `illegal at HHHH: HH HH HH HH`.
#[derive(Clone, Copy, PartialEq, Eq)]
pub struct IllegalBytes {
    /// The program counter.
    pub pc: u16,
    /// The bytes from there on, where 0000h follows FFFFh.
    pub bytes: [u8; 4],
}

impl Ending {
    /// The ending of a machine that stands as it is now.
    #[tactic(auto, unfolding(cpm_machine::specs::Serve::look_of, cpm_memory::specs::Contents::run_at))]
    pub fn of(machine: &Machine) -> Ending
        ensures { result ≡ ending_of machine.now }
    {
        let look = machine.look();
        let pc = look.regs.pc;
        Ending {
            ended: look.ended,
            count: look.count,
            pc,
            at_pc: [
                machine.peek(pc),
                machine.peek(pc.wrapping_add(1)),
                machine.peek(pc.wrapping_add(2)),
                machine.peek(pc.wrapping_add(3)),
            ],
        }
    }

    /// The bytes that are no instruction, where it ended at such.
    pub fn illegal(&self) -> Option<IllegalBytes>
        ensures { result ≡ illegal_of self.now.ended self.now.pc self.now.at_pc }
    {
        match self.ended {
            End::Illegal => Some(IllegalBytes {
                pc: self.pc,
                bytes: self.at_pc,
            }),
            _ => None,
        }
    }
}

/// The word for how a session ended.
pub fn end_word(ended: End) -> &'static str
    ensures { result.now ≡ end_word ended }
{
    match ended {
        End::Running => "Running",
        End::Halted => "Halted",
        End::Illegal => "Illegal",
        End::Quota => "Quota",
        End::CountEnd => "CountEnd",
        End::Exited => "Exited",
    }
}

impl fmt::Display for Ending {
    ghost output = { λ e. Some (ending_text e) };

    fn fmt<W: fmt::Write>(&self, f: &mut fmt::Formatter<W>) -> fmt::Result {
        let word = end_word(self.ended);
        let count = self.count;
        let pc = FourDigits(self.pc);
        write!(f, "end {word} count {count} pc {pc}")
    }
}

impl fmt::Display for IllegalBytes {
    ghost output = { λ i. Some (illegal_text i) };

    fn fmt<W: fmt::Write>(&self, f: &mut fmt::Formatter<W>) -> fmt::Result {
        let pc = FourDigits(self.pc);
        let (first, second) = (TwoDigits(self.bytes[0]), TwoDigits(self.bytes[1]));
        let (third, fourth) = (TwoDigits(self.bytes[2]), TwoDigits(self.bytes[3]));
        write!(f, "illegal at {pc}: {first} {second} {third} {fourth}")
    }
}

/// The byte at an address of a slot that is open.
fn byte_of(host: &Host, id: SlotId, address: u16) -> u8
    ensures { (s : MachineState) → slot_at id.0 host.now.host.slots ≡ Some s → result ≡ byte_at s.memory address }
{
    match host.peek(id, address) {
        Ok(byte) => byte,
        Err(_) => 0,
    }
}

/// The four bytes from an address on of a slot that is open.
#[tactic(auto, unfolding(cpm_memory::specs::Contents::run_at))]
fn bytes_of(host: &Host, id: SlotId, address: u16) -> [u8; 4]
    ensures { (s : MachineState) → slot_at id.0 host.now.host.slots ≡ Some s → result ≡ run_at s.memory address 4 }
{
    [
        byte_of(host, id, address),
        byte_of(host, id, address.wrapping_add(1)),
        byte_of(host, id, address.wrapping_add(2)),
        byte_of(host, id, address.wrapping_add(3)),
    ]
}

/// The ending of a slot that is open.
pub(crate) fn ending_of_slot(host: &mut Host, id: SlotId) -> Option<Ending>
    ensures ending { (s : MachineState) → slot_at id.0 host.old.host.slots ≡ Some s → result ≡ Some (ending_of s) }
    ensures host { host.new ≡ host.old }
{
    let Ok(look) = host.look(id) else {
        return None;
    };
    let pc = look.regs.pc;
    Some(Ending {
        ended: look.ended,
        count: look.count,
        pc,
        at_pc: bytes_of(host, id, pc),
    })
}
