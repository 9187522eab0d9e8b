//! Answering an order.
ghost use Rattle.std.specs.Prelude.{◌≡◌, ◌≢◌, [], OnOk, OnErr, if◌then◌else◌};
ghost use Rattle.std.specs.Io.KnownBytes.{Appends};
ghost use Rattle.cpm_script.specs.KeyText.{keys_of};
ghost use Rattle.cpm_machine.specs.Calls.{granted};
ghost use Rattle.cpm_machine.specs.Serve.{executed};
ghost use Rattle.cpm_machine.specs.Step.{after};
ghost use Rattle.cpm_machine.specs.Until.{executed_until, granted_until};
ghost use Rattle.cpm_listing.specs.Dump.{dump_line};
ghost use Rattle.cpm_listing.specs.Instruction.{instruction_line};
ghost use Rattle.cpm_listing.specs.Registers.{regs_line};
ghost use Rattle.cpm_debug.specs.Dialog.{debug_answer, bytes_from, grant_line, ended_line, request_pressed, unknown_line, with_source};
ghost use Rattle.cpm_debug.specs.Orders.{request_of_order, press_of};
ghost use Rattle.cpm_debug.specs.Source.{source_line};

use crate::grant_line::grant_line;
use crate::memory::{four, sixteen};
use crate::order::Order;
use crate::press::press_text;
use crate::source::source_line;
use crate::write::{write_line, write_text, write_with_source};
use cpm_flags::Cpu;
use cpm_geom::Image;
use cpm_listing::{dump_line, instruction_line, regs_line};
use cpm_machine::Machine;
use std::io;
use std::io::Write;

/// Writes a line, and the line of the listing that shows where the program stands.
#[tactic(auto, unfolding(cpm_machine::specs::Serve::look_of))]
fn write_place<W: Write>(
    line: &str,
    listing: &[u8],
    machine: &Machine,
    out: &mut W,
) -> io::Result<()>
    ensures { OnOk result (Appends (W.contents out.old) (W.contents out.new)
        (with_source line.now (source_line listing.now machine.now.session.regs.pc))) }
{
    write_with_source(out, line, source_line(listing, machine.look().regs.pc))
}

/// Grants steps.
fn grant<W: Write>(
    system: &Image,
    listing: &[u8],
    steps: u64,
    machine: &mut Machine,
    out: &mut W,
) -> io::Result<()>
    ensures state { machine.new ≡ after system.now (executed system.now steps machine.old) machine.old }
    ensures text { OnOk result (Appends (W.contents out.old) (W.contents out.new)
        (with_source (grant_line (granted system.now steps machine.old)) (source_line listing.now machine.new.session.regs.pc))) }
{
    let granted = machine.grant(system, steps);
    write_place(grant_line(granted).as_str(), listing, machine, out)
}

/// Grants steps up to an address.
fn grant_until<W: Write>(
    system: &Image,
    listing: &[u8],
    pc: u16,
    steps: u64,
    machine: &mut Machine,
    out: &mut W,
) -> io::Result<()>
    ensures state { machine.new ≡ after system.now (executed_until system.now pc steps machine.old) machine.old }
    ensures text { OnOk result (Appends (W.contents out.old) (W.contents out.new)
        (with_source (grant_line (granted_until system.now pc steps machine.old)) (source_line listing.now machine.new.session.regs.pc))) }
{
    let granted = machine.grant_until(system, steps, pc);
    write_place(grant_line(granted).as_str(), listing, machine, out)
}

/// Shows sixteen bytes.
fn dump<W: Write>(address: u16, machine: &Machine, out: &mut W) -> io::Result<()>
    ensures { OnOk result (Appends (W.contents out.old) (W.contents out.new)
        (ended_line (dump_line address (bytes_from machine.now.memory address 16)))) }
{
    let line = dump_line(address, &sixteen(machine, address));
    write_line(out, line.as_str())
}

/// Shows the instruction of a processor that four bytes begin with.
fn list_at<W: Write>(cpu: Cpu, address: u16, machine: &Machine, out: &mut W) -> io::Result<()>
    ensures { OnOk result (Appends (W.contents out.old) (W.contents out.new)
        (ended_line (instruction_line cpu address (bytes_from machine.now.memory address 4)))) }
{
    let line = instruction_line(cpu, address, four(machine, address));
    write_line(out, line.as_str())
}

/// Shows the registers.
#[tactic(auto, unfolding(cpm_machine::specs::Serve::look_of))]
fn registers<W: Write>(cpu: Cpu, listing: &[u8], machine: &Machine, out: &mut W) -> io::Result<()>
    ensures { OnOk result (Appends (W.contents out.old) (W.contents out.new)
        (with_source (regs_line cpu machine.now.session.regs machine.now.count) (source_line listing.now machine.now.session.regs.pc))) }
{
    let look = machine.look();
    let line = regs_line(cpu, &look.regs, look.count);
    write_place(line.as_str(), listing, machine, out)
}

/// Presses the keys that a text stands for.
fn press_keys<W: Write>(text: &[u8], machine: &mut Machine, out: &mut W) -> io::Result<()>
    ensures state { machine.new ≡ (request_pressed (press_of (keys_of text.now)) machine.old).state }
    ensures text { OnOk result (Appends (W.contents out.old) (W.contents out.new)
        (if (request_pressed (press_of (keys_of text.now)) machine.old).accepted then [] else unknown_line)) }
    ensures refused { OnErr result
        ((if (request_pressed (press_of (keys_of text.now)) machine.old).accepted then [] else unknown_line) ≢ []) }
{
    if press_text(machine, text) {
        return Ok(());
    }
    write_line(out, "?")
}

/// Does what an order asks for, and writes the answer.
///
/// An error is the writer's: it comes only where there is an answer.
#[tactic(auto, using(crate::proofs::SourceLemmas::with_source_some), unfolding(crate::specs::Dialog::debug_answer))]
pub(crate) fn obey<W: Write>(
    system: &Image,
    cpu: Cpu,
    listing: &[u8],
    order: Order<'_>,
    machine: &mut Machine,
    out: &mut W,
) -> io::Result<()>
    ensures state { OnOk result (machine.new ≡ (debug_answer system.now cpu listing.now (request_of_order order.entry) machine.old).state) }
    ensures text { OnOk result (Appends (W.contents out.old) (W.contents out.new)
        (debug_answer system.now cpu listing.now (request_of_order order.entry) machine.old).text) }
    ensures refused { OnErr result ((debug_answer system.now cpu listing.now (request_of_order order.entry) machine.old).text ≢ []) }
{
    match order {
        Order::Grant(steps) => grant(system, listing, steps, machine, out),
        Order::GrantUntil(pc, steps) => grant_until(system, listing, pc, steps, machine, out),
        Order::Dump(address) => dump(address, machine, out),
        Order::ListAt(address) => list_at(cpu, address, machine, out),
        Order::Registers => registers(cpu, listing, machine, out),
        Order::Press(text) => press_keys(text, machine, out),
        Order::Output => write_text(machine, out),
        Order::Quit => Ok(()),
        Order::Unknown => write_line(out, "?"),
    }
}
