//! The loader of programs.

ghost use Rattle.std.specs.Prelude.{◌≡◌, ◌+◌, ◌≤◌, ℕ, List, [], ◌∷◌, ◌++◌, length};
ghost use Rattle.cpm_memory.specs.Contents.{after_run};
ghost use Rattle.cpm_memory.specs.Room.{HasRoom, HasRoomFor};
ghost use Rattle.cpm_bdos.specs.StepResult.{did};
ghost use Rattle.cpm_bdos.specs.Bounds.{IsBounded};
ghost use Rattle.cpm_bdos.specs.Behind.{session_behind, did_behind};
ghost use Rattle.cpm_ccp.specs.Loading.{unknown, load_begun, name_bytes, default_files, memory_started, started, record_loaded, load_record, load};
ghost use Rattle.cpm_console.specs.Terminal.{step_output};

use crate::message::Message;
use crate::parts::{NO_RECORD, NONE, fail, finish, go_to, say_below, tell, typed_line};
use crate::words::{default_fcbs, first_word, tail};
use cpm_bdos::{CommandPart, Mode, Session, Went};
use cpm_geom::Image;
use cpm_memory::layout::{DEFAULT_BUFFER, DEFAULT_FCBS, PROGRAM, STACK};
use cpm_memory::{Memory, change_run};
use cpm_volume::Fcb;

/// Where the last record begins that a program may have.
const LAST_RECORD: u16 = 0xE380;

/// Ends a command whose first word is none.
#[tactic(auto, using(crate::proofs::Texts::texts))]
pub(crate) fn refuse_word(session: &mut Session)
    requires screen { length session.old.console.screen ≤ step_output }
    requires printer { length session.old.console.printer ≤ step_output }
    ensures { session.new ≡ unknown session.old }
{
    let line = typed_line(session);
    say_below(session, first_word(line.as_slice()));
    session.console.say(b'?');
    finish(session);
}

/// Opens the file of a program.
#[tactic(auto, unfolding(crate::specs::Loading::load_begun))]
pub(crate) fn begin_load(session: &mut Session, system: &Image, file: &Fcb)
    requires screen { length session.old.console.screen ≤ step_output }
    requires printer { length session.old.console.printer ≤ step_output }
    ensures { session.new ≡ load_begun system.now file.now session.old }
{
    session.file = *file;
    match session.disks.open_file(system, &mut session.file) {
        Ok(NONE) => refuse_word(session),
        Ok(_) => go_to(session, CommandPart::Load { next: PROGRAM }),
        Err(fault) => fail(session, fault),
    }
}

/// The first 16 bytes of the file control block of a name.
#[tactic(auto, unfolding(crate::specs::Loading::name_bytes))]
fn name_bytes(file: &Fcb) -> [u8; 16]
    ensures { result ≡ name_bytes file.now }
{
    let mut bytes = [0; 16];
    bytes[0] = file.drive;
    bytes[1..12].copy_from_slice(&file.extent.name);
    bytes
}

/// What lies from 005Ch on where a program begins with this tail.
#[tactic(auto, unfolding(crate::specs::Loading::default_files))]
fn default_files(tail: &[u8]) -> [u8; 33]
    ensures { result ≡ default_files tail.now }
{
    let (first, second) = default_fcbs(tail);
    let mut bytes = [0; 33];
    bytes[..16].copy_from_slice(&name_bytes(&first));
    bytes[16..32].copy_from_slice(&name_bytes(&second));
    bytes
}

/// Puts the tail of a line into the buffer, its length in front and a 0 after it.
fn fill_buffer<M: Memory>(memory: &mut M, tail: &[u8])
    requires short { length tail.now ≤ 255 }
    requires room { HasRoomFor 5 (M.contents memory.old) }
    ensures contents { M.contents memory.new ≡ after_run (after_run (M.contents memory.old) 128 (length tail.now ∷ [])) 129 (tail.now ++ (0 ∷ [])) }
    ensures room { (n : ℕ) → HasRoomFor (n + 5) (M.contents memory.old) → HasRoomFor n (M.contents memory.new) }
    ensures leads { M.Leads memory.old memory.new }
{
    change_run(memory, DEFAULT_BUFFER, &[tail.len() as u8]);
    change_run(memory, DEFAULT_BUFFER + 1, tail);
    change_run(memory, DEFAULT_BUFFER + 1 + tail.len() as u16, &[0]);
}

/// Puts the tail of a line, and what a program finds of it, into memory.
#[tactic(auto, unfolding(crate::specs::Loading::memory_started))]
pub(crate) fn put_tail<M: Memory>(memory: &mut M, tail: &[u8])
    requires short { length tail.now ≤ 255 }
    requires room { HasRoom (M.contents memory.old) }
    ensures contents { M.contents memory.new ≡ memory_started tail.now (M.contents memory.old) }
    ensures leads { M.Leads memory.old memory.new }
{
    change_run(memory, DEFAULT_FCBS, &default_files(tail));
    fill_buffer(memory, tail);
    change_run(memory, STACK, &[0x06, 0xE4]);
}

/// Starts the program that was loaded.
fn start<M: Memory>(session: &mut Session, memory: &mut M) -> Went
    requires room { HasRoom (M.contents memory.old) }
    ensures step { did session.new (M.contents memory.new) result ≡ started session.old (M.contents memory.old) }
    ensures leads { M.Leads memory.old memory.new }
{
    let line = typed_line(session);
    put_tail(memory, tail(line.as_slice()));
    session.regs.sp = STACK;
    session.regs.pc = PROGRAM;
    session.buffer = DEFAULT_BUFFER;
    finish(session);
    Went::Returned
}

/// Stores a record of a program, unless it is too long.
fn load_at<M: Memory>(session: &mut Session, memory: &mut M, next: u16, record: &[u8; 128]) -> Went
    requires screen { length session.old.console.screen ≤ step_output }
    requires printer { length session.old.console.printer ≤ step_output }
    requires room { HasRoom (M.contents memory.old) }
    ensures step { did session.new (M.contents memory.new) result ≡ record_loaded next «record».now session.old (M.contents memory.old) }
    ensures leads { M.Leads memory.old memory.new }
{
    if next > LAST_RECORD {
        tell(session, Message::BadLoad);
        return Went::Returned;
    }
    change_run(memory, next, record);
    go_to(session, CommandPart::Load { next: next + 128 });
    Went::GoesOn
}

/// Loads the next record of a program, or starts it.
#[tactic(auto, unfolding(crate::specs::Loading::load_record))]
pub(crate) fn load_record<M: Memory>(
    session: &mut Session,
    memory: &mut M,
    system: &Image,
    next: u16,
) -> Went
    requires screen { length session.old.console.screen ≤ step_output }
    requires printer { length session.old.console.printer ≤ step_output }
    requires room { HasRoom (M.contents memory.old) }
    ensures step { did session.new (M.contents memory.new) result ≡ load_record system.now next session.old (M.contents memory.old) }
    ensures leads { M.Leads memory.old memory.new }
{
    let mut record = NO_RECORD;
    match session
        .disks
        .read_next(system, &mut session.file, &mut record)
    {
        Ok(0) => load_at(session, memory, next, &record),
        Ok(_) => start(session, memory),
        Err(fault) => {
            fail(session, fault);
            Went::GoesOn
        }
    }
}

/// One step of the loader, the system drive being lent: a record of the program comes into memory, up to the end of the
/// file, where the program starts. Where no program is loaded nothing changes. Both devices must have room for 4,096
/// bytes.
pub fn load_step<M: Memory>(session: &mut Session, memory: &mut M, system: &Image) -> Went
    requires screen { length session.old.console.screen ≤ step_output }
    requires printer { length session.old.console.printer ≤ step_output }
    requires room { HasRoom (M.contents memory.old) }
    ensures step { did session.new (M.contents memory.new) result ≡ load system.now session.old (M.contents memory.old) }
    ensures leads { M.Leads memory.old memory.new }
    ensures bounds { IsBounded session.old (M.contents memory.old) (did session.new (M.contents memory.new) result) }

    // Output that waits already changes nothing in a step, which shows its own after it.
    ensures behind { (p q : List ℕ) → load system.now (session_behind p q session.old) (M.contents memory.old)
        ≡ did_behind p q (did session.new (M.contents memory.new) result) }
{
    session.numbers_fit();
    do_load(session, memory, system)
}

/// One step of the loader, by the mode.
fn do_load<M: Memory>(session: &mut Session, memory: &mut M, system: &Image) -> Went
    requires screen { length session.old.console.screen ≤ step_output }
    requires printer { length session.old.console.printer ≤ step_output }
    requires room { HasRoom (M.contents memory.old) }
    ensures step { did session.new (M.contents memory.new) result ≡ load system.now session.old (M.contents memory.old) }
    ensures leads { M.Leads memory.old memory.new }
{
    match session.mode {
        Mode::Command(CommandPart::Load { next }) => load_record(session, memory, system, next),
        _ => Went::GoesOn,
    }
}
