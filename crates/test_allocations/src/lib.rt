//! Makes the calls that take memory, and prints the outcome of each: `made`; `refused`, where memory was refused, what was passed by value came back
//! and all else was as before; or `wrong`. For `tests/allocations`, which refuses each of their allocations in turn.
#![tactic(auto)]

mod commands;
mod copies;
mod disks;
mod hosts;
mod machines;
mod savings;
mod screens;
mod stages;
mod stores;
mod texts;
mod waiting;

use cpm_console::Console;
use cpm_memory::{FlatMemory, FrameStore};
use std::alloc::{AllocError, Global};

/// The outcome of a call.
#[derive(Clone, Copy, PartialEq)]
pub enum CallOutcome {
    /// It did what it should.
    Made,
    /// It answered that memory was refused, and left all else as it should.
    Refused,
    /// It answered something else, or left something else.
    Wrong,
    /// Memory was refused before the call.
    Unprepared,
}

impl CallOutcome {
    /// That of a call that was made, where what it gave is right.
    pub fn made_if(is_right: bool) -> CallOutcome {
        if is_right {
            CallOutcome::Made
        } else {
            CallOutcome::Wrong
        }
    }

    /// That of a call that was out of memory, where the rest is as it should be.
    pub fn refused_if(is_right: bool) -> CallOutcome {
        if is_right {
            CallOutcome::Refused
        } else {
            CallOutcome::Wrong
        }
    }

    /// That of a call that takes nothing by value, and changes nothing.
    pub fn of<T: Drop>(answer: Result<T, AllocError>) -> CallOutcome {
        match answer {
            Ok(_) => CallOutcome::Made,
            Err(AllocError) => CallOutcome::Refused,
        }
    }

    /// The word that is printed.
    fn word(self) -> &'static str {
        match self {
            CallOutcome::Made => "made",
            CallOutcome::Refused => "refused",
            CallOutcome::Wrong => "wrong",
            CallOutcome::Unprepared => "unprepared",
        }
    }
}

/// The calls, as they are named on the command line.
const NAMES: [&str; 55] = [
    "command",
    "FlatMemory::new",
    "FrameStore::new",
    "Console::new",
    "Image::copy",
    "Console::copy",
    "Session::copy",
    "Machine::new",
    "Machine::with_program",
    "Machine::with_command",
    "Machine::save",
    "Machine::restored",
    "Host::new",
    "Host::open",
    "Host::fork",
    "Host::save",
    "Host::restore",
    "assemble",
    "Config::read",
    "read_keys",
    "read_recording",
    "Store::read",
    "Store::write",
    "run_host",
    "run_host in stages",
    "put",
    "get",
    "remove",
    "rename",
    "list",
    "to_text",
    "from_text",
    "new_image",
    "put_file",
    "get_file",
    "remove_file",
    "rename_file",
    "matching_files",
    "write_list",
    "TextScreen::new",
    "TextScreen::copy",
    "tail_of",
    "run_asm",
    "run_debug",
    "debug_start",
    "run_list",
    "cues_of",
    "run_program by a script",
    "run_program by typed keys",
    "run_program by a script and typed keys",
    "run_program at the prompt",
    "run_asm_listed",
    "run_program that is saved",
    "saved_machine_of",
    "run_saved",
];

/// Makes the call of this name, if there is one.
fn make(alloc: Global, name: &str) -> Result<CallOutcome, AllocError> {
    match name {
        "command" => Ok(texts::command_line(alloc)),
        "FlatMemory::new" => Ok(CallOutcome::of(FlatMemory::new(alloc))),
        "FrameStore::new" => Ok(CallOutcome::of(FrameStore::new(alloc, 64))),
        "Console::new" => Ok(CallOutcome::of(Console::new(alloc))),
        "Image::copy" => copies::image(alloc),
        "Console::copy" => copies::console(alloc),
        "Session::copy" => copies::session(alloc),
        "Machine::new" => machines::machine(alloc),
        "Machine::with_program" => machines::machine_with_program(alloc),
        "Machine::with_command" => machines::machine_with_command(alloc),
        "Machine::save" => machines::save(alloc),
        "Machine::restored" => machines::restored(alloc),
        "Host::new" => hosts::new(alloc),
        "Host::open" => hosts::open(alloc),
        "Host::fork" => hosts::fork(alloc),
        "Host::save" => hosts::save(alloc),
        "Host::restore" => hosts::restore(alloc),
        "assemble" => Ok(texts::source(alloc)),
        "Config::read" => Ok(texts::configuration(alloc)),
        "read_keys" => Ok(texts::key_script(alloc)),
        "read_recording" => Ok(texts::recording(alloc)),
        "Store::read" => stores::read(alloc),
        "Store::write" => stores::write(alloc),
        _ => make_command(alloc, name),
    }
}

/// Makes the call of this name, if there is one, that does a command or a part of it.
fn make_command(alloc: Global, name: &str) -> Result<CallOutcome, AllocError> {
    match name {
        "run_host" => commands::run(alloc),
        "run_host in stages" => stages::run(alloc),
        "put" | "get" | "remove" | "rename" | "list" | "to_text" | "from_text" => {
            disks::of_image_files(alloc, name)
        }
        "new_image"
        | "put_file"
        | "get_file"
        | "remove_file"
        | "rename_file"
        | "matching_files"
        | "write_list" => disks::of_disk_commands(alloc, name),
        "TextScreen::new" => Ok(screens::new(alloc)),
        "TextScreen::copy" => screens::copy(alloc),
        "tail_of" => Ok(commands::tail(alloc)),
        "run_asm" => Ok(commands::asm(alloc)),
        "run_debug" => commands::debug(alloc),
        "debug_start" => savings::debugged(alloc),
        "run_list" => Ok(commands::list()),
        "cues_of" => Ok(waiting::cues(alloc)),
        "run_program by a script" => waiting::program(alloc),
        "run_program by typed keys" => commands::typed(alloc),
        "run_program by a script and typed keys" => waiting::program_typed_at(alloc),
        "run_program at the prompt" => waiting::prompt(alloc),
        "run_asm_listed" => Ok(waiting::listed_source(alloc)),
        "run_program that is saved" => savings::played(alloc),
        "saved_machine_of" => savings::read(alloc),
        "run_saved" => savings::told(alloc),
        _ => Ok(CallOutcome::Wrong),
    }
}

/// Makes the call of this name, and prints its outcome.
fn tell(rt: &(impl Print + AllocGlobal), name: &str) -> bool {
    let outcome = make(rt.alloc(), name).unwrap_or(CallOutcome::Unprepared);
    let word = outcome.word();
    println!(rt; "{name}: {word}").is_ok() && outcome != CallOutcome::Wrong
}

/// Makes the calls of these names, or all where none is given, and prints the outcome of each. Whether none is wrong, and all of that was printed.
pub fn make_calls(rt: &(impl Print + AllocGlobal), names: &[String]) -> bool {
    let mut are_right = true;
    for name in names {
        are_right &= tell(rt, name.as_str());
    }
    if names.is_empty() {
        for name in NAMES {
            are_right &= tell(rt, name);
        }
    }
    are_right
}
