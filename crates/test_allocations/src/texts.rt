//! Command lines, sources, configurations and key scripts.

use crate::CallOutcome;
use cpm_asm::{AsmErrorKind, assemble};
use cpm_host::{Config, ConfigError, ScriptError, UsageError, command, read_keys, read_recording};
use std::alloc::Global;

/// A program that prints a letter and returns.
pub const SOURCE: &[u8] =
    b"BDOS EQU 5\n MVI C,2\n MVI E,'A'\nAGAIN: CALL BDOS\n RET\nTEXT: DB 'of it',0DH\n DW AGAIN\n";

/// Two sessions with each of the keys of a configuration.
pub const CONFIG: &str = "frames = 64
quantum = 7
system = \"p.img\"

[[session]]
name = \"one\"
cpu = \"8080\"
quota = 16
steps = 50
drives = [\"a.img\"]
console = \"one.txt\"
keys = \"one.keys\"
list = \"one.lst\"
out = [\"a.out\"]

[[session]]
name = \"two\"
cpu = \"z80\"
quota = 16
steps = 10
drives = [\"a.img\"]
console = \"two.txt\"
";

/// What is typed at the first session.
pub const KEYS: &[u8] = b"# a comment\n0 DIR^M\n";

/// What was recorded of a session.
const LINES: &[u8] = b"100 D\n200 I\n300 R\n400 ^M\n500 D\n600 I\n700 R\n800 ^M\n";

pub fn command_line(alloc: Global) -> CallOutcome {
    let words = [
        "cpmhost", "com", "a.com", "--z80", "--steps", "7", "--keys", "a.keys",
    ];
    match command(alloc, &words) {
        Ok(_) => CallOutcome::Made,
        Err(UsageError::OutOfMemory) => CallOutcome::Refused,
        Err(_) => CallOutcome::Wrong,
    }
}

pub fn source(alloc: Global) -> CallOutcome {
    match assemble(alloc, SOURCE) {
        Ok(_) => CallOutcome::Made,
        Err(error) => CallOutcome::refused_if(error.kind == AsmErrorKind::OutOfMemory),
    }
}

pub fn configuration(alloc: Global) -> CallOutcome {
    match Config::read(alloc, CONFIG.as_bytes()) {
        Ok(_) => CallOutcome::Made,
        Err(ConfigError::OutOfMemory) => CallOutcome::Refused,
        Err(_) => CallOutcome::Wrong,
    }
}

pub fn key_script(alloc: Global) -> CallOutcome {
    match read_keys(alloc, KEYS) {
        Ok(_) => CallOutcome::Made,
        Err(ScriptError::OutOfMemory) => CallOutcome::Refused,
        Err(_) => CallOutcome::Wrong,
    }
}

pub fn recording(alloc: Global) -> CallOutcome {
    match read_recording(alloc, LINES) {
        Ok(keys) => CallOutcome::made_if(keys.len() == 8),
        Err(ScriptError::OutOfMemory) => CallOutcome::Refused,
        Err(_) => CallOutcome::Wrong,
    }
}
