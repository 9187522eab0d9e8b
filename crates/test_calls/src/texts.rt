//! Cues that are compared, refusals if out of memory, and a law that is called.

use crate::same::same;
use cpm_script::{Cue, Key, ScriptError, read_cues};
use cpm_store::{StoreError, writes_are_kept};

#[test]
fn cues_are_compared_whole(rt: HostRuntime) {
    let key = Key {
        count: 1,
        byte: 0x41,
    };
    let cues = read_cues(rt.alloc(), b"1 A\nexpect \"x\" B").expect(&rt, "a good script");
    same(&rt, cues.first() == Some(&Cue::Key(key)), true);
    same(&rt, cues.get(1) == Some(&Cue::Press(0x42)), false);
    same(&rt, cues.last() == Some(&Cue::Press(0x42)), true);
}

#[test]
fn want_of_memory_has_a_text(rt: HostRuntime) {
    let shown = ScriptError::OutOfMemory.to_string(rt.alloc());
    same(&rt, shown.expect(&rt, "memory").as_str(), "out of memory");
    let shown = StoreError::OutOfMemory.to_string(rt.alloc());
    same(&rt, shown.expect(&rt, "memory").as_str(), "out of memory");
}

#[test]
fn the_law_of_writes_is_called(_rt: HostRuntime) {
    writes_are_kept();
}
