//! Recordings: the keys of a session, of any number.

ghost use Rattle.std.specs.Prelude.{◌≡◌, IsErrOf, true};
ghost use Rattle.std.specs.Str.Lines.{lines};
ghost use Rattle.cpm_script.specs.Recording.{recording};
ghost use Rattle.cpm_script.specs.Script.{Reads, has_count};

use crate::fault::ScriptError;
use crate::script::{Key, read_within};
use std::alloc::Global;

/// The keys of a recording in order, each with the count of steps at which it comes.
///
/// Its lines are those of a script, as `read_keys` has them, and have the same faults; but there is no limit of keys.
///
/// `Line` names the first line with a fault, and what is wrong with it. `OutOfMemory` comes only where
/// memory is refused, whatever is wrong after that place.
pub fn read_recording(alloc: Global, text: &[u8]) -> Result<Vec<Key>, ScriptError>
    ensures read { Reads result (recording text.now) }
    // It is out of memory only where a line has a count.
    ensures memory { IsErrOf result ScriptError.OutOfMemory → has_count (lines text.now) ≡ true }
{
    read_within(alloc, text, None)
}
