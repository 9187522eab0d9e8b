//! The keys before a fork, and the room that they leave for those after it.
ghost use Rattle.std.specs.Prelude.{◌≡◌, IfOk};
ghost use Rattle.cpm_script.specs.Fork.{keys_before, room_left};

use crate::fault::LineFault;
use crate::script::Key;
use std::alloc::{AllocError, Global};

/// The keys of a script that come before a count of steps.
pub fn keys_before(alloc: Global, keys: &[Key], at: u64) -> Result<Vec<Key>, AllocError>
    ensures { IfOk result (λ v. v.items ≡ keys_before at keys.now) }
{
    keys.iter()
        .copied()
        .filter(|key| key.count < at)
        .collect(alloc)
}

/// What a line leaves of the room, unless it comes before the fork: this is its count, and how many keys it has.
pub(crate) fn room_left(
    line: Option<(u64, usize)>,
    at: u64,
    room: usize,
) -> Result<usize, LineFault>
    ensures { result ≡ room_left at room line }
{
    let Some((count, keys)) = line else {
        return Ok(room);
    };
    if count < at {
        return Err(LineFault::BeforeFork);
    }
    room.checked_sub(keys).ok_or(LineFault::TooManyForked)
}
