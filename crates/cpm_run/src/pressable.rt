//! Whether the keys of sessions can be pressed, whatever they come from.
ghost use Rattle.std.specs.Prelude.{◌≡◌, ◌≤◌, ◌+◌, ◌++◌, IfOk, List, drop, false, length, map, slice_get, true};
ghost use Rattle.cpm_batch.specs.Inputs.{IsOpened, start_view};
ghost use Rattle.cpm_geom.specs.Disk.{Disk};
ghost use Rattle.cpm_play.specs.Playing.{HaveRoom, IsInOrder};
ghost use Rattle.cpm_run.specs.Pressable.{ArePressable, HasFewKeys, HaveFewKeys, IsForkPressable, IsPressableBy};
ghost use Rattle.cpm_run.specs.Settled.{opening_at, opening_of, settled_view, starts_of};
ghost use Rattle.cpm_script.specs.Script.{most_keys};
ghost use Rattle.cpm_script.specs.declared.script.Key.{Key as KeyValue};

use crate::part::pending_keys;
use crate::settle::{has_room, keys_after};
use crate::settled::SettledInput;
use cpm_batch::Start;
use cpm_script::{Key, keys_before};
use std::alloc::{AllocError, Global};

/// Whether the counts of keys are at least this one, and don't fall.
fn are_in_order(keys: &[Key], from: u64) -> bool
    ensures order { result ≡ true → IsInOrder from keys.now }
    ensures other { result ≡ false → IsInOrder from keys.now → ⊥ }
{
    let mut low = from;
    for key in keys {
        if key.count < low {
            return false;
        }
        low = key.count;
    }
    true
}

/// Whether keys begin with others.
fn begin_with(keys: &[Key], first: &[Key]) -> bool
    ensures first { result ≡ true → keys.now ≡ first.now ++ drop (length first.now) keys.now }
    ensures other { result ≡ false → (rest : List KeyValue) → keys.now ≡ first.now ++ rest → ⊥ }
{
    if keys.len() < first.len() {
        return false;
    }
    for (place, key) in first.iter().enumerate() {
        if keys[place] != *key {
            return false;
        }
    }
    true
}

/// Whether a machine takes so many keys wherever they come that begins so.
fn takes_all(start: &Start, count: usize) -> bool
    ensures room { result ≡ true → (system : Disk) (keys : List KeyValue) → length keys ≡ count
        → HaveRoom system (opening_of (start_view start.now)) keys }
    ensures many { result ≡ false → length (opening_of (start_view start.now)).session.console.keys + count ≤ most_keys → ⊥ }
{
    has_room(pending_keys(start), 0, count)
}

/// Whether a session begins by itself.
fn is_opened(start: &Start) -> bool
    ensures opened { result ≡ true → IsOpened (start_view start.now) }
    ensures forked { result ≡ false → IsOpened (start_view start.now) → ⊥ }
{
    match start {
        Start::Opened { .. } | Start::Restored(_) => true,
        Start::Forked { .. } => false,
    }
}

/// Whether the keys of a session can be pressed that is forked from the one at a place, at this count.
fn is_fork_pressable(
    alloc: Global,
    inputs: &[SettledInput<'_>],
    input: &SettledInput<'_>,
    parent: usize,
    at: u64,
) -> Result<bool, AllocError>
    ensures can { IfOk result (λ can. can ≡ true → (system : Disk)
        → IsForkPressable system (map settled_view inputs.now) (settled_view input.now) parent at) }
    ensures other { IfOk result (λ can. can ≡ false → (system : Disk)
        → IsForkPressable system (map settled_view inputs.now) (settled_view input.now) parent at
        → length (opening_at (slice_get (starts_of (map settled_view inputs.now)) parent)).session.console.keys + length input.now.keys.items ≤ most_keys
        → ⊥) }
{
    let Some(other) = inputs.get(parent) else {
        return Ok(false);
    };
    if !is_opened(&other.start) {
        return Ok(false);
    }
    if at > input.steps {
        return Ok(false);
    }
    if !takes_all(&other.start, input.keys.len()) {
        return Ok(false);
    }
    let first = keys_before(alloc, other.keys.as_slice(), at)?;
    let keys = input.keys.as_slice();
    if !begin_with(keys, first.as_slice()) {
        return Ok(false);
    }
    Ok(are_in_order(keys_after(keys, first.len()), at))
}

/// Whether keys can be pressed at a session that begins by itself.
fn is_own_pressable(start: &Start, keys: &[Key]) -> bool
    ensures can { result ≡ true → (system : Disk) → IsInOrder 0 keys.now × HaveRoom system (opening_of (start_view start.now)) keys.now }
    ensures other { result ≡ false → IsInOrder 0 keys.now
        → length (opening_of (start_view start.now)).session.console.keys + length keys.now ≤ most_keys → ⊥ }
{
    if !takes_all(start, keys.len()) {
        return false;
    }
    are_in_order(keys, 0)
}

/// Whether the keys of a session can be pressed, among the others.
fn is_pressable(
    alloc: Global,
    inputs: &[SettledInput<'_>],
    input: &SettledInput<'_>,
) -> Result<bool, AllocError>
    ensures can { IfOk result (λ can. can ≡ true → (system : Disk)
        → IsPressableBy system (map settled_view inputs.now) (settled_view input.now).start (settled_view input.now)) }
    ensures other { IfOk result (λ can. can ≡ false → (system : Disk)
        → IsPressableBy system (map settled_view inputs.now) (settled_view input.now).start (settled_view input.now)
        → HasFewKeys (map settled_view inputs.now) (settled_view input.now) → ⊥) }
{
    match &input.start {
        Start::Forked { parent, at } => is_fork_pressable(alloc, inputs, input, *parent, *at),
        start => Ok(is_own_pressable(start, input.keys.as_slice())),
    }
}

/// Whether the keys of all sessions can be pressed, so that they can be played, and none has more than 4,096 with those that are pending where it begins.
pub(crate) fn are_pressable(alloc: Global, inputs: &[SettledInput<'_>]) -> Result<bool, AllocError>
    ensures can { IfOk result (λ can. can ≡ true → (system : Disk) → ArePressable system (map settled_view inputs.now)) }
    ensures other { IfOk result (λ can. can ≡ false → (system : Disk) → ArePressable system (map settled_view inputs.now)
        → HaveFewKeys (map settled_view inputs.now) → ⊥) }
{
    for input in inputs {
        if !is_pressable(alloc, inputs, input)? {
            return Ok(false);
        }
    }
    Ok(true)
}
