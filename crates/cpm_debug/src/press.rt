//! Pressing the keys that a text stands for.
ghost use Rattle.std.specs.Prelude.{◌≡◌, is_some, true};
ghost use Rattle.cpm_script.specs.KeyText.{keys_of};
ghost use Rattle.cpm_debug.specs.Dialog.{keys_in_text, press, request_pressed};
ghost use Rattle.cpm_debug.specs.Orders.{press_of};

use cpm_machine::Machine;
use cpm_script::{are_keys, first_key};

/// Presses the keys that a text stands for, up to one that is refused, and says whether all were accepted.
fn press(machine: &mut Machine, text: &[u8]) -> bool
    requires { is_some (keys_of text.now) ≡ true }
    ensures accepted { result ≡ (press (keys_in_text text.now) machine.old).accepted }
    ensures state { machine.new ≡ (press (keys_in_text text.now) machine.old).state }
{
    let mut rest = text;
    while let Some((key, after)) = first_key(rest) {
        match machine.key(key) {
            Ok(()) => rest = after,
            Err(_) => return false,
        }
    }
    true
}

/// Presses the keys that a text stands for, if it stands for at least one and nothing else, up to one that is
/// refused. Says whether all were accepted.
pub(crate) fn press_text(machine: &mut Machine, text: &[u8]) -> bool
    ensures accepted { result ≡ (request_pressed (press_of (keys_of text.now)) machine.old).accepted }
    ensures state { machine.new ≡ (request_pressed (press_of (keys_of text.now)) machine.old).state }
{
    if text.is_empty() {
        return false;
    }
    if are_keys(text) {
        press(machine, text)
    } else {
        false
    }
}
