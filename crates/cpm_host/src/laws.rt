//! Laws of programs that are played, as contracts.

ghost use Rattle.cpm_host.specs.Laws.{PlainScriptsRunTheirKeys};

use cpm_play::laws::{few_keys_have_room, plain_cues_do_as_their_keys, scripts_in_order};
use cpm_script::laws::plain_scripts;

/// A program that `run_program` plays by a script which never waits shows, prints and leaves what it does run alone by all keys of that script for all its
/// steps, whether all of them come or not.
pub fn plain_scripts_run_their_keys()
    ensures { PlainScriptsRunTheirKeys }
{
    plain_scripts();
    scripts_in_order();
    few_keys_have_room();
    plain_cues_do_as_their_keys();
}
