//! Laws of key scripts, as contracts.

ghost use Rattle.cpm_play.specs.Laws.{FewKeysHaveRoom, PlainCuesDoAsTheirKeys, PlainCuesGiveTheirKeys, ScriptsInOrder};

/// Keys of which there are at most 4,096, with those that are pending at the start, find room where they come: no more than these can be pending.
pub fn few_keys_have_room()
    ensures { FewKeysHaveRoom }
{}

/// The keys of a script are in order, and at most 4,096, so that they can be played.
pub fn scripts_in_order()
    ensures { ScriptsInOrder }
{}

/// A script that never waits gives its keys, where all of them come within the steps and find room, and the machine still runs after the steps. (The keys of
/// a script find room by `few_keys_have_room`.)
pub fn plain_cues_give_their_keys()
    ensures { PlainCuesGiveTheirKeys }
{}

/// A machine that is played by a script that never waits, and doesn't stop where it is idle, shows what it shows run alone by all keys of the script for all
/// steps, and ends as it does then, whether all keys come or not, where they find room. (The keys of a script do by `few_keys_have_room`.)
pub fn plain_cues_do_as_their_keys()
    ensures { PlainCuesDoAsTheirKeys }
{}
