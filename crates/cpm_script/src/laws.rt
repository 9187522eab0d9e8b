//! Laws of the keys before a fork, of recorded ones, of recordings, and of scripts with lines that wait, as contracts.

ghost use Rattle.cpm_script.specs.Laws.{CuesInOrder, FaultsOfScripts, FewAreScripts, ForkedCuesInOrder, KeysBeforeAreFirst, PlainScripts};
ghost use Rattle.cpm_script.specs.Laws.{RecordedKeys, RecordingsGiveTheirKeysAgain, RecordingsInOrder, ScriptsAreRecordings};

/// The keys before a count are the first of a script whose counts do not fall, and the others come later.
pub fn keys_before_are_first()
    ensures { KeysBeforeAreFirst }
{}

/// At most 4,096 keys below 80h whose counts do not fall are read back from their lines, as `key_line`
/// writes them, one after another.
pub fn recorded_keys()
    ensures { RecordedKeys }
{}

/// Keys below 80h whose counts do not fall are read back from their lines, as `key_line` writes them, one after
/// another, however many they are.
pub fn recordings_give_their_keys_again()
    ensures { RecordingsGiveTheirKeysAgain }
{}

/// The counts of a recording do not fall, and have 64 bits; each of its keys is below 80h.
pub fn recordings_in_order()
    ensures { RecordingsInOrder }
{}

/// A script is a recording of its keys, and has its faults too, but that of too many keys. A recording of at most
/// 4,096 keys is a script of them.
pub fn scripts_are_recordings()
    ensures keys { ScriptsAreRecordings }
    ensures faults { FaultsOfScripts }
    ensures few { FewAreScripts }
{}

/// A script with no line that waits gives its keys, as `read_keys` does, and has the same fault where that is
/// not a missing count.
pub fn plain_scripts()
    ensures { PlainScripts }
{}

/// What a script says has at most 4,096 keys, each below 80h; counts do not fall, whatever waits between them;
/// and a key without a count stands after a wait, or after another such key.
pub fn cues_in_order()
    ensures { CuesInOrder }
{}

/// What the own script of a forked session says is in order, and counts from the fork on; with the keys that its
/// parent had before they are at most 4,096.
pub fn forked_cues_in_order()
    ensures { ForkedCuesInOrder }
{}
