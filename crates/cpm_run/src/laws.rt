//! Laws of sessions that go on from a saving, as contracts.

ghost use Rattle.cpm_run.specs.Laws.{GoesOnAlone, GoesOnBehind, KeptIsTrue, RestCanBePlayed, RestIsWhole, SavedFileGoesOn, SavedRunGoesOn, StandingsJoin};

/// A session that was saved, with all of its output taken, and goes on from that, is its machine alone, by the keys from before the saving and those from
/// behind it: it shows the text before it with the text behind it, and comes to the same state.
pub fn goes_on_alone()
    ensures { GoesOnAlone }
{}

/// So it is with one that was saved while some of its output still waited.
pub fn goes_on_behind()
    ensures { GoesOnBehind }
{}

/// A session of a run that goes on from the saving of what one of another run came to, over the same system drive, leaves with that one what one machine
/// leaves alone.
pub fn saved_run_goes_on()
    ensures { SavedRunGoesOn }
{}

/// So does one that goes on from what was read of the file that the other one left for its saving.
pub fn saved_file_goes_on()
    ensures { SavedFileGoesOn }
{}

/// The rest of a run from where it stands leaves what the whole run leaves, with what was shown before in front: the sessions that go on from their
/// savings, and those that are still to be forked.
pub fn rest_is_whole()
    ensures { RestIsWhole }
{}

/// Where the sessions of a run stand between two turns, as they are kept, that is a true standing of the run: those that are played, and those that are
/// still to be forked.
pub fn kept_is_true()
    ensures { KeptIsTrue }
{}

/// The rest of a run from where it truly stands can be played as the run can, where none of its sessions has more than 4,096 keys, with those that are
/// pending where it begins.
pub fn rest_can_be_played()
    ensures { RestCanBePlayed }
{}

/// Where the rest of a run stands truly, from where the run had stood, the run stands truly by both.
pub fn standings_join()
    ensures { StandingsJoin }
{}
