//! Laws of machines, as contracts.

ghost use Rattle.cpm_machine.specs.SavingLaws.{RestoredIsSaved, SavedIsRestored};
ghost use Rattle.cpm_machine.specs.Laws.{Alone, AloneByAllCalls, BoundedSteps, Cutting, Greatest, GreatestToWait, GreatestUntil};
ghost use Rattle.cpm_machine.specs.Laws.{KeysFromFront, KeysLeave, LateKeys, WaitingSteps, WaitsExactly};

/// A grant executes the greatest number of steps that can be made.
pub fn greatest()
    ensures { Greatest }
{}

/// A grant up to a wait executes the greatest number of steps of which each can be made and waits for no key.
pub fn greatest_to_wait()
    ensures { GreatestToWait }
{}

/// A grant up to an address executes the greatest number of steps of which each can be made and none but the first begins there in the
/// program.
pub fn greatest_until()
    ensures { GreatestUntil }
{}

/// Cutting a grant changes nothing.
pub fn cutting()
    ensures { Cutting }
{}

/// A step newly writes at most 8 pages, and puts at most 4,096 bytes on each device, where the session's columns and
/// its line's length are bytes.
pub fn bounded()
    ensures { BoundedSteps }
{}

/// A step leaves at most as many keys as were pending.
pub fn keys_leave()
    ensures { KeysLeave }
{}

/// A step takes the first pending key or none; the others stay in their order, and none comes.
pub fn keys_from_front()
    ensures { KeysFromFront }
{}

/// After any calls a machine is the machine run alone by its accepted keys and executed steps, but for the bytes that
/// were taken.
pub fn alone()
    ensures { Alone }
{}

/// So it is with all calls that a machine has, single steps and grants up to a wait among them.
pub fn alone_by_all_calls()
    ensures { AloneByAllCalls }
{}

/// A step of a machine that waits for a key changes its count alone, and its end by that.
pub fn waiting()
    ensures { WaitingSteps }
{}

/// A machine is said to wait exactly where its next step is that of a call which needs a key and finds none.
pub fn waits_exactly()
    ensures { WaitsExactly }
{}

/// Keys that come later make no difference to the machine run alone.
pub fn late_keys()
    ensures { LateKeys }
{}

/// What is restored of a machine's saving is the machine, for every machine whose bytes `Machine::save` gives.
pub fn saved_is_restored()
    ensures { SavedIsRestored }
{}

/// What is restored is just its saving: no other bytes are that machine with that digest.
pub fn restored_is_saved()
    ensures { RestoredIsSaved }
{}
