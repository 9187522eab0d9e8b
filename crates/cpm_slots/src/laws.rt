//! The laws of a host, as contracts.

ghost use Rattle.cpm_slots.specs.Laws.{Apart, Isolation, SlotAlone, EachAlone, SavingsHaveLives, Parting, NoParting, Restoring, NoRestoring, ForkIsRestored};
ghost use Rattle.cpm_slots.specs.Laws.{TwoWorlds, Within, SlotCutting, NeverAgain, Orderly};
ghost use Rattle.cpm_slots.specs.Remaking.{Remaking};

/// What is asked of one slot leaves every other.
pub fn apart()
    ensures { Apart }
{}

/// A slot's state and its replies follow from its own events, whatever other slots do.
pub fn isolation()
    ensures { Isolation }
{}

/// After anything that happens to a host, each open slot is the machine run alone by its accepted keys and executed steps, and its
/// replies are those of that machine.
pub fn alone()
    ensures { SlotAlone }
{}

/// After anything that happens to a host, each slot stands alone by its life: by its opening, and its own events since; or, where it was
/// forked, by those of the slot that it was forked from, up to the fork, and then its own; or, where it was restored, by those of the slot that was
/// saved, up to the saving, and then its own.
pub fn each_alone()
    ensures { EachAlone }
{}

/// The saving of a slot that stands alone by a life comes from that life.
pub fn savings_have_lives()
    ensures { SavingsHaveLives }
{}

/// A fork adds a slot whose whole state is that of the other one, and changes no slot. Afterwards neither depends on the other's events.
pub fn parting()
    ensures { Parting }
{}

/// A fork that is refused changes nothing.
pub fn no_parting()
    ensures { NoParting }
{}

/// A slot that is restored has the whole state of the one that was saved, on whatever host over an equal system drive, and goes on as that one by
/// equal events. No slot changes.
pub fn restoring()
    ensures { Restoring }
{}

/// A restoring that is refused changes nothing.
pub fn no_restoring()
    ensures { NoRestoring }
{}

/// A fork is the restoring of a saving.
pub fn fork_is_restored()
    ensures { ForkIsRestored }
{}

/// Two hosts that agree on the system drive, on a slot of each and on its own events agree on its replies and its state.
pub fn two_worlds()
    ensures { TwoWorlds }
{}

/// No more steps are executed than are granted.
pub fn within()
    ensures { Within }
{}

/// Cutting a grant to a slot changes nothing.
pub fn cutting()
    ensures { SlotCutting }
{}

/// The number of a closed slot never comes again.
pub fn never_again()
    ensures { NeverAgain }
{}

/// A host that was made keeps its slots in order, at most 64, and their quotas within its frames.
pub fn orderly()
    ensures { Orderly }
{}

/// A host is made again of the numbers and the savings of its open slots, and of the number of its openings.
pub fn remaking()
    ensures { Remaking }
{}
