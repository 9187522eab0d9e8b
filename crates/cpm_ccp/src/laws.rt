//! Laws of the command processor, as contracts.

ghost use Rattle.cpm_ccp.specs.Laws.{WaitingLaw, LimitLaw, CommandHoldingLaw, MarksLaw};

/// A step waits exactly where it reads a line and finds no key, and then changes nothing.
pub fn waits_for_keys_of_lines()
    ensures { WaitingLaw }
{}

/// No step changes how many pages may be written.
pub fn keeps_the_limit()
    ensures { LimitLaw }
{}

/// ^S holds a step of DIR and of TYPE exactly where it would show a byte, and no other step.
pub fn holds_what_it_shows()
    ensures { CommandHoldingLaw }
{}

/// TYPE uses the drive of its file with its first step, and each record comes from a drive that was used.
pub fn shows_from_a_used_drive()
    ensures { MarksLaw }
{}
