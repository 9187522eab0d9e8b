//! Laws of the calls, as contracts.

ghost use Rattle.cpm_bdos.specs.Laws.{HoldingLaw};

/// ^S holds a step of functions 2 and 9 exactly where it would show a byte, and no other step.
pub fn holds_what_it_shows()
    ensures { HoldingLaw }
{}
