//! Laws on the definitions that the calls of this crate cite.

ghost use Rattle.cpm_console.specs.Laws.{ErasingLaw};

/// A character is erased as it was typed: the line is as before, as many columns are blanked as its echo took, and all
/// characters are erased as one after another, the last first.
pub fn erased_as_typed()
    ensures { ErasingLaw }
{}
