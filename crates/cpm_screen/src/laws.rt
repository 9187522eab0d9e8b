//! Laws on the definitions that the calls of this crate cite.

ghost use Rattle.cpm_screen.specs.Laws.{PartsLaw};

/// Bytes are shown in parts as they are at once, however they are cut.
pub fn shown_in_parts()
    ensures { PartsLaw }
{}
