//! Laws of the Z80's instructions, as contracts.
ghost use Rattle.cpm_execz80.specs.Laws.{StoresTwoAtMost};

/// An instruction stores two bytes at most.
pub fn few_stores()
    ensures { StoresTwoAtMost }
{}
