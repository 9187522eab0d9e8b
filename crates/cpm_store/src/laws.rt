//! Laws on the definitions that the calls of this crate cite.
ghost use Rattle.cpm_store.specs.Laws.{LastWritesStay, UnwrittenStay};

/// After writes in order, a file that no later one of them writes holds its bytes, and a file that none
/// of them writes is as it was.
pub fn writes_are_kept()
    ensures last { LastWritesStay }
    ensures others { UnwrittenStay }
{}
