//! A law on the definitions that the calls of this crate cite.
ghost use Rattle.cpm_config.specs.Rules.{ForkLaw};

/// Where a configuration breaks no rule, each of its forks is from an earlier session that is opened,
/// at a count of steps of both.
pub fn forks_stand()
    ensures { ForkLaw }
{}
