//! Laws on the definitions that the calls of this crate cite.

ghost use Rattle.cpm_directory.specs.Laws.{OutsideLaw, LoginLaw, CheckedLaw};

/// A record that is written outside the directory leaves its entries.
pub fn files_lie_outside_the_directory()
    ensures { OutsideLaw }
{}

/// A drive that is logged in has reserved its directory's blocks and those in its entries, and no others.
pub fn login_reserves_what_is_in_use()
    ensures { LoginLaw }
{}

/// The directory of a disk has no fault exactly where the drive, logged in, agrees with itself.
pub fn checked_drives_agree_with_themselves()
    ensures { CheckedLaw }
{}
