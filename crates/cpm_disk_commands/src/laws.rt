//! The laws of lists, of names and of what is put on a disk and taken off it.

ghost use Rattle.cpm_disk_commands.specs.DiskCommands.{RoundLaw};
ghost use Rattle.cpm_disk_commands.specs.HostNames.{ApartLaw, SpelledLaw};
ghost use Rattle.cpm_disk_commands.specs.Listing.{OrderLaw};

/// A list in order has the files that were given, each as often, and none comes before one that stands before it.
pub fn lists_are_in_order()
    ensures { OrderLaw }
{}

/// A name that a text without a slash spells has a text on the host, whatever its attributes.
pub fn names_have_texts()
    ensures { SpelledLaw }
{}

/// Two names with one text on the host are the same, but for their attributes.
pub fn texts_tell_names_apart()
    ensures { ApartLaw }
{}

/// What is taken off a disk of a file that was put is what it was put with: filled up to whole records, or, of a text without
/// carriage returns and ends of file, as it was.
pub fn what_is_put_is_got()
    ensures { RoundLaw }
{}
