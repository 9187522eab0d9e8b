//! What the names of files are like.

ghost use Rattle.std.specs.Prelude.{◌≡◌};
ghost use Rattle.std.specs.List.{list_any};
ghost use Rattle.cpm_volume.specs.Files.{has_wildcard};
ghost use Rattle.cpm_ccp.specs.Names.{is_wildcard, is_unnamed, is_every, is_program_name, all_of, program_file};

use cpm_directory::{Extent, Fcb};

/// Whether neither a name nor a type is given.
#[tactic(auto, unfolding(crate::specs::Names::is_unnamed))]
pub(crate) fn is_unnamed(file: &Fcb) -> bool
    ensures { result ≡ is_unnamed file.now }
{
    file.extent.name.as_slice() == b"           ".as_slice()
}

/// Whether the name stands for several files.
pub(crate) fn has_wildcard(file: &Fcb) -> bool
    ensures { result ≡ has_wildcard file.now.extent.name }
{
    has_any_wildcard(&file.extent.name)
}

fn has_any_wildcard(name: &[u8]) -> bool
    ensures { result ≡ list_any is_wildcard name.now }
{
    name.iter().any(|c| *c % 128 == b'?')
}

/// Whether the name is that of every file.
#[tactic(auto, unfolding(crate::specs::Names::is_every))]
pub(crate) fn is_every(file: &Fcb) -> bool
    ensures { result ≡ is_every file.now }
{
    file.extent.name.iter().all(|c| *c % 128 == b'?')
}

/// Whether a first word can be a command by its name.
#[tactic(auto, unfolding(crate::specs::Names::is_program_name))]
pub(crate) fn is_program_name(file: &Fcb) -> bool
    ensures { result ≡ is_program_name file.now }
{
    let (name, kind) = file.extent.name.split_at(8);
    name != b"        ".as_slice() && kind == b"   ".as_slice() && !has_wildcard(file)
}

/// All files of that drive.
#[tactic(auto, unfolding(crate::specs::Names::all_of))]
pub(crate) fn all_of(file: Fcb) -> Fcb
    ensures { result ≡ all_of file }
{
    let extent = Extent {
        name: [b'?'; 11],
        ..file.extent
    };
    Fcb { extent, ..file }
}

/// The file of a program.
#[tactic(auto, unfolding(crate::specs::Names::program_file))]
pub(crate) fn program_file(mut file: Fcb) -> Fcb
    ensures { result ≡ program_file file }
{
    file.extent.name[8..].copy_from_slice(b"COM");
    file
}
